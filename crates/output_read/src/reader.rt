//! How far an output was read.
ghost use Rattle.std.specs.Prelude.{◌≡◌, ◌+◌, ◌<◌, ◌^◌, ◌++◌, ◌∷◌, [], true, length, drop};
ghost use Rattle.std.specs.Prelude.{option_map, OnOk, IfOk, IfSome, None};
ghost use Rattle.outcome_spec.specs.Entries.{is_same};
ghost use Rattle.outcome_spec.specs.Lines.{lines_of};
ghost use Rattle.output_read.specs.Fronts.{IsSaidBy, count_first, is_of_block, is_plain, is_single};
ghost use Rattle.output_read.specs.Fronts.{said_first, words_behind, words_first};
ghost use Rattle.output_read.specs.Kept.{is_told, said_of};

use crate::kept::{Exported, KeptReply, Stale, Told, Totalled};
use cell_model::TableDecl;
use reply_text::{behind, head_in, told_in};
use std::alloc::{AllocError, Global};
use word_read::{natural, split_line};
use workload_spec::{Command, Said, Who};

/// How far an output was read: what is left of it, the number of the next line, and the replies of
/// the lines before it.
#[derive(Drop)]
pub struct Reader<'a> {
    pub tables: &'a [TableDecl],
    pub rest: &'a [u8],
    pub line: u64,
    pub replies: Vec<KeptReply<'a>>,
}

/// Whom a line answers: a round, a session or worker, and the index of the reply.
#[derive(Clone, Copy)]
pub struct Heading {
    pub round: u32,
    pub who: Who,
    pub index: u64,
}

/// What the next line says, and what stands behind it.
#[derive(Drop)]
pub struct Front<'a> {
    pub said: Said,
    pub words: &'a [u8],
    pub behind: &'a [u8],
}

/// Whether the two are one session, or one worker.
fn is_same(a: Who, b: Who) -> bool
    ensures { result ≡ is_same a b }
{
    match (a, b) {
        (Who::Session(m), Who::Session(n)) | (Who::Worker(m), Who::Worker(n)) => m == n,
        _ => false,
    }
}

/// The words of the line behind this heading.
fn words_behind(heading: Heading, line: &[u8]) -> Option<&[u8]>
    ensures { option_map (λ words. words.now) result
        ≡ words_behind heading.round heading.who heading.index line.now }
{
    match head_in(line) {
        Some((round, who, index, words))
            if round == heading.round && is_same(who, heading.who) && index == heading.index => {
            Some(words)
        }
        _ => None,
    }
}

/// The words of the first line behind this heading, and what stands behind the line.
pub fn words_first<'a>(heading: Heading, text: &'a [u8]) -> Option<(&'a [u8], &'a [u8])>
    ensures words { option_map (λ x. x.0.now) result
        ≡ words_first heading.round heading.who heading.index (lines_of text.now) }
    ensures behind { IfSome result (λ x. drop 1 (lines_of text.now) ≡ lines_of x.1.now) }
    ensures shorter { IfSome result (λ x. length x.1.now < length text.now) }
{
    match split_line(text) {
        Some((line, behind)) => match words_behind(heading, line) {
            Some(words) => Some((words, behind)),
            None => None,
        },
        None => None,
    }
}

/// What the first line says behind this heading.
pub fn said_first<'a>(
    alloc: Global,
    tables: &[TableDecl],
    heading: Heading,
    text: &'a [u8],
) -> Result<Option<Front<'a>>, AllocError>
    requires { length tables.now < 2 ^ 32 }
    ensures said { IfOk result (λ front. option_map (λ x. x.said) front
        ≡ said_first tables.now heading.round heading.who heading.index (lines_of text.now)) }
    ensures words { IfOk result (λ front. IfSome front (λ x. IsSaidBy x.words.now x.said)) }
    ensures behind { IfOk result (λ front. IfSome front
        (λ x. drop 1 (lines_of text.now) ≡ lines_of x.behind.now)) }
    ensures shorter { IfOk result
        (λ front. IfSome front (λ x. length x.behind.now < length text.now)) }
{
    let Some((words, behind)) = words_first(heading, text) else {
        return Ok(None);
    };
    match told_in(alloc, tables, words, b"")? {
        Some(said) => Ok(Some(Front {
            said,
            words,
            behind,
        })),
        None => Ok(None),
    }
}

/// How many rows the first line says behind this heading that follow it, and what stands behind it.
pub fn count_first<'a>(heading: Heading, text: &'a [u8]) -> Option<(u64, &'a [u8])>
    ensures count { option_map (λ x. x.0) result
        ≡ count_first heading.round heading.who heading.index (lines_of text.now) }
    ensures behind { IfSome result (λ x. drop 1 (lines_of text.now) ≡ lines_of x.1.now) }
    ensures shorter { IfSome result (λ x. length x.1.now < length text.now) }
{
    let (words, others) = words_first(heading, text)?;
    match behind(words, b"rows ") {
        Some(word) => match natural(word) {
            Some(count) => Some((count, others)),
            None => None,
        },
        None => None,
    }
}

/// What is kept of a reply that says something of a block.
fn block_told<'a>(said: &Said) -> Told<'a>
    requires { is_of_block said.now ≡ true }
    ensures said { said_of result ≡ said.now }
    ensures told { is_told result ≡ true }
{
    match said {
        Said::Freezing {
            table,
            block,
            stamp,
        } => Told::Freezing {
            table: *table,
            block: *block,
            stamp: *stamp,
        },
        Said::Sealed {
            table,
            block,
            stamp,
        } => Told::Sealed {
            table: *table,
            block: *block,
            stamp: *stamp,
        },
        Said::Frozen { table, block, rows } => Told::Frozen {
            table: *table,
            block: *block,
            rows: *rows,
        },
        _ => unreachable!(),
    }
}

/// What is kept of a reply that has no row, and tells of no export, total or stale read.
fn plain_told<'a>(said: &Said) -> Told<'a>
    requires { is_plain said.now ≡ true }
    ensures said { said_of result ≡ said.now }
    ensures told { is_told result ≡ true }
{
    match said {
        Said::At(number) => Told::At(*number),
        Said::InTransaction => Told::InTransaction,
        Said::NoTransaction => Told::NoTransaction,
        Said::Absent => Told::Absent,
        Said::Accepted => Told::Accepted,
        Said::ConflictSession(session) => Told::ConflictSession(*session),
        Said::ConflictCommit(number) => Told::ConflictCommit(*number),
        Said::Exists => Told::Exists,
        Said::Missing => Told::Missing,
        Said::Full => Told::Full,
        Said::Committed(number) => Told::Committed(*number),
        Said::Aborted => Told::Aborted,
        Said::Cooling(count) => Told::Cooling(*count),
        Said::Pruned(count) => Told::Pruned(*count),
        Said::Moved(count) => Told::Moved(*count),
        Said::NotSealed(cause) => Told::NotSealed(*cause),
        Said::NotFrozen => Told::NotFrozen,
        Said::Dirty(key) => Told::Dirty(*key),
        Said::Memory => Told::Memory,
        _ => block_told(said),
    }
}

/// What is kept of a reply of one line.
pub fn told_of<'a>(alloc: Global, said: &Said, words: &'a [u8]) -> Result<Told<'a>, AllocError>
    requires single { is_single said.now ≡ true }
    requires words { IsSaidBy words.now said.now }
    ensures said { IfOk result (λ told. said_of told ≡ said.now) }
    ensures told { IfOk result (λ told. is_told told ≡ true) }
{
    match said {
        Said::Found(_) => Ok(Told::Found(behind(words, b"row ").unwrap_or(words))),
        Said::Exported {
            number,
            rows,
            batches,
            frozen,
        } => {
            let told = Exported {
                number: *number,
                rows: *rows,
                batches: *batches,
                frozen: *frozen,
            };
            Ok(Told::Exported(Box::new(alloc, told)?))
        }
        Said::Stale { read, number } => {
            let told = Stale {
                read: *read,
                number: *number,
            };
            Ok(Told::Stale(Box::new(alloc, told)?))
        }
        Said::Totalled { count, sum } => {
            let told = Totalled {
                count: *count,
                sum: *sum,
            };
            Ok(Told::Totalled(Box::new(alloc, told)?))
        }
        _ => Ok(plain_told(said)),
    }
}

impl<'a> Reader<'a> {
    /// Keeps a reply of so many lines, behind which this stands.
    pub fn keep(
        &mut self,
        heading: Heading,
        command: Option<&'a Command>,
        told: Told<'a>,
        lines: u64,
        behind: &'a [u8],
    ) -> Result<(), AllocError>
        requires room { self.old.line + lines < 2 ^ 64 }
        requires number { self.old.line < 2 ^ 32 }
        requires index { heading.index < 2 ^ 32 }
        ensures tables { self.new.tables.now ≡ self.old.tables.now }
        ensures rest { OnOk result (self.new.rest.now ≡ behind.now) }
        ensures line { OnOk result (self.new.line ≡ self.old.line + lines) }
        ensures kept { OnOk result (self.new.replies.items ≡ self.old.replies.items
            ++ record {
              number = self.old.line;
              command = command.entry;
              round = heading.round;
              who = heading.who;
              index = heading.index;
              told = told.entry;
            } ∷ []) }
    {
        self.replies.push(KeptReply {
            number: self.line as u32,
            command,
            round: heading.round,
            who: heading.who,
            index: heading.index as u32,
            told,
        })?;
        self.line += lines;
        self.rest = behind;
        Ok(())
    }
}
