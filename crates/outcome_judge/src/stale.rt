//! Whether a commit may show a stale read, or none: what is asked of the reads of its transaction,
//! of the numbers of commits, and of how high they are.
ghost use Rattle.std.specs.Prelude.{◌≡◌, ◌&&◌, ◌<◌, false, is_some, List, Some, length};
ghost use Rattle.std.specs.Option.{option_map_or};
ghost use Rattle.std.specs.List.{list_any};
ghost use Rattle.cell_model.specs.declared.table.TableDecl.{TableDecl};
ghost use Rattle.order_laws.specs.Opened.{OpensOutside};
ghost use Rattle.output_read.specs.Kept.{entries_of, entry_of, said_of};
ghost use Rattle.output_read.specs.declared.kept.KeptReply.{KeptReply as Kept};
ghost use Rattle.outcome_counts.specs.Asked.{IsAsked, IsJudgedBy, asked_at};
ghost use Rattle.outcome_counts.specs.Openings.{opened_at};
ghost use Rattle.outcome_counts.specs.Written.{AreSpans};
ghost use Rattle.outcome_spec.specs.Entries.{is_end, is_same};
ghost use Rattle.outcome_spec.specs.Runs.{Span, accepted_write, run_of};
ghost use Rattle.outcome_spec.specs.Stale.{begins_checked, is_read, read_asked, read_of};
ghost use Rattle.outcome_spec.specs.Stale.{read_told, shows_read};
ghost use Rattle.outcome_judge.specs.KeyLists.{AreKeys};
ghost use Rattle.outcome_judge.specs.Stale.{answers, commit_shown, commits_last, is_overtaken};
ghost use Rattle.outcome_judge.specs.Stale.{is_stale, reads_stand, tops_stand, was_read};
ghost use Rattle.outcome_judge.specs.Writers.{AreHeights, AreNumbered};
ghost use Rattle.outcome_judge.specs.Threads.{told_by};

use crate::commits::{Heights, Numbers, Transaction, is_before};
use crate::key_list::KeyList;
use isolation_spec::Read;
use outcome_counts::spans::Spans;
use outcome_counts::{Stretch, snapshot_told};
use output_read::{KeptReply, Told};
use workload_spec::{Command, StaleRead, Who};

/// What a reply shows of a commit of writes.
#[derive(Clone, Copy, Debug)]
pub(crate) enum Commit {
    /// Nothing.
    None,
    /// The number as which it commits.
    As(u64),
    /// A stale read, and the number of the commit that wrote it.
    Stale(Read, u64),
}

/// What is asked of a reply of a transaction.
#[derive(Clone, Copy, Debug)]
pub(crate) enum Question {
    /// Whether it opened a checked transaction.
    Checked,
    /// Whether it accepts a write before another.
    Written,
    /// Whether it tells of a read before another.
    Read(Read),
}

/// Whether both of two conditions hold.
pub(crate) fn both_hold(first: bool, second: bool) -> bool
    ensures { result ≡ (first && second) }
{
    first && second
}

/// Whether the two are one read.
fn is_read(a: Read, b: Read) -> bool
    ensures { result ≡ is_read a b }
{
    match (a, b) {
        (
            Read::Key { table, key },
            Read::Key {
                table: of,
                key: its,
            },
        ) => table == of && key == its,
        (Read::Table { table }, Read::Table { table: of }) => table == of,
        (
            Read::Range { table, low, high },
            Read::Range {
                table: of,
                low: from,
                high: to,
            },
        ) => table == of && low == from && high == to,
        _ => false,
    }
}

/// What a command asks to read.
fn read_asked(command: &Command) -> Option<Read>
    ensures { result ≡ read_asked command.now }
{
    match command {
        Command::Get { table, key } => Some(Read::Key {
            table: *table,
            key: *key,
        }),
        Command::Range { table, low, high } => Some(Read::Range {
            table: *table,
            low: *low,
            high: *high,
        }),
        Command::Scan { table } | Command::Total { table, .. } | Command::Export { table } => {
            Some(Read::Table { table: *table })
        }
        _ => None,
    }
}

/// Whether the reply is what a read asked for.
fn shows_read(told: &Told<'_>) -> bool
    ensures { result ≡ shows_read (said_of told.now) }
{
    match told {
        Told::Found(_) | Told::Absent | Told::Scanned { .. } => true,
        Told::Totalled(_) | Told::Exported(_) => true,
        _ => false,
    }
}

/// What the reply tells was read.
fn read_told(reply: &KeptReply<'_>) -> Option<Read>
    ensures { let entry = entry_of reply.now in
        result ≡ read_told entry.command entry.reply.said }
{
    if !shows_read(&reply.told) {
        return None;
    }
    match reply.command {
        None => None,
        Some(command) => read_asked(command),
    }
}

/// The read that a reply names.
fn read_of(read: &StaleRead) -> Read
    ensures { result ≡ read_of read.now }
{
    match read {
        StaleRead::Key { table, key } => Read::Key {
            table: *table,
            key: *key,
        },
        StaleRead::Table { table } => Read::Table { table: *table },
        StaleRead::Range { table, low, high } => Read::Range {
            table: *table,
            low: *low,
            high: *high,
        },
    }
}

/// What the reply shows of a commit of writes.
fn commit_shown(reply: &KeptReply<'_>) -> Commit
    ensures { result ≡ commit_shown (entry_of reply.now).reply.said }
{
    match &reply.told {
        Told::Stale(stale) => Commit::Stale(read_of(&stale.read), stale.number),
        Told::Committed(Some(number)) => Commit::As(*number),
        _ => Commit::None,
    }
}

/// Whether the reply's command begins a checked transaction.
fn begins_checked(reply: &KeptReply<'_>) -> bool
    ensures { result ≡ begins_checked (entry_of reply.now).command }
{
    match reply.command {
        Some(Command::Begin { checked }) => *checked,
        _ => false,
    }
}

/// Whether the reply accepts a write.
fn accepts_write(reply: &KeptReply<'_>) -> bool
    ensures { result ≡ is_some (accepted_write (entry_of reply.now)) }
{
    match (&reply.told, reply.command) {
        (
            Told::Accepted,
            Some(Command::Insert { .. } | Command::Update { .. } | Command::Delete { .. }),
        ) => true,
        _ => false,
    }
}

/// Whether the reply tells of the read.
fn tells_read(reply: &KeptReply<'_>, what: Read) -> bool
    ensures { let entry = entry_of reply.now in
        result ≡ option_map_or (is_read what) (read_told entry.command entry.reply.said) false }
{
    match read_told(reply) {
        None => false,
        Some(its) => is_read(what, its),
    }
}

/// What is asked of a reply, before another.
fn answers(reply: &KeptReply<'_>, by: &KeptReply<'_>, question: Question) -> bool
    ensures { result ≡ answers (entry_of by.now) question (entry_of reply.now) }
{
    match question {
        Question::Checked => begins_checked(reply) && snapshot_told(reply).is_some(),
        Question::Written => accepts_write(reply) && is_before(reply, by),
        Question::Read(what) => tells_read(reply, what) && is_before(reply, by),
    }
}

/// Whether the reply is one to the session or worker.
fn is_own(reply: &KeptReply<'_>, who: Who) -> bool
    ensures { result ≡ is_same (entry_of reply.now).reply.who who }
{
    reply.who == who
}

/// Whether the reply ends a transaction.
fn is_end(reply: &KeptReply<'_>) -> bool
    ensures { result ≡ is_end (entry_of reply.now).reply.said }
{
    matches!(&reply.told, Told::Committed(_) | Told::Aborted)
}

/// What a reply tells of the question of a transaction of one: that it is answered, or that the
/// transaction ends unanswered; none where it goes on.
fn asked_of(reply: &KeptReply<'_>, who: Who, by: &KeptReply<'_>, question: Question) -> Option<bool>
    ensures { result ≡ told_by who (answers (entry_of by.now) question) (entry_of reply.now) }
{
    if !is_own(reply, who) {
        return None;
    }
    if answers(reply, by, question) {
        return Some(true);
    }
    if is_end(reply) { Some(false) } else { None }
}

/// Whether a reply of the transaction that is opened at a place answers the question, asked before
/// the reply at another.
fn is_answered(replies: &[KeptReply<'_>], opening: usize, at: usize, question: Question) -> bool
    requires opened { opening < length replies.now }
    requires inside { at < length replies.now }
    ensures { (none : Kept) (t : Span) → opened_at opening (entries_of replies.now) ≡ Some t
        → result ≡ list_any (answers (asked_at replies.now at none) question) t.replies }
{
    let by = &replies[at];
    let who = replies[opening].who;
    for place in opening..replies.len() {
        if let Some(answer) = asked_of(&replies[place], who, by, question) {
            return answer;
        }
    }
    false
}

/// Whether the read was made in the transaction that is opened at a place, before the reply at
/// another, and the transaction is checked and has written.
fn was_read(replies: &[KeptReply<'_>], opening: usize, at: usize, what: Read) -> bool
    requires opened { opening < length replies.now }
    requires inside { at < length replies.now }
    ensures { (none : Kept) (t : Span) → opened_at opening (entries_of replies.now) ≡ Some t
        → result ≡ was_read t (asked_at replies.now at none) what }
{
    let checked = is_answered(replies, opening, at, Question::Checked);
    let written = is_answered(replies, opening, at, Question::Written);
    let read = is_answered(replies, opening, at, Question::Read(what));
    both_hold(both_hold(checked, written), read)
}

impl Numbers {
    /// Whether a later commit wrote into what the reply tells was read.
    fn is_overtaken(
        &self,
        keys: &KeyList,
        replies: &[KeptReply<'_>],
        place: usize,
        t: Transaction,
    ) -> bool
        requires keys { AreKeys (entries_of replies.now) keys.now }
        requires written { AreNumbered (entries_of replies.now) self.now }
        requires inside { place < length replies.now }
        ensures { (none : Kept) → result
            ≡ is_overtaken (entries_of replies.now) t (asked_at replies.now place none) }
    {
        match read_told(&replies[place]) {
            None => false,
            Some(what) => !self.is_first_read(keys, replies, what, t),
        }
    }

    /// What a reply tells of whether a read of the transaction of one is overtaken: that one is, or
    /// that the transaction ends and none is; none where it goes on.
    fn overtaken_by(
        &self,
        keys: &KeyList,
        replies: &[KeptReply<'_>],
        place: usize,
        who: Who,
        t: Transaction,
    ) -> Option<bool>
        requires keys { AreKeys (entries_of replies.now) keys.now }
        requires written { AreNumbered (entries_of replies.now) self.now }
        requires inside { place < length replies.now }
        ensures { (none : Kept) → result ≡ told_by who (is_overtaken (entries_of replies.now) t)
            (asked_at replies.now place none) }
    {
        if !is_own(&replies[place], who) {
            return None;
        }
        if self.is_overtaken(keys, replies, place, t) {
            return Some(true);
        }
        if is_end(&replies[place]) {
            Some(false)
        } else {
            None
        }
    }

    /// Whether a later commit wrote into what the transaction read that is opened at a place.
    fn are_overtaken(
        &self,
        keys: &KeyList,
        replies: &[KeptReply<'_>],
        opening: usize,
        t: Transaction,
    ) -> bool
        requires keys { AreKeys (entries_of replies.now) keys.now }
        requires written { AreNumbered (entries_of replies.now) self.now }
        requires opened { opening < length replies.now }
        ensures { (span : Span) → opened_at opening (entries_of replies.now) ≡ Some span
            → result ≡ list_any (is_overtaken (entries_of replies.now) t) span.replies }
    {
        let who = replies[opening].who;
        for place in opening..replies.len() {
            if let Some(answer) = self.overtaken_by(keys, replies, place, who, t) {
                return answer;
            }
        }
        false
    }

    /// Whether a stale read was read, and is named with a number of its own.
    fn is_stale(
        &self,
        keys: &KeyList,
        replies: &[KeptReply<'_>],
        opening: usize,
        at: usize,
        what: Read,
        snapshot: u64,
        number: u64,
    ) -> bool
        requires keys { AreKeys (entries_of replies.now) keys.now }
        requires written { AreNumbered (entries_of replies.now) self.now }
        requires opened { opening < length replies.now }
        requires inside { at < length replies.now }
        ensures { (none : Kept) (tables : List TableDecl) (t : Span)
            → opened_at opening (entries_of replies.now) ≡ Some t → t.snapshot ≡ snapshot
            → result ≡ is_stale (run_of tables (entries_of replies.now)) t
            (asked_at replies.now at none) what number }
    {
        let read = was_read(replies, opening, at, what);
        let named = self.is_named_read(keys, replies, at, what, snapshot, number);
        both_hold(read, named)
    }

    /// Whether the transaction that is opened at a place may commit as a number by the reply at
    /// another: it isn't checked, or none of its reads is overtaken.
    fn commits_last(
        &self,
        keys: &KeyList,
        replies: &[KeptReply<'_>],
        opening: usize,
        at: usize,
        snapshot: u64,
        number: u64,
    ) -> bool
        requires keys { AreKeys (entries_of replies.now) keys.now }
        requires written { AreNumbered (entries_of replies.now) self.now }
        requires opened { opening < length replies.now }
        requires inside { at < length replies.now }
        ensures { (none : Kept) (t : Span)
            → opened_at opening (entries_of replies.now) ≡ Some t → t.snapshot ≡ snapshot
            → result ≡ commits_last (entries_of replies.now) t (asked_at replies.now at none)
            number }
    {
        let t = Transaction {
            snapshot,
            committed: Some(number),
        };
        if !is_answered(replies, opening, at, Question::Checked) {
            return true;
        }
        !self.are_overtaken(keys, replies, opening, t)
    }

    /// Whether the reply keeps what is asked of the reads of its transaction and of the numbers of
    /// commits.
    pub(crate) fn reads_stand(
        &self,
        keys: &KeyList,
        spans: &Spans,
        replies: &[KeptReply<'_>],
        at: usize,
    ) -> bool
        requires keys { AreKeys (entries_of replies.now) keys.now }
        requires written { AreNumbered (entries_of replies.now) self.now }
        requires spans { AreSpans (entries_of replies.now) (length replies.now) spans.now }
        requires outside { OpensOutside (entries_of replies.now) }
        requires inside { at < length replies.now }
        ensures { (tables : List TableDecl)
            → IsJudgedBy (reads_stand (run_of tables (entries_of replies.now))) replies.now at
            result }
    {
        let Some(opening) = spans.opening_of(replies, at) else {
            return true;
        };
        let snapshot = spans.snapshot_of(replies, opening);
        match commit_shown(&replies[at]) {
            Commit::None => true,
            Commit::As(number) => {
                self.commits_last(keys, replies, opening, at, snapshot, number)
            }
            Commit::Stale(what, number) => {
                self.is_stale(keys, replies, opening, at, what, snapshot, number)
            }
        }
    }
}

impl Heights {
    /// Whether the reply keeps what is asked of how high the commits are that wrote a stale read.
    pub(crate) fn tops_stand(
        &self,
        keys: &KeyList,
        spans: &Spans,
        replies: &[KeptReply<'_>],
        at: usize,
        stretch: &Stretch,
    ) -> bool
        requires keys { AreKeys (entries_of replies.now) keys.now }
        requires written { AreHeights (entries_of replies.now) self.now }
        requires spans { AreSpans (entries_of replies.now) (length replies.now) spans.now }
        requires asked { IsAsked replies.now at stretch.now }
        ensures { (tables : List TableDecl)
            → IsJudgedBy (tops_stand (run_of tables (entries_of replies.now))) replies.now at
            result }
    {
        let Some(opening) = spans.opening_of(replies, at) else {
            return true;
        };
        let _ = opening;
        match commit_shown(&replies[at]) {
            Commit::None => true,
            Commit::As(_) => true,
            Commit::Stale(what, number) => {
                self.is_highest_read(keys, replies, at, stretch, what, number)
            }
        }
    }
}
