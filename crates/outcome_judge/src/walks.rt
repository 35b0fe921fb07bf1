//! What a transaction sees at keys, one after the other: the rows of a range, and the numbers of a
//! column.
ghost use Rattle.std.specs.Prelude.{◌≡◌, ◌<◌, List, filter_map, length, option_and_then, slice_get};
ghost use Rattle.std.specs.Prelude.{◌==◌, ◌&&◌, option_map, true, false};
ghost use Rattle.std.specs.Ordering.{int_eq};
ghost use Rattle.std.specs.Cmp.Lexicographic.{pointwise};
ghost use Rattle.std.specs.List.{cons_option};
ghost use Rattle.std.specs.Option.{option_map_or};
ghost use Rattle.cell_model.specs.declared.cell.Cell.{Cell as CellValue};
ghost use Rattle.isolation_spec.specs.Contents.{at_place, contents_between, contents_of};
ghost use Rattle.isolation_spec.specs.Contents.{number_between, numbers_between};
ghost use Rattle.outcome_spec.specs.Answers.{is_row, is_total_of};
ghost use Rattle.output_read.specs.Kept.{entries_of};
ghost use Rattle.outcome_judge.specs.HistoryKept.{place_in};
ghost use Rattle.outcome_judge.specs.KeyLists.{AreKeys, rows_at};
ghost use Rattle.outcome_judge.specs.Seen.{AreSights, IsOutput, seen_up_to};
ghost use Rattle.si_machine.specs.Kept.{is_number};

use crate::compare::is_row;
use crate::key_list::KeyList;
use crate::keys::RowKey;
use crate::sights::Sights;
use cell_model::Row;
use isolation_spec::KeyRange;
use output_read::{KeptReply, Totalled};
use si_machine::number_between;

/// What a total asks of a table: how many numbers of a column, counted from 0, lie between two,
/// both counted, and for their sum.
#[derive(Clone, Copy, Debug, Drop)]
pub(crate) struct TotalAsked {
    pub(crate) table: u32,
    pub(crate) column: u32,
    pub(crate) low: i128,
    pub(crate) high: i128,
}

/// Whether the total is told as this count and this sum.
fn is_told(told: Totalled, count: u64, sum: i128) -> bool
    ensures { result ≡ (told.count == count && int_eq told.sum sum) }
{
    told.count == count && told.sum == sum
}

/// The rows behind the one that is seen at a key, if one is; none where they do not begin with it.
fn rows_behind<'r>(rows: &'r [Row], found: Option<&Row>) -> Option<&'r [Row]>
    ensures { (others : List (List CellValue))
        → pointwise is_row rows.now (cons_option (option_map (λ its. its.now) found.entry) others)
        ≡ option_map_or (λ left. pointwise is_row left.now others) result false }
{
    let Some(found) = found else {
        return Some(rows);
    };
    match rows {
        [first, behind @ ..] if is_row(first, found) => Some(behind),
        _ => None,
    }
}

impl<'a> Sights<'a> {
    /// Whether the rows are those that the transaction opened at a place sees at the keys, in front
    /// of another.
    pub(crate) fn are_rows_at(
        &self,
        replies: &[KeptReply<'a>],
        openings: &[Option<u32>],
        opening: usize,
        at: usize,
        keys: &[RowKey],
        rows: &[Row],
    ) -> bool
        requires output { IsOutput openings.now (entries_of replies.now) }
        requires sights { AreSights openings.now (entries_of replies.now) (length replies.now)
            self.now }
        ensures { result ≡ pointwise is_row rows.now
            (rows_at (seen_up_to openings.now (entries_of replies.now) (length replies.now) opening
            at) keys.now) }
    {
        let mut rest = rows;
        for of in keys {
            let found = self.seen(replies, openings, opening, at, *of);
            match rows_behind(rest, found) {
                None => return false,
                Some(behind) => rest = behind,
            }
        }
        rest.is_empty()
    }

    /// The number of the column that is asked for, where it lies between the two, in the row of a
    /// key that the transaction opened at a place sees in front of another.
    fn number_at(
        &self,
        replies: &[KeptReply<'a>],
        openings: &[Option<u32>],
        opening: usize,
        at: usize,
        of: RowKey,
        asked: TotalAsked,
    ) -> Option<i128>
        requires output { IsOutput openings.now (entries_of replies.now) }
        requires sights { AreSights openings.now (entries_of replies.now) (length replies.now)
            self.now }
        requires low { is_number asked.low ≡ true }
        requires high { is_number asked.high ≡ true }
        ensures { result ≡ option_and_then
            (λ row. option_and_then (number_between asked.low asked.high)
            (slice_get row asked.column))
            (at_place (seen_up_to openings.now (entries_of replies.now) (length replies.now) opening
            at) (place_in of)) }
    {
        let row = self.seen(replies, openings, opening, at, of)?;
        number_between(row, asked.column, asked.low, asked.high)
    }

    /// Whether so many of the numbers that are asked for lie between the two, with this sum, in the
    /// rows that the transaction opened at a place sees at the keys, in front of another.
    pub(crate) fn is_total_at(
        &self,
        replies: &[KeptReply<'a>],
        openings: &[Option<u32>],
        opening: usize,
        at: usize,
        keys: &[RowKey],
        asked: TotalAsked,
        told: Totalled,
    ) -> bool
        requires output { IsOutput openings.now (entries_of replies.now) }
        requires sights { AreSights openings.now (entries_of replies.now) (length replies.now)
            self.now }
        requires low { is_number asked.low ≡ true }
        requires high { is_number asked.high ≡ true }
        ensures { result ≡ is_total_of told.count told.sum
            (numbers_between asked.column asked.low asked.high
            (rows_at (seen_up_to openings.now (entries_of replies.now) (length replies.now) opening
            at) keys.now)) }
    {
        let mut count: u64 = 0;
        let mut sum: i128 = 0;
        for of in keys {
            if let Some(number) = self.number_at(replies, openings, opening, at, *of, asked) {
                count += 1;
                sum += number;
            }
        }
        is_told(told, count, sum)
    }

    /// Whether the rows are those of a range of keys that the transaction opened at a place sees,
    /// in front of another.
    pub(crate) fn is_range(
        &self,
        keys: &KeyList,
        replies: &[KeptReply<'a>],
        openings: &[Option<u32>],
        opening: usize,
        at: usize,
        range: KeyRange,
        rows: &[Row],
    ) -> bool
        requires keys { AreKeys (entries_of replies.now) keys.now }
        requires output { IsOutput openings.now (entries_of replies.now) }
        requires sights { AreSights openings.now (entries_of replies.now) (length replies.now)
            self.now }
        ensures { result ≡ pointwise is_row rows.now
            (contents_between range.table range.low range.high
            (seen_up_to openings.now (entries_of replies.now) (length replies.now) opening at)) }
    {
        let between = keys.between(range.table, range.low, range.high);
        self.are_rows_at(replies, openings, opening, at, between, rows)
    }

    /// Whether a total of a table is what is asked of the rows that the transaction opened at a
    /// place sees, in front of another.
    pub(crate) fn is_total(
        &self,
        keys: &KeyList,
        replies: &[KeptReply<'a>],
        openings: &[Option<u32>],
        opening: usize,
        at: usize,
        asked: TotalAsked,
        told: Totalled,
    ) -> bool
        requires keys { AreKeys (entries_of replies.now) keys.now }
        requires output { IsOutput openings.now (entries_of replies.now) }
        requires sights { AreSights openings.now (entries_of replies.now) (length replies.now)
            self.now }
        requires low { is_number asked.low ≡ true }
        requires high { is_number asked.high ≡ true }
        ensures { result ≡ is_total_of told.count told.sum
            (numbers_between asked.column asked.low asked.high (contents_of asked.table
            (seen_up_to openings.now (entries_of replies.now) (length replies.now) opening at))) }
    {
        let of_table = keys.of_table(asked.table);
        self.is_total_at(replies, openings, opening, at, of_table, asked, told)
    }
}
