//! What an open checked transaction read, and which later commit wrote into it.
ghost use Rattle.std.specs.Prelude.{◌≡◌, ◌==◌, filter, map, not, position, OnErr, OnOk};
ghost use Rattle.isolation_spec.specs.Reads.{first_stale, last_meeting, meets, no_reads, reads_in};
ghost use Rattle.isolation_spec.specs.Reads.{with_read};
ghost use Rattle.isolation_spec.specs.declared.read.Read.TheVariants as read;
ghost use Rattle.si_machine.specs.Kept.{history_in};
ghost use Rattle.si_machine.specs.Met.{is_met_at};

use crate::writers::Writes;
use isolation_spec::{KeyRange, Place, Read};
use std::alloc::{AllocError, Global};
use std::collections::BTreeSet;
use std::marker::Model;

/// What a transaction read: the places whose keys it got, the tables that it read as a whole, and
/// the ranges of keys.
#[derive(Drop)]
pub(crate) struct Reads {
    places: BTreeSet<Place>,
    tables: BTreeSet<u32>,
    ranges: Vec<KeyRange>,
}

impl Model for Reads {
    ghost use Rattle.isolation_spec.specs.Reads.{ReadSet};

    ghost Value = { ReadSet };

    ghost view = { λ r. record {
      places = r.places.keys;
      tables = r.tables.keys;
      ranges = r.ranges.items;
    } };
}

impl Reads {
    /// Nothing was read.
    pub(crate) fn new(alloc: Global) -> Reads
        ensures { result ≡ no_reads }
    {
        Reads {
            places: BTreeSet::new(alloc),
            tables: BTreeSet::new(alloc),
            ranges: Vec::new(alloc),
        }
    }

    /// Enters a read.
    pub(crate) fn enter(&mut self, what: Read) -> Result<(), AllocError>
        ensures ok { OnOk result (self.new ≡ with_read what self.old) }
        ensures err { OnErr result (self.new ≡ self.old) }
    {
        match what {
            Read::Key { table, key } => {
                self.places.insert(Place { table, key })?;
            }
            Read::Table { table } => {
                self.tables.insert(table)?;
            }
            Read::Range { table, low, high } => {
                self.ranges.push(KeyRange { table, low, high })?;
            }
        }
        Ok(())
    }

    /// Of what was read the first that a commit behind the snapshot wrote, with the number of the
    /// last such commit: keys are looked at before tables, and these before ranges.
    pub(crate) fn first_stale(&self, commits: &[Writes], snapshot: usize) -> Option<(Read, usize)>
        ensures { result
            ≡ first_stale (last_meeting (history_in commits.now) snapshot) (reads_in self.now) }
    {
        stale_key(commits, snapshot, &self.places)
            .or(stale_table(commits, snapshot, &self.tables))
            .or(stale_range(commits, snapshot, &self.ranges))
    }
}

/// What an open checked transaction of a session read.
#[derive(Drop)]
pub(crate) struct Reading {
    pub(crate) session: u32,
    pub(crate) reads: Reads,
}

/// Where the reading of a session stands.
pub(crate) fn reading_of(readings: &[Reading], session: u32) -> Option<usize>
    ensures { result ≡ position (λ r. r.session == session) readings.now }
{
    readings
        .iter()
        .position(|reading| reading.session == session)
}

/// Drops the reading of a session.
pub(crate) fn forget(readings: &mut Vec<Reading>, session: u32)
    ensures { readings.new.items ≡ filter (λ r. not (r.session == session)) readings.old.items }
{
    readings.retain(|reading| reading.session != session);
}

/// The first of these keys that a commit behind the snapshot wrote.
fn stale_key(commits: &[Writes], snapshot: usize, places: &BTreeSet<Place>) -> Option<(Read, usize)>
    ensures { result
        ≡ first_stale (last_meeting (history_in commits.now) snapshot)
        (map (λ place. read.Key place.table place.key) places.now.keys) }
{
    for place in places {
        let what = Read::Key {
            table: place.table,
            key: place.key,
        };
        if let Some(number) = last_meeting(commits, snapshot, &what) {
            return Some((what, number));
        }
    }
    None
}

/// The first of these tables that a commit behind the snapshot wrote.
fn stale_table(commits: &[Writes], snapshot: usize, tables: &BTreeSet<u32>) -> Option<(Read, usize)>
    ensures { result
        ≡ first_stale (last_meeting (history_in commits.now) snapshot)
        (map read.Table tables.now.keys) }
{
    for table in tables {
        let what = Read::Table { table: *table };
        if let Some(number) = last_meeting(commits, snapshot, &what) {
            return Some((what, number));
        }
    }
    None
}

/// The first of these ranges that a commit behind the snapshot wrote.
fn stale_range(commits: &[Writes], snapshot: usize, ranges: &[KeyRange]) -> Option<(Read, usize)>
    ensures { result
        ≡ first_stale (last_meeting (history_in commits.now) snapshot)
        (map (λ range. read.Range range.table range.low range.high) ranges.now) }
{
    for range in ranges {
        let what = Read::Range {
            table: range.table,
            low: range.low,
            high: range.high,
        };
        if let Some(number) = last_meeting(commits, snapshot, &what) {
            return Some((what, number));
        }
    }
    None
}

/// The number of the last commit behind the snapshot that wrote into a read.
fn last_meeting(commits: &[Writes], snapshot: usize, what: &Read) -> Option<usize>
    ensures { result ≡ last_meeting (history_in commits.now) snapshot what.now }
{
    let mut last = None;
    for number in snapshot..commits.len() {
        if meets(what, &commits[number]) {
            last = Some(number + 1);
        }
    }
    last
}

/// Whether one of the writes is into the read.
fn meets(what: &Read, writes: &Writes) -> bool
    ensures { result ≡ meets what.now writes.now.entries }
{
    for place in writes.keys() {
        if is_met_at(what, place) {
            return true;
        }
    }
    false
}

/// Whether a write at the place is into the read.
fn is_met_at(what: &Read, place: &Place) -> bool
    ensures { result ≡ is_met_at what.now place.now }
{
    match *what {
        Read::Key { table, key } => place.table == table && place.key == key,
        Read::Table { table } => place.table == table,
        Read::Range { table, low, high } => {
            place.table == table && low <= place.key && place.key <= high
        }
    }
}
