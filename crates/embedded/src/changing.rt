//! A caller that changes rows: one session inserts two rows, changes the one and deletes the other,
//! and another session that met it finds what is left.
ghost use Rattle.std.specs.Prelude.{◌≡◌, ◌≢◌, ◌+◌, ◌<◌, ◌↔◌, IfOk, length, true};
ghost use Rattle.isolation_spec.specs.Contents.{key_of, place_of};
ghost use Rattle.shared_store.specs.Open.{IsAtRest};
ghost use Rattle.shared_store.specs.Store.{IsFree, IsSession, MakesAtMost};
ghost use Rattle.shared_store.specs.Store.{most_blocks_in_table, shape_in};
ghost use Rattle.workload_spec.specs.Valid.{fits_table};
ghost use Rattle.embedded.specs.Changing.{FindsChanges};
ghost use Rattle.embedded.specs.Room.{HaveRoom};
ghost use Rattle.embedded.specs.declared.NotHanded.TheVariants as not_handed;

use crate::{NotHanded, has_room};
use cell_model::{Row, Rows};
use shared_store::{Session, Store};
use std::sync::Wait;

/// The most blocks of a table, each of which a scan reads by an event.
const MOST_BLOCKS: u64 = 1 << 10;

/// What two transactions found in a table, of which the first changed rows there.
#[derive(Drop)]
pub struct Changed {
    /// How many commits the first transaction sees.
    pub began: u64,
    /// The rows that it found behind its changes, in the order of their keys.
    pub own: Rows,
    /// The number of its commit.
    pub committed: u64,
    /// How many commits the other transaction sees.
    pub sees: u64,
    /// The rows that that one found.
    pub other: Rows,
}

/// Inserts two rows in a transaction of one session, puts a changed row in the place of the first,
/// deletes the second by its key, scans the table there and commits. Then another session meets the
/// first, and scans the table in a transaction, which stays open. Both sessions have nothing open
/// before, and have lent nothing.
///
/// # Errors
///
/// A session has no room left: then nothing is done. A write is refused, or there is no memory for
/// what is found: then the first session's transaction stays open, or the second's where the first
/// one's was committed.
pub fn change_rows<R: Wait>(
    rt: &R,
    store: &Store,
    one: &mut Session,
    two: &mut Session,
    table: u32,
    first: Row,
    second: Row,
    changed: Row,
    key: i64,
) -> Result<Changed, NotHanded>
    requires one { IsSession store.now one.old }
    requires two { IsSession store.now two.old }
    requires free_one { IsFree one.old }
    requires free_two { IsFree two.old }
    requires rests_one { IsAtRest one.old }
    requires rests_two { IsAtRest two.old }
    requires table { table < length (shape_in store.now).tables }
    requires fits_first { fits_table (shape_in store.now).tables table first ≡ true }
    requires fits_second { fits_table (shape_in store.now).tables table second ≡ true }
    requires fits_changed { fits_table (shape_in store.now).tables table changed ≡ true }
    requires kept { key_of changed ≡ key_of first }
    requires dropped { key_of second ≡ key }
    requires apart { key_of first ≢ key }
    ensures one { IsSession store.now one.new }
    ensures two { IsSession store.now two.new }
    ensures free_one { IsFree one.new }
    ensures free_two { IsFree two.new }
    ensures few_one { MakesAtMost (most_blocks_in_table + 8) one.old one.new }
    ensures few_two { MakesAtMost (most_blocks_in_table + 1) two.old two.new }
    ensures rests { IfOk result (λ _. IsAtRest one.new) }
    ensures finds { IfOk result (FindsChanges store.now
        one.old two.old two.new table (place_of table first) (place_of table second) changed) }
    ensures no_room { (result ≡ Err not_handed.NoRoom)
        ↔ ¬ HaveRoom (most_blocks_in_table + 8) one.old (most_blocks_in_table + 1) two.old }
    ensures unmoved { result ≡ Err not_handed.NoRoom
        → (one.new ≡ one.old) × (two.new ≡ two.old) }
{
    if !has_room(one, MOST_BLOCKS + 8) || !has_room(two, MOST_BLOCKS + 1) {
        return Err(NotHanded::NoRoom);
    }
    let began = store.begin(rt, one).unwrap();
    store.insert(rt, one, table, first)?;
    store.insert(rt, one, table, second)?;
    store.update(rt, one, table, changed)?;
    store.delete(rt, one, table, key)?;
    let own = store.scan_uncounted(rt, one, table)?;
    let stood = store.commit(rt, one).unwrap();
    let committed = stood.unwrap();
    store.meet(one, two);
    let sees = store.begin(rt, two).unwrap();
    let other = store.scan_uncounted(rt, two, table)?;
    Ok(Changed {
        began,
        own,
        committed,
        sees,
        other,
    })
}
