//! A worker's turn.
ghost use Rattle.std.specs.Prelude.{◌≡◌, ◌+◌, ◌<◌, ◌∷◌, [], length, true};
ghost use Rattle.event_spec.specs.Parts.{blocks_of};
ghost use Rattle.outcome_spec.specs.Forms.{is_upkeep};
ghost use Rattle.shared_store.specs.Store.{HasRoomFor, shape_in};
ghost use Rattle.store_rounds.specs.Sessions.{IsFreeSession};
ghost use Rattle.store_rounds.specs.Keeping.{most_made, most_upkeep};
ghost use Rattle.store_rounds.specs.Turns.{KeepsUp, MadeTurn, asked_of_block, asked_of_table};
ghost use Rattle.store_rounds.specs.Turns.{asked_of_tables, most_of_block, most_of_table};
ghost use Rattle.store_rounds.specs.Turns.{most_of_tables, most_of_turn};
ghost use Rattle.workload_spec.specs.Valid.{is_block_of, is_command};

use crate::keeping::keep_up;
use crate::upkeep_lines::Lines;
use shared_store::{Session, Store};
use std::alloc::{AllocError, Global};
use std::sync::Wait;
use std::thread::Threads;
use workload_spec::{Command, Said};

/// Makes a worker's turn: observes and prunes all blocks, and for each table in order compacts it,
/// and seals and gathers each of its blocks. Gives the lines that these tell, without those of a
/// seal or a gathering that does nothing.
///
/// # Errors
///
/// There is no memory for the lines; the turn is made all the same.
pub fn turn<R: Wait + Threads + Sync>(
    rt: &R,
    alloc: Global,
    store: &Store,
    session: &mut Session,
) -> Result<Vec<Said>, AllocError>
    requires session { IsFreeSession store.now session.old }
    requires room { HasRoomFor most_of_turn session.old }
    ensures { MadeTurn store.now session.old session.new result }
{
    let mut lines = Lines::new(alloc);
    step(rt, store, session, Command::Observe, &mut lines);
    step(rt, store, session, Command::Prune, &mut lines);
    tend_tables(rt, store, session, &mut lines);
    lines.into_told()
}

/// The part of a turn that tends each table.
fn tend_tables<R: Wait + Threads + Sync>(
    rt: &R,
    store: &Store,
    session: &mut Session,
    lines: &mut Lines,
)
    requires session { IsFreeSession store.now session.old }
    requires room { HasRoomFor (most_of_tables + most_upkeep) session.old }
    ensures { KeepsUp store.now session.old session.new lines.old lines.new
        (asked_of_tables (shape_in store.now).tables) most_of_tables }
{
    for table in 0..store.tables().len() as u32 {
        tend_table(rt, store, session, table, lines);
    }
}

/// Compacts a table, and tends each of its blocks.
fn tend_table<R: Wait + Threads + Sync>(
    rt: &R,
    store: &Store,
    session: &mut Session,
    table: u32,
    lines: &mut Lines,
)
    requires session { IsFreeSession store.now session.old }
    requires room { HasRoomFor (most_of_table + most_upkeep) session.old }
    requires table { table < length (shape_in store.now).tables }
    ensures { KeepsUp store.now session.old session.new lines.old lines.new
        (asked_of_table table (blocks_of (shape_in store.now) table)) most_of_table }
{
    step(rt, store, session, Command::Compact { table }, lines);
    for block in 0..store.tables()[table as usize].blocks {
        tend_block(rt, store, session, table, block, lines);
    }
}

/// Seals a block and gathers it.
fn tend_block<R: Wait + Threads + Sync>(
    rt: &R,
    store: &Store,
    session: &mut Session,
    table: u32,
    block: u32,
    lines: &mut Lines,
)
    requires session { IsFreeSession store.now session.old }
    requires room { HasRoomFor (most_of_block + most_upkeep) session.old }
    requires block { is_block_of (shape_in store.now).tables table block ≡ true }
    ensures { KeepsUp store.now session.old session.new lines.old lines.new
        (asked_of_block table block) most_of_block }
{
    step(rt, store, session, Command::Seal { table, block }, lines);
    step(rt, store, session, Command::Gather { table, block }, lines);
}

/// Carries out a command of upkeep, and puts its line behind the others.
fn step<R: Wait + Threads + Sync>(
    rt: &R,
    store: &Store,
    session: &mut Session,
    command: Command,
    lines: &mut Lines,
)
    requires session { IsFreeSession store.now session.old }
    requires room { HasRoomFor most_upkeep session.old }
    requires command { is_command (shape_in store.now).tables command ≡ true }
    requires upkeep { is_upkeep command ≡ true }
    ensures { KeepsUp store.now session.old session.new lines.old lines.new
        (command ∷ []) (most_made command) }
{
    let said = keep_up(rt, store, session, command);
    lines.tell(said);
}
