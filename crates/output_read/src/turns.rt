//! Which steps of a worker's turn may be next.
ghost use Rattle.std.specs.Prelude.{◌≡◌, ◌+◌, ◌^◌, ◌<◌, true, length};
ghost use Rattle.output_read.specs.Turns.{after_memory, may_gather, may_seal, next_steps};
ghost use Rattle.output_read.specs.Turns.{next_table, one_more};
ghost use Rattle.outcome_spec.specs.Tables.{blocks_at};

use cell_model::TableDecl;
use workload_spec::Said;

/// The steps that may be next in a turn, behind the compaction of the first table: those of a table
/// from the seal of a block on, or from its gather where it was sealed; and those of further tables
/// from their first block on, up to the compaction of the table `until`, or to the turn's end where
/// there is none.
#[derive(Clone, Copy)]
pub struct NextSteps {
    pub table: u32,
    pub block: u32,
    pub sealed: bool,
    pub until: u32,
}

/// Which steps may be next behind one that says this; none where no step that may be next says it.
pub fn next_steps(tables: &[TableDecl], steps: NextSteps, said: &Said) -> Option<NextSteps>
    requires few { length tables.now < 2 ^ 32 }
    requires table { steps.table < length tables.now }
    ensures { result ≡ next_steps tables.now steps said.now }
{
    match said {
        Said::Moved(_) => next_table(tables, steps),
        Said::Memory => after_memory(tables, steps),
        Said::Sealed { table, block, .. } if may_seal(tables, steps, *table, *block) => {
            Some(NextSteps {
                table: *table,
                block: *block,
                sealed: true,
                until: *table + 1,
            })
        }
        Said::Frozen { table, block, .. } if may_gather(tables, steps, *table, *block) => {
            Some(NextSteps {
                table: *table,
                block: *block + 1,
                sealed: false,
                until: *table + 1,
            })
        }
        _ => None,
    }
}

/// One table further, where there is one.
fn one_more(tables: &[TableDecl], until: u32) -> u32
    requires few { length tables.now < 2 ^ 32 }
    ensures { result ≡ one_more tables.now until }
{
    if (until as usize) < tables.len() {
        until + 1
    } else {
        until
    }
}

/// Behind the next table's compaction.
fn next_table(tables: &[TableDecl], steps: NextSteps) -> Option<NextSteps>
    requires few { length tables.now < 2 ^ 32 }
    requires table { steps.table < length tables.now }
    ensures { result ≡ next_table tables.now steps }
{
    let table = steps.table + 1;
    if (table as usize) < tables.len() {
        Some(NextSteps {
            table,
            block: 0,
            sealed: false,
            until: one_more(tables, steps.until),
        })
    } else {
        None
    }
}

/// Behind the first gathering that may be next, or else the next table's compaction.
fn after_memory(tables: &[TableDecl], steps: NextSteps) -> Option<NextSteps>
    requires few { length tables.now < 2 ^ 32 }
    requires table { steps.table < length tables.now }
    ensures { result ≡ after_memory tables.now steps }
{
    if steps.block < blocks_at(tables, steps.table) {
        Some(NextSteps {
            block: steps.block + 1,
            sealed: false,
            until: one_more(tables, steps.until),
            ..steps
        })
    } else {
        next_table(tables, steps)
    }
}

/// How many blocks the table has.
pub fn blocks_at(tables: &[TableDecl], table: u32) -> u32
    ensures { result ≡ blocks_at tables.now table }
{
    match tables.get(table as usize) {
        Some(decl) => decl.blocks,
        None => 0,
    }
}

/// Whether the seal of the block may be next.
fn may_seal(tables: &[TableDecl], steps: NextSteps, table: u32, block: u32) -> bool
    ensures { result ≡ may_seal tables.now steps table block }
{
    let behind = steps.block < block || block == steps.block && !steps.sealed;
    block < blocks_at(tables, table)
        && (table == steps.table && behind || steps.table < table && table < steps.until)
}

/// Whether the gathering of the block may be next.
fn may_gather(tables: &[TableDecl], steps: NextSteps, table: u32, block: u32) -> bool
    ensures value { result ≡ may_gather tables.now steps table block }
    ensures room { result ≡ true → block + 1 < 2 ^ 32 }
{
    block < blocks_at(tables, table)
        && (table == steps.table && block >= steps.block
            || steps.table < table && table < steps.until)
}
