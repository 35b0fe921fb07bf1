//! Laws of inserts.
ghost use Rattle.isolation_laws.specs.Laws.{CommitsOneMore, DistinctWithOneMore, FindsTheRow};
ghost use Rattle.isolation_laws.specs.Laws.{FindsWhereThereIsOne, FrontIsDistinct, HoldsAsMany};
ghost use Rattle.isolation_laws.specs.Laws.{HoldsTheRows, KeysOfBoth, LeastIsAtMostEach};
ghost use Rattle.isolation_laws.specs.Laws.{LeastOfOneMore, LeavesOtherTables};
ghost use Rattle.isolation_laws.specs.Laws.{MissesWhereThereIsNone, StateAfterTheHistory};
ghost use Rattle.isolation_laws.specs.Laws.{WritesOneMore, WritesSomething, WritesTheLeastKey};

/// At each key is seen the row that has it, of those committed and of the transaction's own.
pub fn the_row_of_a_key_is_found()
    ensures { FindsTheRow }
{}

/// The contents of the table are the rows of all groups, each once.
pub fn the_contents_are_the_rows()
    ensures rows { HoldsTheRows }
    ensures count { HoldsAsMany }
{}

/// Inserts into one table leave the others empty.
pub fn other_tables_are_left()
    ensures { LeavesOtherTables }
{}

/// The least key that inserts wrote is the least of the rows' keys.
pub fn the_least_key_is_that_of_the_rows()
    ensures written { WritesTheLeastKey }
    ensures bound { LeastIsAtMostEach }
    ensures more { LeastOfOneMore }
{}

/// One more row is one more entry, and inserts of at least one row write something.
pub fn each_row_is_written()
    ensures more { WritesOneMore }
    ensures some { WritesSomething }
{}

/// One more commit is one more write set, and the state after the whole history is that after all
/// of them.
pub fn each_commit_is_a_write_set()
    ensures more { CommitsOneMore }
    ensures whole { StateAfterTheHistory }
{}

/// How distinct keys, and the rows that have them, go on from row to row.
pub fn keys_go_on_from_row_to_row()
    ensures distinct { DistinctWithOneMore }
    ensures front { FrontIsDistinct }
    ensures both { KeysOfBoth }
    ensures found { FindsWhereThereIsOne }
    ensures missed { MissesWhereThereIsNone }
{}
