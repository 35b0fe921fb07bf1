//! Worked examples of replies over tables: each is a fact that the definitions compute.
ghost use Rattle.reply_text.specs.Examples.{TablesAreJudged, NumbersAreJudged, ReceiversAreJudged};
ghost use Rattle.reply_text.specs.Examples.{RowsAreJudged, BlocksAreJudged};

/// No tables and one table are tables; two of one name are not.
pub fn tables_have_names_of_their_own()
    ensures { TablesAreJudged }
{}

/// The greatest number of each width is one of a reply; the next is not.
pub fn numbers_keep_to_their_widths()
    ensures { NumbersAreJudged }
{}

/// A session and a worker have a number of 32 bits.
pub fn receivers_keep_to_their_width()
    ensures { ReceiversAreJudged }
{}

/// A row has a key, numbers nearer to 0 than 2^64, and bytes that are bytes.
pub fn a_row_has_a_key_and_cells()
    ensures { RowsAreJudged }
{}

/// A block is one of a table that there is.
pub fn a_block_is_of_a_table()
    ensures { BlocksAreJudged }
{}
