//! The words of workloads and replies: numbers, cells and the names of tables, as bytes.
#![tactic(auto)]

mod words;

pub use words::{
    is_spelling, put_cells, put_column_name, put_key, put_kind, put_natural, put_number,
    put_quoted, put_signed, put_table_name, put_word,
};
