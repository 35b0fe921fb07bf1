//! The replies that are read stand in order, and open transactions where none is open.
ghost use Rattle.order_laws.specs.Read.{ReadRepliesOpenOutside, ReadRepliesRise};

/// Replies that are read rise.
pub fn replies_that_are_read_rise()
    ensures { ReadRepliesRise }
{}

/// They open transactions only where their session is in none.
pub fn replies_that_are_read_open_outside()
    ensures { ReadRepliesOpenOutside }
{}
