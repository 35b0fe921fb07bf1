//! The events of the marks.

/// An event.
#[derive(Clone, Copy)]
pub enum Deed {
    /// A session begins its transaction, where none is open.
    Begin { session: u64 },
    /// A session ends its open transaction.
    End { session: u64 },
    /// A mark is raised, by the session with the open transaction or by none, which is 0. The reply
    /// is the mark before.
    Raise { session: u64, part: u32, by: u64 },
}

/// A lasting fact: a mark is at least so high.
#[derive(Clone, Copy)]
pub struct Least {
    pub part: u32,
    pub least: u64,
}
