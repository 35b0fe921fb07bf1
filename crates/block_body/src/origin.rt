//! Whose a change of a slot is.

use undo_chain::UndoKind;

/// What an entry says of who made its change: a session, whose write has no stamp yet, or a move,
/// which is no session's and has one from the start.
#[derive(Clone, Copy)]
pub(crate) struct Origin {
    pub(crate) session: u32,
    pub(crate) stamp: Option<u64>,
    pub(crate) kind: UndoKind,
}
