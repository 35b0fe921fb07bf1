//! An undo entry: one change of a slot, who made it, its stamp, and its before-image.
ghost use Rattle.std.specs.Prelude.{◌≡◌, ◌↔◌, IsTrue, Some};
ghost use Rattle.undo_chain.specs.Entry.{is_move, is_own, is_stamped_by, is_in_view};
ghost use Rattle.undo_chain.specs.Entry.{is_open_write_of_another, is_commit_above};
ghost use Rattle.undo_chain.specs.Lawful.{IsWriteOrStamped, MayStandAbove, IsStampedUpTo};

/// What a change did to its slot.
#[derive(Clone, Copy, PartialEq, Eq, Debug)]
pub enum UndoKind {
    /// A row was put into a slot that had none.
    Put,
    /// Attributes of the row were changed.
    Change,
    /// The row was taken away.
    Gone,
    /// A move took the row away, to another slot.
    MoveOut,
    /// A move put a row here, from another slot.
    MoveIn,
}

impl UndoKind {
    /// Whether the change is one half of a move, which is no session's write.
    pub fn is_move(self) -> bool
        ensures { result ≡ is_move self }
    {
        match self {
            UndoKind::MoveOut | UndoKind::MoveIn => true,
            UndoKind::Put | UndoKind::Change | UndoKind::Gone => false,
        }
    }
}

/// One change of a slot, with what it takes to undo it.
#[derive(Drop)]
pub struct Undo<D> {
    /// The session that made the change.
    pub session: u32,
    /// The stamp of the commit or of the move; none while the session's transaction is open.
    pub stamp: Option<u64>,
    /// The number of the commit, once there is a stamp; a move has none, and 0 stands here.
    pub number: u64,
    pub kind: UndoKind,
    /// The before-image: laid back on the row after the change, it gives the row before it.
    pub before: D,
}

impl<D> Undo<D> {
    /// Whether the change is an uncommitted write of the session.
    pub fn is_own(&self, session: u32) -> bool
        ensures { result ≡ is_own self.now session }
    {
        self.stamp.is_none() && !self.kind.is_move() && self.session == session
    }

    /// Whether the change was committed, or made by a move, with a stamp at most `stamp`.
    pub fn is_stamped_by(&self, stamp: u64) -> bool
        ensures { result ≡ is_stamped_by self.now stamp }
    {
        match self.stamp {
            Some(own) => own <= stamp,
            None => false,
        }
    }

    /// Whether a reader with the snapshot `stamp` in the session sees the change: it is its own, or
    /// was stamped by then.
    pub fn is_in_view(&self, stamp: u64, session: u32) -> bool
        ensures { result ≡ is_in_view self.now stamp session }
    {
        self.is_own(session) || self.is_stamped_by(stamp)
    }

    /// Whether the change is an uncommitted write of another session.
    pub fn is_open_write_of_another(&self, session: u32) -> bool
        ensures { result ≡ is_open_write_of_another self.now session }
    {
        self.stamp.is_none() && !self.kind.is_move() && self.session != session
    }

    /// Whether the change is a write that was committed with a stamp above `stamp`.
    pub fn is_commit_above(&self, stamp: u64) -> bool
        ensures { result ≡ is_commit_above self.now stamp }
    {
        self.stamp.is_some() && !self.is_stamped_by(stamp) && !self.kind.is_move()
    }

    /// Whether the entry has no stamp, or one that is at most `stamp`.
    pub(crate) fn is_stamped_up_to(&self, stamp: u64) -> bool
        ensures { IsTrue result ↔ IsStampedUpTo stamp self.now }
    {
        match self.stamp {
            Some(own) => own <= stamp,
            None => true,
        }
    }

    /// Whether the entry has a stamp or is a write.
    pub(crate) fn is_write_or_stamped(&self) -> bool
        ensures { IsTrue result ↔ IsWriteOrStamped self.now }
    {
        self.stamp.is_some() || !self.kind.is_move()
    }

    /// Whether the entry may stand above an older one.
    pub(crate) fn may_stand_above(&self, older: &Undo<D>) -> bool
        ensures { IsTrue result ↔ MayStandAbove self.now older.now }
    {
        match (self.stamp, older.stamp) {
            (None, None) => self.session == older.session,
            (None, Some(_)) => true,
            (Some(_), None) => false,
            (Some(stamp), Some(below)) => below <= stamp,
        }
    }

    /// Gives the entry its commit's stamp and number.
    pub(crate) fn commit(&mut self, stamp: u64, number: u64)
        ensures { self.new ≡ record self.old { stamp = Some stamp; number = number } }
    {
        self.stamp = Some(stamp);
        self.number = number;
    }
}
