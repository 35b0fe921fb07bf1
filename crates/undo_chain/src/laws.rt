//! What the clauses on before-images come to for the rows that readers see, whatever a row is and
//! however an image is laid back on it.
ghost use Rattle.std.specs.Prelude.{◌≡◌, ◌≢◌, ℕ, ◌<◌, ◌≤◌, List, ◌∷◌, false, Some, not, map};
ghost use Rattle.std.specs.Prelude.{filter, IsTrue};
ghost use Rattle.undo_chain.specs.declared.undo.Undo.{Undo as UndoOf};
ghost use Rattle.undo_chain.specs.Entry.{is_own, is_stamped_by, is_in_view};
ghost use Rattle.undo_chain.specs.Visible.{visible_row};
ghost use Rattle.undo_chain.specs.Lawful.{IsLawful};
ghost use Rattle.undo_chain.specs.Stamped.{stamped};

/// A change whose before-image undoes it is seen by nobody who has its entry not in view; and the
/// other way round, laying the image of an entry back as the entry is taken off.
pub fn a_change_with_its_entry<Row, D>()
    ensures { (lay_back : Row → D → Row) (row changed : Row) (undo : UndoOf D)
        (entries : List (UndoOf D))
        (stamp session : ℕ) → lay_back changed undo.before ≡ row → is_in_view undo stamp session
        ≡ false →
        visible_row lay_back changed (undo ∷ entries) stamp session ≡
        visible_row lay_back row entries stamp session }
{}

/// An uncommitted write is in no other session's view, and an entry with a stamp in none below it.
pub fn entries_out_of_view<D>()
    ensures open { (undo : UndoOf D) (stamp session : ℕ) → IsTrue (is_own undo undo.session) →
        session ≢ undo.session → is_in_view undo stamp session ≡ false }
    ensures stamped { (undo : UndoOf D) (own stamp session : ℕ) → undo.stamp ≡ Some own
        → stamp < own →
        is_in_view undo stamp session ≡ false }
{}

/// A commit is seen by no other session below its stamp.
pub fn a_commit<Row, D>()
    ensures { (lay_back : Row → D → Row) (row : Row) (entries : List (UndoOf D))
        (session commit number stamp me : ℕ) →
        me ≢ session → stamp < commit →
        visible_row lay_back row (map (stamped session commit number) entries) stamp me ≡
        visible_row lay_back row entries stamp me }
{}

/// Pruning is seen by nobody at that stamp or later.
pub fn a_pruning<Row, D>()
    ensures { (lay_back : Row → D → Row) (row : Row) (entries : List (UndoOf D))
        (oldest stamp me : ℕ) →
        IsLawful entries → oldest ≤ stamp →
        visible_row lay_back row (filter (λ undo. not (is_stamped_by undo oldest)) entries) stamp me
        ≡
        visible_row lay_back row entries stamp me }
{}
