//! The law of a run: replies that came about in some order, each as snapshot isolation and the
//! counts of blocks allow, are an explained output, in whatever order they are printed.
ghost use Rattle.timeline_laws.specs.Laws.{InTurnIsExplained, PrintedAreInOrder, PrintedInTurn};
ghost use Rattle.timeline_laws.specs.Laws.{RunIsExplained, TimelineIsExplained, TimelineIsRead};
ghost use Rattle.timeline_laws.specs.Laws.{TimelineIsSound};

/// The replies of a timeline meet each condition of an explained output but the forms, in whatever
/// order they came about.
pub fn a_timeline_is_sound()
    ensures { TimelineIsSound }
{}

/// A text that is read as the replies of a timeline is an explained output.
pub fn a_timeline_is_explained()
    ensures { TimelineIsExplained }
{}

/// Printed replies stand in an order in which they may have come about.
pub fn printed_replies_are_in_order()
    ensures { PrintedAreInOrder }
{}

/// Replies that came about one after the other as they are printed are a timeline.
pub fn printed_in_turn_is_a_timeline()
    ensures { PrintedInTurn }
{}

/// The printed text of a timeline is read back as its replies: of sessions and workers, for all
/// kinds of cells.
pub fn a_timeline_is_read()
    ensures { TimelineIsRead }
{}

/// The printed text of a timeline of a workload is an explained output, in whatever order the
/// replies came about.
pub fn a_run_is_explained()
    ensures { RunIsExplained }
{}

/// So is the text of replies that came about one after the other as they are printed.
pub fn printed_in_turn_is_explained()
    ensures { InTurnIsExplained }
{}
