//! Laws of workload texts: an extent takes of the format what runs within it, the first version has
//! its kinds alone, and reading line by line and printing describe the same texts.
#![tactic(auto)]

ghost use Rattle.workload_laws.specs.Laws.{ReadWithinIsRead, FirstVersionHasItsKinds};
ghost use Rattle.workload_laws.specs.Laws.{ReadIsText, TextIsRead};

/// Lines are read within an extent exactly where the whole format reads them and the workload runs
/// within the extent.
pub fn an_extent_takes_what_runs_within_it()
    ensures { ReadWithinIsRead }
{}

/// The first version has its eleven kinds, by their names, and no others.
pub fn the_first_version_has_its_kinds()
    ensures { FirstVersionHasItsKinds }
{}

/// What is read is the text of what it is read as, which is a workload as it is written.
pub fn what_is_read_is_its_text()
    ensures { ReadIsText }
{}

/// The text of a workload as it is written is read as that workload.
pub fn a_text_is_read_as_its_script()
    ensures { TextIsRead }
{}
