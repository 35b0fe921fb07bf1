//! Worked examples of texts and faults: each is a fact that the definitions compute.
ghost use Rattle.workload_spec.specs.CheckedExamples.{AskedIsRead, AskedIsPrinted, AskedIsRefused};
ghost use Rattle.workload_spec.specs.CheckedExamples.{TakenByVersion, EachIsSwitched};
ghost use Rattle.workload_spec.specs.CheckedExamples.{CommandsAreJudged, AnswersArePrinted};
ghost use Rattle.workload_spec.specs.Examples.{HardTextIsSpelled, HardSpellingIsRead};
ghost use Rattle.workload_spec.specs.Examples.{NumbersAreRead, LeastKeyIsSpelled, NoNumbers};
ghost use Rattle.workload_spec.specs.Examples.{NoTexts, NoNull, BlobsAreRead, TruthsAreRead};
ghost use Rattle.workload_spec.specs.Examples.{WordsAreParted, ScriptIsPrinted, ScriptIsRead};
ghost use Rattle.workload_spec.specs.Examples.{CommandsAreRead, CommandsArePrinted};
ghost use Rattle.workload_spec.specs.Examples.{ScriptsAreJudged, ExtentsAreJudged, ExtentsAreRead};
ghost use Rattle.workload_spec.specs.Examples.{FirstFaultStands, BoundsAreJudged, HeadsAreRefused};
ghost use Rattle.workload_spec.specs.Examples.{TablesAreRefused, LinesAreRefused, LastLineIsOpen};
ghost use Rattle.workload_spec.specs.Examples.{PartingIsFound, RefusalIsPrinted, RepliesArePrinted};
ghost use Rattle.workload_spec.specs.Examples.{LinesArePrinted, FirstVersionIsTaken};
ghost use Rattle.workload_spec.specs.Examples.{FirstKindsAreRead, LaterKindsAreRead, NoLaterKinds};
ghost use Rattle.workload_spec.specs.Examples.{LaterKindsAreLater, DatesAreRead};
ghost use Rattle.workload_spec.specs.Examples.{FixedValuesAreRead, LaterScriptIsPrinted};
ghost use Rattle.workload_spec.specs.Examples.{LaterScriptIsRead, VersionsAreJudged};

/// A text with a quote, a backslash, control bytes and a longer character is escaped.
pub fn a_text_is_escaped()
    ensures { HardTextIsSpelled }
{}

/// The escaped text is read back.
pub fn an_escaped_text_is_read_back()
    ensures { HardSpellingIsRead }
{}

/// The least and the greatest key are read; the next one is none.
pub fn the_least_and_the_greatest_key_are_read()
    ensures { NumbersAreRead }
{}

/// The least key is spelled with its sign.
pub fn the_least_key_is_spelled()
    ensures { LeastKeyIsSpelled }
{}

/// A leading zero, a sign without need or a stray byte make no number.
pub fn other_spellings_are_no_numbers()
    ensures { NoNumbers }
{}

/// Another spelling of a text, and a text without its end, are none.
pub fn other_spellings_are_no_texts()
    ensures { NoTexts }
{}

/// A null is none of a column that is not nullable.
pub fn a_key_is_not_null()
    ensures { NoNull }
{}

/// Bytes are pairs of lower-case hexadecimal digits.
pub fn bytes_are_pairs_of_digits()
    ensures { BlobsAreRead }
{}

/// Truth values are `true` and `false`.
pub fn truth_values_are_two_words()
    ensures { TruthsAreRead }
{}

/// Spaces outside texts part words, each one.
pub fn spaces_outside_texts_part_words()
    ensures { WordsAreParted }
{}

/// A workload is printed line by line.
pub fn a_workload_is_printed()
    ensures { ScriptIsPrinted }
{}

/// A workload is read back from its text.
pub fn a_workload_is_read_back()
    ensures { ScriptIsRead }
{}

/// Each command is read.
pub fn each_command_is_read()
    ensures { CommandsAreRead }
{}

/// Each command is printed.
pub fn each_command_is_printed()
    ensures { CommandsArePrinted }
{}

/// That workload is one, and with one field out of its limits it is none.
pub fn a_workload_is_valid_or_not()
    ensures { ScriptsAreJudged }
{}

/// A workload runs within the whole format, and within no extent with a bound below what it has.
pub fn a_workload_runs_within_an_extent_or_not()
    ensures { ExtentsAreJudged }
{}

/// What passes an extent is refused where it stands.
pub fn what_passes_an_extent_is_refused_where_it_stands()
    ensures { ExtentsAreRead }
{}

/// Of a command that is not taken and a later line that is none, the first is the fault.
pub fn the_first_fault_stands_within_an_extent()
    ensures { FirstFaultStands }
{}

/// The first version takes these bounds, all commands, and no later kinds.
pub fn the_first_version_has_its_bounds()
    ensures { FirstVersionIsTaken }
{}

/// The kinds of the first version are read by their names, one with its mark for nulls.
pub fn the_first_kinds_are_read_by_their_names()
    ensures { FirstKindsAreRead }
{}

/// The kinds of the second version are read by their names.
pub fn the_later_kinds_are_read_by_their_names()
    ensures { LaterKindsAreRead }
{}

/// A width of no bytes, of too many or with a leading zero names no kind.
pub fn other_spellings_are_no_kinds()
    ensures { NoLaterKinds }
{}

/// The first version has none of the later kinds.
pub fn the_first_version_has_no_later_kinds()
    ensures { LaterKindsAreLater }
{}

/// A date is a number of 32 bits.
pub fn dates_are_numbers()
    ensures { DatesAreRead }
{}

/// A fixed value has just its bytes.
pub fn a_fixed_value_has_just_its_bytes()
    ensures { FixedValuesAreRead }
{}

/// A workload of the second version is printed.
pub fn a_workload_of_the_second_version_is_printed()
    ensures { LaterScriptIsPrinted }
{}

/// It is read back from its text.
pub fn a_workload_of_the_second_version_is_read_back()
    ensures { LaterScriptIsRead }
{}

/// It is none of the first version, and none with a width that there is not.
pub fn a_workload_is_of_its_version()
    ensures { VersionsAreJudged }
{}

/// The whole format and one of a column are extents; one without a column, or with more than the
/// whole, is none.
pub fn bounds_of_an_extent_are_judged()
    ensures { BoundsAreJudged }
{}

/// Heads are refused at their first fault.
pub fn heads_are_refused_by_their_first_fault()
    ensures { HeadsAreRefused }
{}

/// Table lines are refused by their first fault.
pub fn table_lines_are_refused_by_their_first_fault()
    ensures { TablesAreRefused }
{}

/// Lines of rounds are refused by their first fault.
pub fn lines_of_rounds_are_refused_by_their_first_fault()
    ensures { LinesAreRefused }
{}

/// A last line without its end is refused, whatever stands on it.
pub fn a_last_line_without_its_end_is_refused()
    ensures { LastLineIsOpen }
{}

/// A workload and its output are parted by a line of their own.
pub fn a_workload_and_its_output_are_parted()
    ensures { PartingIsFound }
{}

/// A refusal is printed with its line and cause.
pub fn a_refusal_is_printed()
    ensures { RefusalIsPrinted }
{}

/// Each reply is printed.
pub fn each_reply_is_printed()
    ensures { RepliesArePrinted }
{}

/// Replies are printed behind their round, session or worker, and index.
pub fn replies_are_printed_line_by_line()
    ensures { LinesArePrinted }
{}

/// A checked begin, a range and a total are read within the whole format.
pub fn checked_begins_ranges_and_totals_are_read()
    ensures { AskedIsRead }
{}

/// They are printed as they are read.
pub fn checked_begins_ranges_and_totals_are_printed()
    ensures { AskedIsPrinted }
{}

/// Their lines are refused by their first fault.
pub fn checked_begins_ranges_and_totals_are_refused_by_their_first_fault()
    ensures { AskedIsRefused }
{}

/// The second version takes checked begins, ranges and totals, and the first none of them.
pub fn checked_begins_ranges_and_totals_are_of_the_second_version()
    ensures { TakenByVersion }
{}

/// An extent takes each of them or not.
pub fn each_of_them_is_taken_or_not()
    ensures { EachIsSwitched }
{}

/// A range and a total are of a table, of a column with numbers and within its kind.
pub fn ranges_and_totals_are_of_a_table()
    ensures { CommandsAreJudged }
{}

/// A stale commit and a total are printed.
pub fn stale_commits_and_totals_are_printed()
    ensures { AnswersArePrinted }
{}
