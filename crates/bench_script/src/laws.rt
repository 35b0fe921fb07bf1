//! That what is generated is a workload, whose text is read as it and is short.
ghost use Rattle.bench_script.specs.Laws.{GeneratesWorkloads, TextsAreRead, TextsAreShort};

/// What is generated is a workload.
pub fn what_is_generated_is_a_workload()
    ensures { GeneratesWorkloads }
{}

/// Its text is read as it.
pub fn the_text_is_read()
    ensures { TextsAreRead }
{}

/// Its text is short.
pub fn the_text_is_short()
    ensures { TextsAreShort }
{}
