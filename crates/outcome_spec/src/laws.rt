//! Laws of the definitions.
ghost use Rattle.outcome_spec.specs.Explained.{ExplainedWhereNoLineFails};

/// An output is explained exactly where it fails at no line.
pub fn an_output_is_explained_where_no_line_fails()
    ensures { ExplainedWhereNoLineFails }
{}
