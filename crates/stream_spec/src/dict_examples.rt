//! Worked examples of streams with dictionaries: each is a fact that the definitions compute.
ghost use Rattle.stream_spec.specs.DictSamples.{ChangedIndicesAreFound, DictionariesAreChecked};
ghost use Rattle.stream_spec.specs.DictSamples.{DictionariesGrow, FifthTextIsRead};
ghost use Rattle.stream_spec.specs.DictSamples.{FourTextsAreRead, OneDictionaryIsShared};
ghost use Rattle.stream_spec.specs.DictSamples.{OtherKindsAreRead, TextAndBytesAreRead};

/// The stream of four texts by their dictionary reads as these, and a fifth by a dictionary of its
/// own reads behind them; so do texts and bytes beside numbers.
pub fn texts_by_dictionaries_are_read()
    ensures four { FourTextsAreRead }
    ensures fifth { FifthTextIsRead }
    ensures bytes { TextAndBytesAreRead }
{}

/// A changed byte of a dictionary, of an index or of an encoding makes the fault that it should.
pub fn changed_indices_are_found()
    ensures { ChangedIndicesAreFound }
{}

/// A dictionary's values come in place of those before, or behind them.
pub fn dictionaries_grow()
    ensures { DictionariesGrow }
{}

/// Values of any kind may be encoded, by integers of any width.
pub fn other_kinds_are_read()
    ensures { OtherKindsAreRead }
{}

/// Two fields may have one dictionary, but only one kind of values.
pub fn one_dictionary_is_shared()
    ensures { OneDictionaryIsShared }
{}

/// An index is the place of a value that has come, and a dictionary some field's.
pub fn dictionaries_are_checked()
    ensures { DictionariesAreChecked }
{}
