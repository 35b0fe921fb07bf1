//! Laws of frozen blocks: each function does nothing, and its contract is one of them.
ghost use Rattle.core_laws.specs.Frozen.Laws.{FrozenIsSettled, FrozenStays, SealsAreNew, StampsRise};
ghost use Rattle.core_laws.specs.Frozen.Moments.{ImagedRowsStay, SealsRise, StampsStandTogether};

/// A sealed or imaged block is quiet, dense and not the head, and stays so until its thaw.
pub fn frozen_blocks_are_settled()
    ensures settled { FrozenIsSettled }
    ensures stays { FrozenStays }
{}

/// Each stamp of a block comes once.
pub fn each_stamp_comes_once()
    ensures rises { StampsRise }
    ensures seals { SealsAreNew }
{}

/// The moments at which a block is frozen with one stamp follow one another, with the same slots at
/// each; and a later seal has a greater stamp, so that each comes once.
pub fn moments_of_a_stamp_follow_one_another()
    ensures together { StampsStandTogether }
    ensures once { SealsRise }
{}

/// The image of a block is the same at all moments at which the block is imaged with one stamp, and
/// its rows are what every open transaction sees in the block.
pub fn an_image_stays()
    ensures { ImagedRowsStay }
{}
