//! The image that a read of an imaged block replies.
ghost use Rattle.std.specs.Prelude.{◌≡◌};
ghost use Rattle.block_columns.specs.Images.{IsWhole, rows_of};

use block_body::Shared;
use block_columns::Image;
use std::marker::Model;

/// A whole image of a block's rows, owned together with the block. Contracts see the rows.
#[derive(Drop)]
pub struct SharedRows {
    shared: Shared,
}

impl Model for SharedRows {
    ghost use Rattle.std.specs.Prelude.{List};
    ghost use Rattle.block_columns.specs.Images.{IsWhole, rows_of};
    ghost use Rattle.block_spec.specs.Slots.{Row};

    ghost Value = { List Row };

    ghost view = { λ rows. rows_of rows.shared };

    ghost invariant = { λ rows. IsWhole rows.shared };
}

impl SharedRows {
    /// One owner of a whole image.
    pub fn new(shared: Shared) -> SharedRows
        requires { IsWhole shared }
        ensures { result ≡ rows_of shared }
    {
        SharedRows { shared }
    }

    /// The image, lent.
    pub fn image(&self) -> &Image
        ensures rows { rows_of result.now ≡ self.now }
        ensures whole { IsWhole result.now }
    {
        self.shared.image()
    }
}
