//! A frozen block's image with several owners.
ghost use Rattle.std.specs.Prelude.{◌≡◌, IfOk, IfErr};

use block_columns::{Columns, Image};
use std::alloc::{AllocError, AllocFailed, Global};
use std::marker::Model;
use std::sync::Arc;

/// An image that a body and its readers own together. Contracts see the image.
#[derive(Drop)]
pub struct Shared {
    image: Arc<Image>,
}

impl Model for Shared {
    ghost use Rattle.std.specs.Arc.{arc_value};
    ghost use Rattle.block_columns.specs.Images.{ImageValue};

    ghost Value = { ImageValue };

    ghost view = { λ s. arc_value s.image };
}

impl Shared {
    /// The image with its first owner. Without memory the image comes back.
    pub fn new(alloc: Global, image: Image) -> Result<Shared, AllocFailed<Image>>
        ensures shared { IfOk result (λ s. s ≡ image) }
        ensures back { IfErr result (λ refused. refused.value ≡ image) }
    {
        Ok(Shared {
            image: Arc::new(alloc, image)?,
        })
    }

    /// One owner more.
    pub fn share(&self) -> Result<Shared, AllocError>
        ensures { IfOk result (λ s. s ≡ self.now) }
    {
        Ok(Shared {
            image: Arc::try_clone(&self.image)?,
        })
    }

    /// The image, lent.
    pub fn image(&self) -> &Image
        ensures { result.now ≡ self.now }
    {
        &self.image
    }

    /// The image's columns: those themselves from the last owner, and a copy of them where there
    /// are others, who keep theirs. Without memory for the copy this owner comes back.
    pub fn into_columns(self) -> Result<Columns, Shared>
        ensures columns { IfOk result (λ c. c.columns ≡ self.columns) }
        ensures rows { IfOk result (λ c. c.rows ≡ self.slots) }
        ensures back { IfErr result (λ s. s ≡ self) }
    {
        let Shared { image } = self;
        match Arc::try_unwrap(image) {
            Ok(image) => Ok(image.into_columns()),
            Err(image) => match image.columns().copy() {
                Ok(columns) => Ok(columns),
                Err(_) => Err(Shared { image }),
            },
        }
    }
}
