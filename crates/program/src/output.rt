//! The output of a run that is kept, to be read again.
ghost use Rattle.std.specs.Prelude.{◌≡◌, [], Some};

use byte_ports::{Failed, Sink};
use std::alloc::{AllocError, Global};

/// A sink that keeps its bytes. A call of it fails only where there is no memory for them.
#[derive(Drop)]
pub(crate) struct KeptOutput {
    bytes: Vec<u8>,
    faults: u64,
}

impl KeptOutput {
    /// Nothing yet.
    pub(crate) fn new(alloc: Global) -> KeptOutput
        ensures { result.bytes.items ≡ [] }
    {
        KeptOutput {
            bytes: Vec::new(alloc),
            faults: 0,
        }
    }

    /// What was written.
    pub(crate) fn as_slice(&self) -> &[u8]
        ensures { result.now ≡ self.now.bytes.items }
    {
        self.bytes.as_slice()
    }
}

impl Sink for KeptOutput {
    ghost written = { λ s. Some s.bytes.items };

    ghost flushed = { λ s. Some s.bytes.items };

    ghost faults = { λ s. s.faults };

    /// Keeps the whole piece.
    fn write(&mut self, piece: &[u8]) -> Result<usize, Failed> {
        match self.bytes.extend_from_slice(piece) {
            Ok(()) => Ok(piece.len()),
            Err(AllocError) => {
                self.faults = self.faults.saturating_add(1);
                Err(Failed)
            }
        }
    }

    /// Nothing is held back.
    fn flush(&mut self) -> Result<(), Failed> {
        Ok(())
    }
}
