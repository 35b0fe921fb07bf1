//! How a column's values lie in its buffers.
ghost use Rattle.std.specs.Prelude.{◌≡◌};
ghost use Rattle.ipc_read.specs.Layouts.{values_in};

use cell_model::{NumberWidth, OffsetWidth, Values};

/// What a column's values are, in plain numbers: what stands in a list beside references has no
/// width that checks itself.
#[derive(Clone, Copy)]
pub enum Layout {
    Signed(NumberWidth),
    Unsigned(NumberWidth),
    Truths,
    Texts(OffsetWidth),
    Blobs(OffsetWidth),
    /// So many bytes each.
    Strips(u32),
}

/// How these values lie in their buffers.
pub fn layout_of(values: &Values) -> Layout
    ensures { values_in result ≡ values.now }
{
    match values {
        Values::Signed(width) => Layout::Signed(*width),
        Values::Unsigned(width) => Layout::Unsigned(*width),
        Values::Truths => Layout::Truths,
        Values::Texts(width) => Layout::Texts(*width),
        Values::Blobs(width) => Layout::Blobs(*width),
        Values::Strips(width) => Layout::Strips(width.bytes()),
    }
}
