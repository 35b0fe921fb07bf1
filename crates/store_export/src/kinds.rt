//! The kinds of columns, by which their buffers are laid out.
ghost use Rattle.std.specs.Prelude.{◌≡◌, ◌↔◌, IsTrue};
ghost use Rattle.core_parts.specs.Kinds.{kinds_of};

use cell_model::Column;
use ipc_write::LentImage;

/// Whether there are as many of the one columns as of the others, each of the kind of that in its
/// place.
pub(crate) fn are_of_same_kinds(one: &LentImage<'_>, other: &[Column]) -> bool
    ensures { IsTrue result ↔ kinds_of one.now.columns ≡ kinds_of other.now }
{
    if one.width() != other.len() {
        return false;
    }
    for at in 0..other.len() {
        if one.kind(at) != other[at].kind {
            return false;
        }
    }
    true
}
