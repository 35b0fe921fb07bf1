//! The candidates of a shard's keys.
ghost use Rattle.std.specs.Prelude.{◌≡◌, ◌==◌, not, IfOk, OnOk, OnErr};
ghost use Rattle.std.specs.List.{list_any};
ghost use Rattle.event_spec.specs.Effects.{with_place};
ghost use Rattle.key_index.specs.Candidates.{candidates_of};
ghost use Rattle.core_parts.specs.Shards.{without_place};

use block_layout::SlotId;
use range_index::Ordered;
use std::alloc::AllocError;

/// Adds a place to a key's candidates where it is none yet, and tells whether it did. Without
/// memory nothing changes.
pub fn add_place(index: &mut Ordered, key: i64, place: SlotId) -> Result<bool, AllocError>
    ensures ok { OnOk result (index.new ≡ with_place key place index.old) }
    ensures added { IfOk result (λ added. added ≡
        not (list_any (λ other. other == place) (candidates_of index.old key))) }
    ensures err { OnErr result (index.new ≡ index.old) }
{
    if index.candidates(key).contains(&place) {
        return Ok(false);
    }
    index.add(key, place)?;
    Ok(true)
}

/// Drops a place from a key's candidates, wherever it stands among them.
pub fn drop_place(index: &mut Ordered, key: i64, place: SlotId)
    ensures { index.new ≡ without_place key place index.old }
{
    index.drop_one(key, place);
    while index.candidates(key).contains(&place) {
        index.drop_one(key, place);
    }
}
