//! A table's head.
ghost use Rattle.std.specs.Prelude.{◌≡◌, ◌+◌, ◌*◌, ◌<◌, ◌≤◌, ◌^◌, IfOk, IfSome, IfNone, length};
ghost use Rattle.std.specs.List.{insert};
ghost use Rattle.event_spec.specs.Effects.{taken_by};
ghost use Rattle.event_spec.specs.Judged.{next_place};
ghost use Rattle.event_spec.specs.Replay.{opening_head};
ghost use Rattle.core_parts.specs.Heads.{Rises, gained, with_block};

use block_layout::SlotId;
use std::alloc::{AllocError, Global};
use std::marker::Model;

/// The most blocks of a table.
pub const MOST_BLOCKS: u32 = 1 << 10;

/// A table's head. It has room for each block that a table may have, so that a block which becomes
/// empty takes no memory. Contracts see the record of `event_spec`.
#[derive(Drop)]
pub struct TableHead {
    block: u32,
    taken: u32,
    inserts: u64,
    /// Ascending.
    empty: Vec<u32>,
}

impl Model for TableHead {
    ghost use Rattle.std.specs.Prelude.{vec_capacity};
    ghost use Rattle.event_spec.specs.declared.part.Head.{Head};
    ghost use Rattle.core_parts.specs.Heads.{HasRoom};

    ghost Value = { Head };

    ghost view = { λ head. record {
      block = head.block;
      taken = head.taken;
      inserts = head.inserts;
      empty = head.empty.items;
    } };

    ghost invariant = { λ head. HasRoom head.empty.items (vec_capacity head.empty) };
}

impl TableHead {
    /// The head of a table before its first event, where so many rows fill its slots from the
    /// first: the block of the last one takes inserts, and those behind it are empty.
    pub fn new(alloc: Global, blocks: u32, slots: u32, rows: u32) -> Result<TableHead, AllocError>
        requires blocks { blocks ≤ 2 ^ 10 }
        requires slots { 1 ≤ slots }
        requires rows { rows ≤ blocks * slots }
        ensures { IfOk result (λ head. head ≡ opening_head blocks slots rows) }
    {
        let block = rows.saturating_sub(1) / slots;
        let mut empty = Vec::with_capacity(alloc, MOST_BLOCKS as usize)?;
        for behind in block + 1..blocks {
            empty.push(behind)?;
        }
        Ok(TableHead {
            block,
            taken: rows - block * slots,
            inserts: u64::from(rows),
            empty,
        })
    }

    /// The block that takes inserts.
    pub fn block(&self) -> u32
        ensures { result ≡ self.now.block }
    {
        self.block
    }

    /// How many slots the table's inserts took.
    pub fn inserts(&self) -> u64
        ensures { result ≡ self.now.inserts }
    {
        self.inserts
    }

    /// The slot that the next insert takes, if one is left.
    pub fn next_place(&self, slots: u32) -> Option<SlotId>
        requires { slots ≤ 2 ^ 20 }
        ensures { result ≡ next_place self.now slots }
    {
        if self.taken >= slots {
            let block = self.empty.first()?;
            return Some(SlotId::join(*block, 0));
        }
        Some(SlotId::join(self.block, self.taken))
    }

    /// Takes the next slot, if one is left: the least empty block becomes the head where its own
    /// block has none.
    pub fn take(&mut self, slots: u32)
        requires { self.old.inserts + 1 < 2 ^ 64 }
        ensures { self.new ≡ taken_by slots self.old }
    {
        if self.taken < slots {
            self.taken += 1;
            self.inserts += 1;
        } else if !self.empty.is_empty() {
            self.block = self.empty.remove(0);
            self.taken = 1;
            self.inserts += 1;
        }
    }

    /// Learns that a block is left without row and entry, so that all its slots are unused again.
    pub fn gain(&mut self, block: u32)
        requires { block < 2 ^ 10 }
        ensures { self.new ≡ gained block self.old }
    {
        if block == self.block {
            self.taken = 0;
            return;
        }
        let Some(at) = gap_for(self.empty.as_slice(), block) else {
            return;
        };
        if self.empty.insert(at, block).is_err() {
            unreachable!()
        }
    }
}

/// Where a block goes into ascending ones, if it is not there.
fn gap_for(blocks: &[u32], block: u32) -> Option<usize>
    requires { Rises 0 (2 ^ 10) blocks.now }
    ensures some { IfSome result (λ at. insert blocks.now at block ≡ with_block block blocks.now) }
    ensures within { IfSome result (λ at. at ≤ length blocks.now) }
    ensures none { IfNone result (with_block block blocks.now ≡ blocks.now) }
{
    match blocks.binary_search(&block) {
        Ok(_) => None,
        Err(at) => Some(at),
    }
}
