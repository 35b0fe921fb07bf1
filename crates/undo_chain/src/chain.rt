//! The chain of a slot's undo entries: how it grows and is rolled back, stamped and pruned, what a
//! reader lays back, and what stands in the way of a write.
ghost use Rattle.std.specs.Prelude.{◌≡◌, ◌≢◌, ◌<◌, ◌≤◌, ◌++◌, [], ◌∷◌, not, false, OnOk, IsTrue};
ghost use Rattle.std.specs.Prelude.{OnSome, IfSome, IsSome, ◌↔◌, ℕ, IfNone, IsOk, is_some, length};
ghost use Rattle.std.specs.Prelude.{drop, take, map, filter, count_by, reverse, option_to_list};
ghost use Rattle.std.specs.Prelude.{max};
ghost use Rattle.std.specs.List.{list_any};
ghost use Rattle.undo_chain.specs.Entry.{is_own, is_stamped_by, is_in_view};
ghost use Rattle.undo_chain.specs.Visible.{images_laid_back};
ghost use Rattle.undo_chain.specs.Lawful.{IsLawful, NoneStampedAbove};
ghost use Rattle.undo_chain.specs.Conflict.{conflict_of, other_writer, numbers_above, largest};
ghost use Rattle.undo_chain.specs.Stamped.{stamped};

use crate::undo::Undo;
use std::alloc::{AllocError, Global};
use std::marker::Model;

/// What stands in the way of a write to a slot.
#[derive(Clone, Copy, PartialEq, Eq, Debug)]
pub enum Newer {
    /// No write of another session and no commit above the snapshot.
    Nothing,
    /// Another session's uncommitted write.
    Session(u32),
    /// A commit above the snapshot, the one with the largest number.
    Number(u64),
}

/// The entries of a slot's changes, each with its before-image. A contract sees them newest first.
#[derive(Drop)]
pub struct Chain<D> {
    /// The newest stands last, so that a change is pushed and rolled back without moving the
    /// others.
    oldest_first: Vec<Undo<D>>,
}

impl<D> Model for Chain<D> {
    ghost use Rattle.std.specs.Prelude.{reverse, vec_capacity};
    ghost use Rattle.undo_chain.specs.State.{ChainState};

    ghost Value = { ChainState D };

    ghost view = { λ chain. record {
      entries = reverse chain.oldest_first.items;
      room = vec_capacity chain.oldest_first;
    } };
}

impl<D> Chain<D> {
    /// A chain without entries, which takes no memory yet.
    pub fn new(alloc: Global) -> Chain<D>
        ensures entries { result.entries ≡ [] }
        ensures lawful { IsLawful result.entries }
    {
        Chain {
            oldest_first: Vec::new(alloc),
        }
    }

    /// The entries, oldest first.
    pub fn entries(&self) -> &[Undo<D>]
        ensures { reverse result.now ≡ self.now.entries }
    {
        self.oldest_first.as_slice()
    }

    /// Whether the chain with the entry on top would be lawful.
    pub fn accepts(&self, undo: &Undo<D>) -> bool
        requires { IsLawful self.now.entries }
        ensures { IsTrue result ↔ IsLawful (undo.now ∷ self.now.entries) }
    {
        if !undo.is_write_or_stamped() {
            return false;
        }
        match self.oldest_first.last() {
            Some(newest) => undo.may_stand_above(newest),
            None => true,
        }
    }

    /// Whether no entry has a stamp above `stamp`.
    pub fn is_stamped_up_to(&self, stamp: u64) -> bool
        ensures { IsTrue result ↔ NoneStampedAbove self.now.entries stamp }
    {
        for undo in &self.oldest_first {
            if !undo.is_stamped_up_to(stamp) {
                return false;
            }
        }
        true
    }

    /// Makes room for one more entry, in a chain without entries for one alone, since most chains
    /// come to no more. The entries stay, also where there is no memory for it.
    pub fn reserve(&mut self) -> Result<(), AllocError>
        ensures entries { self.new.entries ≡ self.old.entries }
        ensures ok { OnOk result (length self.new.entries < self.new.room) }
        ensures first { OnOk result (length self.old.entries ≡ 0 → self.new.room
            ≡ max self.old.room 1) }
        ensures succeeds { length self.old.entries < self.old.room → IsOk result }
    {
        if self.oldest_first.is_empty() {
            self.oldest_first.reserve_exact(1)
        } else {
            self.oldest_first.reserve(1)
        }
    }

    /// Adds the entry of a change that is made with it, for which room was reserved. A reader that
    /// has the entry not in view lays its before-image back and then what it laid back before.
    pub fn push(&mut self, undo: Undo<D>)
        requires room { length self.old.entries < self.old.room }
        requires lawful { IsLawful (undo ∷ self.old.entries) }
        ensures pushed { self.new.entries ≡ undo ∷ self.old.entries }
        ensures room { self.new.room ≡ self.old.room }
        ensures lawful { IsLawful self.new.entries }
        ensures views { (stamp session : ℕ) → is_in_view undo stamp session ≡ false →
            images_laid_back self.new.entries stamp session ≡
            undo.before ∷ images_laid_back self.old.entries stamp session }
    {
        self.oldest_first.push_reserved(undo);
    }

    /// How many entries a reader with the snapshot `stamp` in the session lays back.
    pub fn passed(&self, stamp: u64, session: u32) -> usize
        ensures count { result ≡ length (images_laid_back self.now.entries stamp session) }
        ensures images { images_laid_back self.now.entries stamp session ≡
            map (λ undo. undo.before) (take result self.now.entries) }
    {
        let mut passed = 0;
        let mut older = self.oldest_first.as_slice();
        while let Some((newest, rest)) = older.split_last()
            && !newest.is_in_view(stamp, session)
        {
            passed += 1;
            older = rest;
        }
        passed
    }

    /// What stands in the way of a write by the session with the snapshot `stamp`: another
    /// session's uncommitted write, else the commit above the snapshot with the largest number. A
    /// move is neither.
    pub fn newer(&self, stamp: u64, session: u32) -> Newer
        requires { IsLawful self.now.entries }
        ensures { result ≡ conflict_of self.now.entries stamp session }
    {
        if let Some(writer) = self.other_writer(session) {
            return Newer::Session(writer);
        }
        match self.above(stamp) {
            Some(number) => Newer::Number(number),
            None => Newer::Nothing,
        }
    }

    /// The largest number of a commit with a stamp above `stamp`. A move is no commit.
    pub fn above(&self, stamp: u64) -> Option<u64>
        requires { IsLawful self.now.entries }
        ensures { result ≡ largest (numbers_above self.now.entries stamp) }
    {
        let mut number = None;
        let mut older = self.stamped();
        // No entry below one that was stamped by then is above the stamp.
        while let Some((newest, rest)) = older.split_last()
            && !newest.is_stamped_by(stamp)
        {
            if newest.is_commit_above(stamp) {
                number = Some(number.unwrap_or(0).max(newest.number));
            }
            older = rest;
        }
        number
    }

    /// Another session that has an uncommitted write here, which then is the newest entry.
    fn other_writer(&self, session: u32) -> Option<u32>
        requires { IsLawful self.now.entries }
        ensures { result ≡ other_writer self.now.entries session }
    {
        let newest = self.oldest_first.last()?;
        if newest.is_open_write_of_another(session) {
            Some(newest.session)
        } else {
            None
        }
    }

    /// The entries that have a stamp, oldest first. Those without one, which are an open
    /// transaction's and may be many, stand above them and are not gone through.
    fn stamped(&self) -> &[Undo<D>]
        requires { IsLawful self.now.entries }
        ensures lawful { IsLawful (reverse result.now) }
        ensures numbers { (stamp : ℕ) → numbers_above (reverse result.now) stamp
            ≡ numbers_above self.now.entries stamp }
    {
        let entries = self.oldest_first.as_slice();
        let count = entries.partition_point(|undo| undo.stamp.is_some());
        let (stamped, _) = entries.split_at(count);
        stamped
    }

    /// Commits the session's entries: each gets the stamp and the commit's number. Another session
    /// sees the same as before below the stamp.
    pub fn stamp_all(&mut self, session: u32, stamp: u64, number: u64)
        requires lawful { IsLawful self.old.entries }
        requires newest { NoneStampedAbove self.old.entries stamp }
        ensures stamped { self.new.entries ≡ map (stamped session stamp number) self.old.entries }
        ensures room { self.new.room ≡ self.old.room }
        ensures lawful { IsLawful self.new.entries }
        ensures views { (s me : ℕ) → me ≢ session → s < stamp →
            images_laid_back self.new.entries s me ≡ images_laid_back self.old.entries s me }
    {
        let mut open = self.oldest_first.len();
        // The session's entries stand first, so the others need no look.
        while open > 0 && self.oldest_first[open - 1].is_own(session) {
            open -= 1;
            self.oldest_first[open].commit(stamp, number);
        }
    }

    /// Takes off the session's newest uncommitted entry and hands out its before-image, which is to
    /// be laid back on the row. None where the session has no such entry. Another session lays back
    /// the image that is handed out no more, and else the same as before.
    pub fn pop_own(&mut self, session: u32) -> Option<D>
        requires lawful { IsLawful self.old.entries }
        ensures own { is_some result ≡ list_any (λ undo. is_own undo session) self.old.entries }
        ensures before { IfSome result (λ before.
            map (λ undo. undo.before) self.old.entries ≡
            before ∷ map (λ undo. undo.before) self.new.entries) }
        ensures rest { OnSome result (self.new.entries ≡ drop 1 self.old.entries) }
        ensures none { IfNone result (self.new.entries ≡ self.old.entries) }
        ensures room { self.new.room ≡ self.old.room }
        ensures lawful { IsLawful self.new.entries }
        ensures views { IfSome result (λ before. (stamp me : ℕ) → me ≢ session →
            images_laid_back self.old.entries stamp me ≡
            before ∷ images_laid_back self.new.entries stamp me) }
    {
        if !self.oldest_first.last()?.is_own(session) {
            return None;
        }
        match self.oldest_first.pop() {
            Some(undo) => Some(undo.before),
            None => None,
        }
    }

    /// Takes off the newest entry, whosesoever it is: a move that is taken back has one without a
    /// session. A reader that has the entry not in view lays its before-image back no more.
    pub fn pop_newest(&mut self) -> Option<Undo<D>>
        requires lawful { IsLawful self.old.entries }
        ensures taken { self.old.entries ≡ option_to_list result ++ self.new.entries }
        ensures some { IsSome result ↔ (0 < length self.old.entries) }
        ensures room { self.new.room ≡ self.old.room }
        ensures lawful { IsLawful self.new.entries }
        ensures views { IfSome result
            (λ undo. (stamp session : ℕ) → is_in_view undo stamp session ≡ false →
            images_laid_back self.old.entries stamp session ≡
            undo.before ∷ images_laid_back self.new.entries stamp session) }
    {
        self.oldest_first.pop()
    }
}

impl<D: Drop> Chain<D> {
    /// Drops the entries with a stamp at most `oldest`, and tells how many these were. No reader
    /// whose snapshot has that stamp or a later one sees anything else than before.
    pub fn prune(&mut self, oldest: u64) -> u64
        requires lawful { IsLawful self.old.entries }
        ensures kept { self.new.entries
            ≡ filter (λ undo. not (is_stamped_by undo oldest)) self.old.entries }
        ensures count { result ≡ count_by (λ undo. is_stamped_by undo oldest) self.old.entries }
        ensures room { self.new.room ≡ self.old.room }
        ensures lawful { IsLawful self.new.entries }
        ensures views { (stamp session : ℕ) → oldest ≤ stamp →
            images_laid_back self.new.entries stamp session ≡
            images_laid_back self.old.entries stamp session }
    {
        let before = self.oldest_first.len();
        self.oldest_first.retain(|undo| !undo.is_stamped_by(oldest));
        (before - self.oldest_first.len()) as u64
    }
}
