//! What a step tells, picked by each call: a `Play` can name neither the event nor the number of
//! the pass.
ghost use Rattle.std.specs.Prelude.{◌≡◌, ℕ, [], ◌∷◌, ◌+◌, ◌-◌, ◌<◌, ◌%◌, ◌^◌, ◌==◌, bit_and};
ghost use mathlib.Core.Option.{none};
ghost use prog.Atomic.{either};
ghost use Rattle.atomic_table.specs.Table.{Allows, Joins, Me, Step, step};
ghost use Rattle.hall_rule.specs.HallInvariant.{block_word, latch_word};
ghost use Rattle.hall_rule.specs.Rule.{Rule};
ghost use Rattle.hall_rule.specs.Meaning.{planned};
ghost use Rattle.hall_rule.specs.Slots.{slot_of};
ghost use Rattle.hall_rule.specs.Views.{dealt, greatest, newcomer, spent_view};

use atomic_table::{Join, Play, Seat, Shared, Split};
use block_word::CLEAR;
use hall_rule::{HallRule, Parts, Plan, View};
use std::marker::{Brand, PhantomData};
use std::snapshot::Snapshot;

/// The words and slots of a hall.
pub(crate) type Board<C> = Shared<
    Option<<C as Parts>::Part>,
    View<<C as Parts>::Event>,
    Plan<C>,
    HallRule<C>,
>;

/// A pass's seat at them.
pub(crate) type Place<C> = Seat<Option<<C as Parts>::Part>, View<<C as Parts>::Event>>;

/// How many words lie from one latch to the next, and from the event word to the first: 128 bytes,
/// two lines of the processors' caches, which some fetch together, so that who takes a latch does
/// not wait for who took its neighbour.
const WORDS_APART: usize = 16;

/// The word of a part's latch.
pub(crate) fn latch_word(part: u32) -> usize
    ensures { result ≡ latch_word part }
{
    WORDS_APART * part as usize + WORDS_APART
}

/// The word of a block. It lies in its latch's line.
pub(crate) fn block_word(part: u32) -> usize
    ensures { result ≡ block_word part }
{
    latch_word(part) + 1
}

/// How many slots lie from that of one part to that of the next. Where a part is a tag and a
/// pointer, a slot is 24 bytes and 72 lie between two: a line of the processors' caches, which has
/// 64, never has some of both.
pub(crate) const SLOTS_APART: usize = 4;

/// The slot of a part.
pub(crate) fn slot_of(part: u32) -> usize
    ensures { result ≡ slot_of part }
{
    SLOTS_APART * part as usize
}

/// What a step tells. A call picks it.
pub trait Telling<S, V> {
    ghost tells: { Step S → Me S V → ℕ → Me S V → Type 0 };
}

impl<S, V> Telling<S, V> for Brand {
    ghost tells = { λ _ _ _ _. Unit {0} };
}

struct Told<D> {
    by: PhantomData<D>,
}

impl<S, V, D: Telling<S, V>> Play<S, V> for Told<D> {
    ghost then = { D.tells };
}

/// The hand of the greatest session goes to a new pass.
pub(crate) struct Deal;

impl<E> Split<View<E>> for Deal {
    ghost left = { dealt };

    ghost right = { λ view. newcomer view (greatest view.sessions ∷ []) };
}

/// A new pass gets no hand.
pub(crate) struct Note;

impl<E> Split<View<E>> for Note {
    ghost left = { λ view. view };

    ghost right = { λ view. newcomer view [] };
}

/// How two views become one. A call picks it.
pub trait Joining<V> {
    ghost both: { V → V → V };

    ghost spent: { V };
}

impl<E> Joining<View<E>> for Brand {
    ghost both = { λ v _. v };

    ghost spent = { spent_view };
}

struct Joined<D> {
    by: PhantomData<D>,
}

impl<V, D: Joining<V>> Join<V> for Joined<D> {
    ghost both = { D.both };

    ghost spent = { D.spent };
}

/// Loads a word. The part is what the step is about.
pub(crate) fn load_as<C: Parts, D: Telling<Option<C::Part>, View<C::Event>>>(
    board: &Board<C>,
    seat: &mut Place<C>,
    word: usize,
    part: u32,
)
    requires table { seat.old.table_id ≡ board.now.table_id }
    requires words { word < board.now.table_id.words }
    requires keeps { Allows (Rule (planned C.Parts board.now.key)) board.now.table_id.slots
        seat.old.id seat.old.me word (λ n. n)
        (D.tells (step board.now.table_id.slots word 0 0 none) seat.old.me) }
    ensures table { seat.new.table_id ≡ seat.old.table_id }
    ensures id { seat.new.id ≡ seat.old.id }
    ensures told { (n : ℕ) × D.tells (step board.now.table_id.slots word 0 0 none) seat.old.me n
        seat.new.me }
{
    board.load::<Told<D>>(seat, word);
}

/// Takes the latch of a part where it is free, and returns what was found there: 0 where it was.
pub(crate) fn latch_as<C: Parts, D: Telling<Option<C::Part>, View<C::Event>>>(
    board: &Board<C>,
    seat: &mut Place<C>,
    part: u32,
) -> u64
    requires table { seat.old.table_id ≡ board.now.table_id }
    requires words { latch_word part < board.now.table_id.words }
    requires keeps { Allows (Rule (planned C.Parts board.now.key)) board.now.table_id.slots
        seat.old.id seat.old.me (latch_word part) (λ n. either (n == 0) 1 n)
        (D.tells (step board.now.table_id.slots (latch_word part) 0 1 none) seat.old.me) }
    ensures table { seat.new.table_id ≡ seat.old.table_id }
    ensures id { seat.new.id ≡ seat.old.id }
    ensures told { D.tells (step board.now.table_id.slots (latch_word part) 0 1 none) seat.old.me
        result seat.new.me }
{
    board.compare_exchange::<Told<D>>(seat, latch_word(part), 0, 1)
}

/// Frees the latch of a part.
pub(crate) fn free_as<C: Parts, D: Telling<Option<C::Part>, View<C::Event>>>(
    board: &Board<C>,
    seat: &mut Place<C>,
    part: u32,
)
    requires table { seat.old.table_id ≡ board.now.table_id }
    requires words { latch_word part < board.now.table_id.words }
    requires keeps { Allows (Rule (planned C.Parts board.now.key)) board.now.table_id.slots
        seat.old.id seat.old.me (latch_word part) (λ _. 0)
        (λ _. D.tells (step board.now.table_id.slots (latch_word part) 0 0 none) seat.old.me 0) }
    ensures table { seat.new.table_id ≡ seat.old.table_id }
    ensures id { seat.new.id ≡ seat.old.id }
    ensures told { D.tells (step board.now.table_id.slots (latch_word part) 0 0 none) seat.old.me 0
        seat.new.me }
{
    board.store::<Told<D>>(seat, latch_word(part), 0);
}

/// Counts an event. The event and its reply are what the step is about.
pub(crate) fn count_as<C: Parts, D: Telling<Option<C::Part>, View<C::Event>>>(
    board: &Board<C>,
    seat: &mut Place<C>,
    event: &Snapshot<C::Event>,
    reply: &C::Reply,
)
    requires table { seat.old.table_id ≡ board.now.table_id }
    requires words { 0 < board.now.table_id.words }
    requires keeps { Allows (Rule (planned C.Parts board.now.key)) board.now.table_id.slots
        seat.old.id seat.old.me 0 (λ n. (n + 1) % 2 ^ 64)
        (D.tells (step board.now.table_id.slots 0 1 0 none) seat.old.me) }
    ensures table { seat.new.table_id ≡ seat.old.table_id }
    ensures id { seat.new.id ≡ seat.old.id }
    ensures told { (n : ℕ) × D.tells (step board.now.table_id.slots 0 1 0 none) seat.old.me n
        seat.new.me }
{
    board.fetch_add::<Told<D>>(seat, 0, 1);
}

/// Joins a seat into another.
pub(crate) fn join_as<C: Parts, D: Joining<View<C::Event>>>(
    board: &Board<C>,
    seat: &mut Place<C>,
    other: Place<C>,
)
    requires tables { (seat.old.table_id ≡ board.now.table_id)
        × (other.table_id ≡ board.now.table_id) × (other.me.1 ≡ []) }
    requires words { 0 < board.now.table_id.words }
    requires keeps { Joins (Rule (planned C.Parts board.now.key)) seat.old.id seat.old.me.0 other.id
        other.me.0 (D.both seat.old.me.0 other.me.0) D.spent }
    ensures table { seat.new.table_id ≡ seat.old.table_id }
    ensures id { seat.new.id ≡ seat.old.id }
    ensures me { seat.new.me ≡ (D.both seat.old.me.0 other.me.0, seat.old.me.1) }
{
    board.join_seat::<Joined<D>>(seat, other);
}

/// Adds to the word of a block, and returns what was found there.
pub(crate) fn add_as<C: Parts, D: Telling<Option<C::Part>, View<C::Event>>>(
    board: &Board<C>,
    seat: &mut Place<C>,
    part: u32,
    more: u64,
) -> u64
    requires table { seat.old.table_id ≡ board.now.table_id }
    requires words { block_word part < board.now.table_id.words }
    requires keeps { Allows (Rule (planned C.Parts board.now.key)) board.now.table_id.slots
        seat.old.id seat.old.me (block_word part) (λ n. (n + more) % 2 ^ 64)
        (D.tells (step board.now.table_id.slots (block_word part) more 0 none) seat.old.me) }
    ensures table { seat.new.table_id ≡ seat.old.table_id }
    ensures id { seat.new.id ≡ seat.old.id }
    ensures told { D.tells (step board.now.table_id.slots (block_word part) more 0 none) seat.old.me
        result seat.new.me }
{
    board.fetch_add::<Told<D>>(seat, block_word(part), more)
}

/// Takes one reader off the word of a block, and returns what was found there.
pub(crate) fn sub_as<C: Parts, D: Telling<Option<C::Part>, View<C::Event>>>(
    board: &Board<C>,
    seat: &mut Place<C>,
    part: u32,
) -> u64
    requires table { seat.old.table_id ≡ board.now.table_id }
    requires words { block_word part < board.now.table_id.words }
    requires keeps { Allows (Rule (planned C.Parts board.now.key)) board.now.table_id.slots
        seat.old.id seat.old.me (block_word part) (λ n. (n + (2 ^ 64 - 1)) % 2 ^ 64)
        (D.tells (step board.now.table_id.slots (block_word part) 1 0 none) seat.old.me) }
    ensures table { seat.new.table_id ≡ seat.old.table_id }
    ensures id { seat.new.id ≡ seat.old.id }
    ensures told { D.tells (step board.now.table_id.slots (block_word part) 1 0 none) seat.old.me
        result seat.new.me }
{
    board.fetch_sub::<Told<D>>(seat, block_word(part), 1)
}

/// Makes the word of a block hot, and returns what was found there.
pub(crate) fn clear_as<C: Parts, D: Telling<Option<C::Part>, View<C::Event>>>(
    board: &Board<C>,
    seat: &mut Place<C>,
    part: u32,
) -> u64
    requires table { seat.old.table_id ≡ board.now.table_id }
    requires words { block_word part < board.now.table_id.words }
    requires keeps { Allows (Rule (planned C.Parts board.now.key)) board.now.table_id.slots
        seat.old.id seat.old.me (block_word part) (λ n. bit_and n (2 ^ 62 - 1))
        (D.tells (step board.now.table_id.slots (block_word part) (2 ^ 62 - 1) 0 none)
        seat.old.me) }
    ensures table { seat.new.table_id ≡ seat.old.table_id }
    ensures id { seat.new.id ≡ seat.old.id }
    ensures told { D.tells (step board.now.table_id.slots (block_word part) (2 ^ 62 - 1) 0 none)
        seat.old.me result seat.new.me }
{
    board.fetch_and::<Told<D>>(seat, block_word(part), CLEAR)
}

/// Loads the word of a block.
pub(crate) fn look_as<C: Parts, D: Telling<Option<C::Part>, View<C::Event>>>(
    board: &Board<C>,
    seat: &mut Place<C>,
    part: u32,
) -> u64
    requires table { seat.old.table_id ≡ board.now.table_id }
    requires words { block_word part < board.now.table_id.words }
    requires keeps { Allows (Rule (planned C.Parts board.now.key)) board.now.table_id.slots
        seat.old.id seat.old.me (block_word part) (λ n. n)
        (D.tells (step board.now.table_id.slots (block_word part) 0 0 none) seat.old.me) }
    ensures table { seat.new.table_id ≡ seat.old.table_id }
    ensures id { seat.new.id ≡ seat.old.id }
    ensures told { D.tells (step board.now.table_id.slots (block_word part) 0 0 none) seat.old.me
        result seat.new.me }
{
    board.load::<Told<D>>(seat, block_word(part))
}
