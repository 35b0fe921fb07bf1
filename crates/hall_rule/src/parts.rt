//! A core in parts, on which a hall lets threads work.
ghost use Rattle.std.specs.Prelude.{◌≡◌, ◌≢◌, ◌+◌, ◌^◌, ◌<◌, ◌≤◌, ℕ, Bool, true, List, Option};
ghost use Rattle.std.specs.Prelude.{None, Some, MatchBool, IfOk, false, length, slice_get};
ghost use Rattle.hall_rule.specs.Hands.{Agrees, Covers, IsNext, OnlyHeld, SameRoom, all_in};
ghost use Rattle.hall_rule.specs.Heads.{Turns, head_of};
ghost use Rattle.hall_rule.specs.declared.head.Head.{Head};

use crate::hand::Hand;
use crate::head::Head;
use std::alloc::AllocError;
use std::sync::ledger::Ledger;
use steps::Steps;

/// A core whose state is a list of parts, and whose events each work on a few of them.
///
/// The laws speak of sound states alone: an opening state is sound, and a lawful event leaves a
/// sound state sound. An event is lawful where it stands and fits: it *stands* by its session's
/// open transaction and by lasting facts, and *fits* by the parts that it touches.
pub trait Parts: Sized {
    /// What one thread holds at a time.
    type Part: Send + Drop;

    type Event;

    type Reply;
    /// What numbers the parts. No event changes it.
    type Shape: Send + Sync + Drop;
    /// What a session has open: its snapshot and its own writes.
    type Transaction;
    /// What a reply can teach for good, as that no snapshot is older than some stamp.
    type Fact;

    // The shape of a core, and its parts.
    ghost shape_of: { Self → Self.Shape };

    ghost state_of: { Self → List Self.Part };

    // No event was made on it.
    ghost opening: { Self.Shape → List Self.Part → Type 0 };

    // What holds of every state that lawful events reach.
    ghost sound: { Self.Shape → List Self.Part → Type 0 };

    // Whether an event touches a part, as the parts in the hand tell.
    ghost touching: { Self.Shape → Self.Event → List (Option Self.Part) → ℕ → Bool };

    // The session that an event is of.
    ghost names: { Self.Event → Option ℕ };

    // What an event asks of its session's open transaction and of lasting facts.
    ghost stands: { Self.Shape → Self.Event → List Self.Part → Type 0 };

    // What it asks of the parts that it touches.
    ghost fits: { Self.Shape → Self.Event → List Self.Part → Type 0 };

    ghost effect: { Self.Shape → Self.Event → List Self.Part → List Self.Part };

    ghost reply: { Self.Shape → Self.Event → List Self.Part → Self.Reply };

    // The most steps that an event takes.
    ghost cost: { Self.Shape → Self.Event → List Self.Part → ℕ };

    // Whether an event takes memory, for want of which alone it may be refused.
    ghost takes_memory: { Self.Event → Bool };

    // Whether a reply says that memory was refused.
    ghost refused: { Self.Reply → Bool };

    // The open transaction of a session.
    ghost transaction: { Self.Shape → List Self.Part → ℕ → Option Self.Transaction };

    // What a lasting fact says of a state.
    ghost fact: { Self.Shape → Self.Fact → List Self.Part → Type 0 };

    // Which lasting facts the reply to an event teaches.
    ghost teaches: { Self.Shape → Self.Event → Self.Reply → Self.Fact → Type 0 };

    // The state and the stamp that the word of a part follows; none where the part is no block.
    ghost wears: { Self.Part → Option Head };

    // The part that an event thaws, if it thaws one.
    ghost thaws: { Self.Shape → Self.Event → Option ℕ };

    // Whether an event may turn the word of a part.
    ghost turning: { Self.Event → Bool };

    /// How many parts the core has.
    fn parts(&self) -> u32
        ensures { result ≡ length (state_of self.now) };

    /// Takes the core apart. All its parts lie in the hand.
    fn into_parts(self) -> Result<(Self::Shape, Hand<Self::Part>), AllocError>
        ensures { IfOk result (λ r. (r.0 ≡ shape_of self) × (r.1 ≡ all_in (state_of self))) };

    /// Whether the event touches a part, as the parts held before it tell.
    fn touches(shape: &Self::Shape, event: &Self::Event, held: &Hand<Self::Part>, part: u32) -> bool
        requires { part < length held.now }
        ensures { result ≡ touching shape.now event.now held.now part };

    /// The least part from `from` on that the event touches, as the parts held before it tell. A
    /// core that knows which comes next need not ask for each.
    fn next_touched(
        shape: &Self::Shape,
        event: &Self::Event,
        held: &Hand<Self::Part>,
        from: u32,
    ) -> Option<u32>
        requires { length held.now < 2 ^ 32 }
        ensures { IsNext (touching shape.now event.now held.now) from (length held.now) result }
    {
        let mut part = from;
        while (part as usize) < held.len() {
            if Self::touches(shape, event, held, part) {
                return Some(part);
            }
            part += 1;
        }
        None
    }

    /// Runs an event on the parts in the hand, which has each part that it touches. What it makes
    /// of them and what it replies is the same for every sound state that has these parts. Where
    /// memory is refused the hand stays as it was, and only an event that takes memory is refused
    /// so.
    fn run<L: Ledger>(
        shape: &Self::Shape,
        event: Self::Event,
        held: &mut Hand<Self::Part>,
        steps: &mut Steps<L>,
    ) -> Self::Reply
        requires covered { Covers (touching shape.now event) held.old }
        requires lawful { (s : List Self.Part) × sound shape.now s × Agrees held.old s
            × stands shape.now event s × fits shape.now event s }
        ensures room { SameRoom held.old held.new }
        ensures meets { (s : List Self.Part) → sound shape.now s → Agrees held.old s
            → stands shape.now event s → fits shape.now event s
            → MatchBool (refused result) (held.new ≡ held.old)
            (Agrees held.new (effect shape.now event s) × (result ≡ reply shape.now event s)) }
        ensures refuses { refused result ≡ true → takes_memory event ≡ true }
        ensures steps { (s : List Self.Part) → sound shape.now s → Agrees held.old s
            → stands shape.now event s → fits shape.now event s
            → steps.new ≤ steps.old + cost shape.now event s };

    /// The state and the stamp that the word of a part follows; none where the part is no block.
    fn word(part: &Self::Part) -> Option<Head>
        ensures { result ≡ wears part.now };

    /// Whether the event may turn the word of a part. After any other event no word is looked at.
    fn turns_words(event: &Self::Event) -> bool
        ensures { result ≡ turning event.now };

    // An opening state is sound, and no session has a transaction in it.
    ghost opens: { (sh : Self.Shape) (s : List Self.Part) → opening sh s → sound sh s };

    ghost rests: { (sh : Self.Shape) (s : List Self.Part) (q : ℕ) → opening sh s
        → transaction sh s q ≡ None };

    // A lawful event leaves a sound state sound.
    ghost keeps: { (sh : Self.Shape) (e : Self.Event) (s : List Self.Part) → sound sh s
        → stands sh e s → fits sh e s → sound sh (effect sh e s) };

    // Whether an event touches a part the parts before it tell.
    ghost ascends: { (sh : Self.Shape) (e : Self.Event) (h i : List (Option Self.Part)) (k : ℕ)
        → ((j : ℕ) → j < k → slice_get h j ≡ slice_get i j) → touching sh e h k
        ≡ touching sh e i k };

    // It changes only the parts that it touches, and never how many there are.
    ghost frame: { (sh : Self.Shape) (e : Self.Event) (h : List (Option Self.Part))
        (s : List Self.Part) → sound sh s → Covers (touching sh e) h → Agrees h s
        → stands sh e s → fits sh e s → OnlyHeld h s (effect sh e s) };

    ghost room: { (sh : Self.Shape) (e : Self.Event) (s : List Self.Part) → sound sh s
        → length (effect sh e s) ≡ length s };

    // What it asks of its parts depends on these alone.
    ghost local: { (sh : Self.Shape) (e : Self.Event) (h : List (Option Self.Part))
        (s t : List Self.Part) → sound sh s → sound sh t → Covers (touching sh e) h → Agrees h s
        → Agrees h t → stands sh e s → fits sh e s → fits sh e t };

    // What it asks besides depends on its session's open transaction and on lasting facts alone.
    ghost depends: { (sh : Self.Shape) (e : Self.Event) (s t : List Self.Part) → sound sh s
        → sound sh t
        → ((q : ℕ) → names e ≡ Some q → transaction sh t q ≡ transaction sh s q)
        → ((f : Self.Fact) → fact sh f s → fact sh f t) → stands sh e s → stands sh e t };

    // It leaves every other session's transaction as it was.
    ghost leaves: { (sh : Self.Shape) (e : Self.Event) (s : List Self.Part) (q : ℕ) → sound sh s
        → stands sh e s → fits sh e s → names e ≢ Some q → transaction sh (effect sh e s) q
        ≡ transaction sh s q };

    // A lasting fact outlives every lawful event.
    ghost outlives: { (sh : Self.Shape) (e : Self.Event) (f : Self.Fact) (s : List Self.Part)
        → sound sh s → stands sh e s → fits sh e s → fact sh f s → fact sh f (effect sh e s) };

    // A block of an opening state is hot, and was never sealed.
    ghost cold: { (sh : Self.Shape) (s : List Self.Part) (k : ℕ) (p : Self.Part) → opening sh s
        → slice_get s k ≡ Some p → head_of (wears p) ≡ 0 };

    // State and stamp have their room in a word.
    ghost small: { (sh : Self.Shape) (s : List Self.Part) (k : ℕ) (p : Self.Part) → sound sh s
        → slice_get s k ≡ Some p → head_of (wears p) < 2 ^ 32 };

    // A lawful event leaves what a part's word is to say, or turns it.
    ghost turns: { (sh : Self.Shape) (e : Self.Event) (s : List Self.Part) (k : ℕ)
        (p q : Self.Part) → sound sh s → stands sh e s → fits sh e s → slice_get s k ≡ Some p
        → slice_get (effect sh e s) k ≡ Some q
        → Turns (thaws sh e ≡ Some k) (head_of (wears p)) (head_of (wears q)) };

    // One that turns no word leaves it for every part.
    ghost still: { (sh : Self.Shape) (e : Self.Event) (s : List Self.Part) (k : ℕ)
        (p q : Self.Part) → sound sh s → stands sh e s → fits sh e s → turning e ≡ false
        → slice_get s k ≡ Some p → slice_get (effect sh e s) k ≡ Some q
        → head_of (wears q) ≡ head_of (wears p) };

    // What a reply teaches holds after its event.
    ghost learns: { (sh : Self.Shape) (e : Self.Event) (f : Self.Fact) (s : List Self.Part)
        → sound sh s → stands sh e s → fits sh e s → teaches sh e (reply sh e s) f
        → fact sh f (effect sh e s) };
}
