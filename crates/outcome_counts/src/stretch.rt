//! The places about a reply, among replies in the order of their lines.
ghost use Rattle.std.specs.Prelude.{◌≡◌, ◌+◌, ◌-◌, ◌<◌, IfSome, ◌≤◌, ◌^◌, drop, length, nat_le};
ghost use Rattle.std.specs.Prelude.{not, slice_index_or, take, true};
ghost use Rattle.std.specs.List.{list_all};
ghost use Rattle.order_laws.specs.Sides.{is_past};
ghost use Rattle.order_laws.specs.Places.{Rises, is_earlier, is_in_front, is_up_to_own};
ghost use Rattle.std.specs.List.Sorted.{IsNonDecreasing, IsNonDecreasingBy};
ghost use Rattle.outcome_counts.specs.Asked.{IsAsked, count_before, count_not_after, peak_before};
ghost use Rattle.output_read.specs.Kept.{entries_of, entry_of};
ghost use Rattle.output_read.specs.declared.kept.KeptReply.{KeptReply as Kept};
ghost use Rattle.outcome_counts.specs.Stretch.{stretch_of};

use mark_index::marks::{Peak, count_below, most_below, own_below};
use output_read::KeptReply;
use workload_spec::Who;

/// Where the round of a reply begins, where its own session's or worker's of the round begin and
/// end, and where the round ends.
#[derive(Clone, Copy, Debug, Drop)]
pub struct Stretch {
    pub round_start: usize,
    pub own_start: usize,
    pub own_end: usize,
    pub round_end: usize,
}

/// Whether one stands in front of another: sessions in front of workers, and each by its number.
fn is_earlier(a: Who, b: Who) -> bool
    ensures { result ≡ is_earlier a b }
{
    match (a, b) {
        (Who::Session(a), Who::Session(b)) | (Who::Worker(a), Who::Worker(b)) => a < b,
        (Who::Session(_), Who::Worker(_)) => true,
        (Who::Worker(_), Who::Session(_)) => false,
    }
}

/// Whether the other is of an earlier round, or of the reply's and to one in front of its own.
fn is_in_front(reply: &KeptReply<'_>, other: &KeptReply<'_>) -> bool
    ensures { result ≡ is_in_front (entry_of reply.now) (entry_of other.now) }
{
    other.round < reply.round || other.round == reply.round && is_earlier(other.who, reply.who)
}

/// The same, or to its own.
fn is_up_to_own(reply: &KeptReply<'_>, other: &KeptReply<'_>) -> bool
    ensures { result ≡ is_up_to_own (entry_of reply.now) (entry_of other.now) }
{
    other.round < reply.round
        || other.round == reply.round
            && (is_earlier(other.who, reply.who) || other.who == reply.who)
}

/// How far about a place its round is sought first.
const NEAR: usize = 64;

/// Between which places the round of a reply stands.
#[derive(Clone, Copy, Debug, Drop)]
pub(crate) struct Around {
    pub(crate) from: usize,
    pub(crate) to: usize,
}

/// Whether all in front of a place are of rounds before the reply's.
fn is_behind_others(replies: &[KeptReply<'_>], reply: &KeptReply<'_>, place: usize) -> bool
    requires rises { Rises (entries_of replies.now) }
    requires inside { place ≤ length replies.now }
    ensures { result ≡ true → list_all
        (λ (kept : Kept). is_past (entry_of reply.now) (entry_of kept)) (take place replies.now)
        ≡ true }
{
    if place == 0 {
        return true;
    }
    replies[place - 1].round < reply.round
}

/// Whether all from a place on are of rounds behind the reply's.
fn is_in_front_of_others(replies: &[KeptReply<'_>], reply: &KeptReply<'_>, place: usize) -> bool
    requires rises { Rises (entries_of replies.now) }
    requires inside { place ≤ length replies.now }
    ensures { result ≡ true → list_all (λ (kept : Kept). not (nat_le kept.round reply.now.round))
        (drop place replies.now) ≡ true }
{
    if place == replies.len() {
        return true;
    }
    replies[place].round > reply.round
}

/// Places about one between which the round of the reply there stands: near ones, where they are
/// far enough apart, since most rounds are short; or else all.
fn part_about(replies: &[KeptReply<'_>], reply: &KeptReply<'_>, at: usize) -> Around
    requires rises { Rises (entries_of replies.now) }
    requires inside { at < length replies.now }
    ensures order { result.from ≤ result.to }
    ensures inside { result.to ≤ length replies.now }
    ensures front { list_all (λ (kept : Kept). is_past (entry_of reply.now) (entry_of kept))
        (take result.from replies.now) ≡ true }
    ensures back { list_all (λ (kept : Kept). not (nat_le kept.round reply.now.round))
        (drop result.to replies.now) ≡ true }
{
    let count = replies.len();
    let from = at.saturating_sub(NEAR);
    let to = if count - at > NEAR { at + NEAR } else { count };
    if is_behind_others(replies, reply, from) && is_in_front_of_others(replies, reply, to) {
        return Around { from, to };
    }
    Around { from: 0, to: count }
}

/// The replies from one place up to another.
fn between<'r, 'a>(replies: &'r [KeptReply<'a>], around: Around) -> &'r [KeptReply<'a>]
    requires order { around.from ≤ around.to }
    requires inside { around.to ≤ length replies.now }
    ensures { result.now ≡ drop around.from (take around.to replies.now) }
{
    let (front, _) = replies.split_at(around.to);
    let (_, part) = front.split_at(around.from);
    part
}

/// The places about the reply at a place.
pub fn stretch_about(replies: &[KeptReply<'_>], at: usize) -> Stretch
    requires rises { Rises (entries_of replies.now) }
    requires inside { at < length replies.now }
    ensures { (none : Kept) → result
        ≡ stretch_of (entries_of replies.now) (entry_of (slice_index_or replies.now at none)) }
{
    let reply = &replies[at];
    let around = part_about(replies, reply, at);
    let near = between(replies, around);
    let from = around.from;
    Stretch {
        round_start: from + near.partition_point(|other| other.round < reply.round),
        own_start: from + near.partition_point(|other| is_in_front(reply, other)),
        own_end: from + near.partition_point(|other| is_up_to_own(reply, other)),
        round_end: from + near.partition_point(|other| other.round <= reply.round),
    }
}

/// The places about the reply at a place, by those about the one in front of it, which is of the
/// same round and another's: its own begin at the place.
fn stretch_beside(replies: &[KeptReply<'_>], at: usize, known: Stretch) -> Stretch
    requires inside { at < length replies.now }
    requires known { IsAsked replies.now (at - 1) known }
    requires apart { known.own_end ≤ at }
    requires together { at < known.round_end }
    ensures { IsAsked replies.now at result }
{
    let reply = &replies[at];
    let others = between(
        replies,
        Around {
            from: at,
            to: known.round_end,
        },
    );
    let own = others.partition_point(|other| is_up_to_own(reply, other));
    Stretch {
        own_start: at,
        own_end: at + own,
        ..known
    }
}

/// The places about the reply at a place, by those about the one in front of it where they are
/// known: its own have the same, and others of its round are sought within the round.
pub fn stretch_behind(replies: &[KeptReply<'_>], at: usize, known: Option<Stretch>) -> Stretch
    requires rises { Rises (entries_of replies.now) }
    requires inside { at < length replies.now }
    requires known { IfSome known (IsAsked replies.now (at - 1)) }
    ensures { IsAsked replies.now at result }
{
    match known {
        Some(stretch) if at < stretch.own_end => stretch,
        Some(stretch) if at < stretch.round_end => stretch_beside(replies, at, stretch),
        _ => stretch_about(replies, at),
    }
}

/// The places about the reply at a place, by those about the one behind it where they are known:
/// its own have the same.
pub(crate) fn stretch_in_front(
    replies: &[KeptReply<'_>],
    at: usize,
    known: Option<Stretch>,
) -> Stretch
    requires rises { Rises (entries_of replies.now) }
    requires inside { at < length replies.now }
    requires known { IfSome known (IsAsked replies.now (at + 1)) }
    ensures { IsAsked replies.now at result }
{
    match known {
        Some(stretch) if stretch.own_start <= at => stretch,
        _ => stretch_about(replies, at),
    }
}

/// How many of the places, which rise, are before the reply at a place.
pub fn count_before(places: &[usize], at: usize, stretch: &Stretch) -> usize
    requires { IsNonDecreasing places.now }
    ensures { result ≡ count_before places.now at stretch.now }
{
    let own = count_below(places, at).saturating_sub(count_below(places, stretch.own_start));
    count_below(places, stretch.round_start) + own
}

/// How many of the places, which rise, are not after the reply at a place.
pub fn count_not_after(places: &[usize], at: usize, stretch: &Stretch) -> usize
    requires rise { IsNonDecreasing places.now }
    requires small { at + 1 < 2 ^ 64 }
    ensures { result ≡ count_not_after places.now at stretch.now }
{
    let beside = count_below(places, stretch.round_end).saturating_sub(count_below(
        places,
        stretch.own_end,
    ));
    count_below(places, at + 1) + beside
}

/// The highest of the peaks, which rise, that are before the reply at a place.
pub fn peak_before(peaks: &[Peak], at: usize, stretch: &Stretch) -> u128
    requires { IsNonDecreasingBy (λ peak. peak.place) peaks.now }
    ensures { result ≡ peak_before peaks.now at stretch.now }
{
    most_below(peaks, stretch.round_start).max(own_below(peaks, stretch.own_start, at))
}
