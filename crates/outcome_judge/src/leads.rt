//! Marks that tell the highest value up to a place among those of all but one.
ghost use Rattle.std.specs.Prelude.{◌≡◌, max, true, if◌then◌else◌, None, Some};
ghost use Rattle.std.specs.List.{last_or, list_all};
ghost use Rattle.std.specs.List.Sorted.{IsNonDecreasingBy};
ghost use Rattle.workload_spec.specs.declared.reply.Who.{Who as Whom};
ghost use Rattle.outcome_spec.specs.Entries.{is_same};
ghost use Rattle.outcome_judge.specs.Leads.{but_of, is_ordered, lead_below};

use workload_spec::Who;

/// Whether the two are one.
pub(crate) fn is_one(a: Who, b: Who) -> bool
    ensures { result ≡ is_same a b }
{
    a == b
}

/// At a place the highest value up to it, whose that is, and the highest of the others.
#[derive(Clone, Copy, Debug, Drop)]
pub(crate) struct Lead {
    place: usize,
    who: Who,
    most: u64,
    others: u64,
}

/// The last of the leads, whose places rise, below a place.
fn lead_below(leads: &[Lead], place: usize) -> Option<Lead>
    requires { IsNonDecreasingBy (λ lead. lead.place) leads.now }
    ensures { result ≡ lead_below place leads.now }
{
    let count = leads.partition_point(|lead| lead.place < place);
    leads[..count].last().copied()
}

/// The highest value below a place of all but one.
pub(crate) fn most_but(leads: &[Lead], place: usize, own: Who) -> u64
    requires { IsNonDecreasingBy (λ lead. lead.place) leads.now }
    ensures { result ≡ but_of own (lead_below place leads.now) }
{
    match lead_below(leads, place) {
        None => 0,
        Some(lead) if is_one(lead.who, own) => lead.others,
        Some(lead) => lead.most,
    }
}

/// The lead that follows others, with one's value at a place.
pub(crate) fn next_lead(leads: &[Lead], place: usize, who: Who, value: u64) -> Lead
    requires { list_all is_ordered leads.now ≡ true }
    ensures there { result.place ≡ place }
    ensures ordered { is_ordered result ≡ true }
    ensures most { (own : Whom) → but_of own (Some result)
        ≡ max (but_of own (last_or None leads.now)) (if is_same who own then 0 else value) }
{
    match leads.last() {
        None => Lead {
            place,
            who,
            most: value,
            others: 0,
        },
        Some(last) if is_one(last.who, who) => Lead {
            place,
            most: last.most.max(value),
            ..*last
        },
        Some(last) if last.most < value => Lead {
            place,
            who,
            most: value,
            others: last.most,
        },
        Some(last) => Lead {
            place,
            others: last.others.max(value),
            ..*last
        },
    }
}
