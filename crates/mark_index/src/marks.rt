//! Marks at places, which count what stands up to a place, or tell the highest value there.
ghost use Rattle.std.specs.Prelude.{◌≡◌, ◌*◌, ◌^◌, ◌<◌, ◌≤◌, max, nat_lt, if◌then◌else◌};
ghost use Rattle.std.specs.List.Sorted.{IsNonDecreasing, IsNonDecreasingBy};
ghost use Rattle.std.specs.Option.{option_map_or};
ghost use Rattle.mark_index.specs.Marks.{count_below, last_below, last_sum, most_below, next_peak};
ghost use Rattle.mark_index.specs.Marks.{next_sum, own_below, total_below};

/// How many of the places, which rise, are below one.
pub fn count_below(places: &[usize], place: usize) -> usize
    requires { IsNonDecreasing places.now }
    ensures { result ≡ count_below place places.now }
{
    places.partition_point(|other| *other < place)
}

/// A value at a place: the highest up to it, and the highest of its own part up to it.
#[derive(Clone, Copy, Debug, Drop)]
pub struct Peak {
    pub place: usize,
    pub most: u128,
    pub own: u128,
}

/// The last of the peaks, whose places rise, below a place.
fn last_below(peaks: &[Peak], place: usize) -> Option<Peak>
    requires { IsNonDecreasingBy (λ peak. peak.place) peaks.now }
    ensures { result ≡ last_below place peaks.now }
{
    let count = peaks.partition_point(|peak| peak.place < place);
    peaks[..count].last().copied()
}

/// The highest value that a peak tells.
fn most_of(last: Option<Peak>) -> u128
    ensures { result ≡ option_map_or (λ peak. peak.most) last 0 }
{
    match last {
        None => 0,
        Some(peak) => peak.most,
    }
}

/// The highest value that a peak tells from a start on.
fn own_of(last: Option<Peak>, start: usize) -> u128
    ensures { result ≡ option_map_or (λ peak. if nat_lt peak.place start then 0 else peak.own) last
        0 }
{
    match last {
        None => 0,
        Some(peak) if peak.place < start => 0,
        Some(peak) => peak.own,
    }
}

/// The highest value up to a place.
pub fn most_below(peaks: &[Peak], place: usize) -> u128
    requires { IsNonDecreasingBy (λ peak. peak.place) peaks.now }
    ensures { result ≡ most_below place peaks.now }
{
    most_of(last_below(peaks, place))
}

/// The highest value from a start up to a place.
pub fn own_below(peaks: &[Peak], start: usize, place: usize) -> u128
    requires { IsNonDecreasingBy (λ peak. peak.place) peaks.now }
    ensures { result ≡ own_below start place peaks.now }
{
    own_of(last_below(peaks, place), start)
}

/// The peak that follows others at a place, whose part begins at a start.
pub fn next_peak(peaks: &[Peak], place: usize, start: usize, value: u128) -> Peak
    requires { IsNonDecreasingBy (λ peak. peak.place) peaks.now }
    ensures { result ≡ next_peak peaks.now place start value }
{
    let last = last_below(peaks, place);
    Peak {
        place,
        most: most_of(last).max(value),
        own: own_of(last, start).max(value),
    }
}

/// The sum of the values up to a place, with that of the place.
#[derive(Clone, Copy, Debug, Drop)]
pub struct Sum {
    pub place: usize,
    pub total: u128,
}

/// The last of the sums, whose places rise, below a place.
fn last_sum(sums: &[Sum], place: usize) -> Option<Sum>
    requires { IsNonDecreasingBy (λ sum. sum.place) sums.now }
    ensures { result ≡ last_sum place sums.now }
{
    let count = sums.partition_point(|sum| sum.place < place);
    sums[..count].last().copied()
}

/// The sum of the values up to a place.
pub fn total_below(sums: &[Sum], place: usize) -> u128
    requires { IsNonDecreasingBy (λ sum. sum.place) sums.now }
    ensures { result ≡ total_below place sums.now }
{
    match last_sum(sums, place) {
        None => 0,
        Some(sum) => sum.total,
    }
}

/// The sum that follows others at a place.
pub fn next_sum(sums: &[Sum], place: usize, value: u64) -> Sum
    requires rise { IsNonDecreasingBy (λ sum. sum.place) sums.now }
    requires small { total_below place sums.now ≤ place * 2 ^ 64 }
    ensures { result ≡ next_sum sums.now place value }
{
    Sum {
        place,
        total: total_below(sums, place) + u128::from(value),
    }
}
