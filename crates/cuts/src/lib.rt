// Lookups in the list of one column's cuts.
#![tactic(auto)]

pub mod feasible_cuts;

ghost use Rattle.std.specs.Prelude.{◌≡◌, ◌-◌, ◌≤◌, max, length};
ghost use Rattle.basics.specs.Walk.{walk};
ghost use Rattle.cuts.specs.Lookups.{Ascending, Sought, above, end_of, lower_bound_of, upper_bound_of, PlaceRead};

// A run of cut numbers, from `first` up to and without `end`; none where the two are equal.
#[derive(Clone, Copy)]
pub struct Run {
    pub first: usize,
    pub end: usize,
}

// One column's cuts, borrowed: it serves the two lookups.
#[derive(Clone, Copy)]
pub struct CutReader<'a> {
    pub places: &'a [u16],
}

// Where cut number k stands; 0 for a number past the list.
#[tactic(auto, unfolding(crate::specs::Lookups::place))]
pub fn place_at(cuts: &[u16], k: usize) -> usize
    ensures { PlaceRead cuts.now k result }
{
    if k < cuts.len() {
        usize::from(cuts[k])
    } else {
        0
    }
}

// The first cut of those from `low` up to and without `high` that is placed above `value`, `high` if none is: by halving.
pub(crate) fn first_above(cuts: &[u16], low: usize, high: usize, value: usize) -> usize
    requires { high ≤ length cuts.now }
    ensures inside { (low ≤ result) × (result ≤ max low high) }
    ensures found { Ascending cuts.now → result ≡ walk (above cuts.now value) (high - low) low }
{
    // Halved here and not by `partition_point`, since the edits halves-past-the-middle and upper-bound-not-strict speak of these steps.
    let mut from = low;
    let mut to = high;
    while from < to {
        let middle = from + (to - from) / 2;
        if value < usize::from(cuts[middle]) {
            to = middle;
        } else {
            from = middle + 1;
        }
    }
    from
}

// One past the last cut to look at. An end that is not above the first cut lets the lookup run to the list's end.
#[tactic(auto, unfolding(crate::specs::Lookups::end_of, basics::specs::Choice::pick))]
fn end_of(cuts: &[u16], first: usize, last: usize) -> usize
    ensures { result ≡ end_of cuts.now first last }
{
    let count = cuts.len();
    if last <= first {
        return count;
    }
    count.min(last.saturating_add(1))
}

impl<'a> CutReader<'a> {
    // The first cut from `first` to `last` that is placed at `value` or above, or one past the end if none is.
    pub fn lower_bound(self, first: usize, last: usize, value: usize) -> usize
        ensures { Sought self.entry.places.now first last (lower_bound_of self.entry.places.now first last value) result }
    {
        // Every cut is placed at 0 or above, and what is placed at a higher value or above is placed above the number before it.
        if value == 0 {
            return first;
        }
        self.upper_bound(first, last, value - 1)
    }

    // The first cut from `first` to `last` that is placed above `value`, or one past the end if none is.
    #[tactic(auto, using(crate::proofs::Lookups::end_high), unfolding(crate::specs::Lookups::upper_bound_of, crate::specs::Lookups::sought_from))]
    pub fn upper_bound(self, first: usize, last: usize, value: usize) -> usize
        ensures { Sought self.entry.places.now first last (upper_bound_of self.entry.places.now first last value) result }
    {
        first_above(self.places, first, end_of(self.places, first, last), value)
    }
}

// The lookups for callers that have a plain slice.
pub fn lower_bound(places: &[u16], first: usize, last: usize, value: usize) -> usize
    ensures { Sought places.now first last (lower_bound_of places.now first last value) result }
{
    CutReader { places }.lower_bound(first, last, value)
}

pub fn upper_bound(places: &[u16], first: usize, last: usize, value: usize) -> usize
    ensures { Sought places.now first last (upper_bound_of places.now first last value) result }
{
    CutReader { places }.upper_bound(first, last, value)
}
