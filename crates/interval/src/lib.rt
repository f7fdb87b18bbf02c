// interval.rs of the crate: a range of track, its order, and what two ranges share.
#![tactic(auto)]

ghost use Rattle.std.specs.Prelude.{◌≡◌};
ghost use Rattle.rules.specs.Range.{range, is_valid, overlaps, intersect, range_to, included};
ghost use Rattle.interval.specs.Interval.{range_of, found_of};

// start..end. Ranges are compared by start, then by end.
#[derive(Clone, Copy, PartialEq, Eq, PartialOrd, Ord)]
pub struct Interval {
    pub start: u64,
    pub end: u64,
}

impl Interval {
    // The range from `start` to before `end`.
    pub fn new(start: u64, end: u64) -> Self
        ensures { range_of result ≡ range start end }
    {
        Interval { start, end }
    }

    // The range from `start` to `last`, `last` included.
    pub fn from_inclusive(start: u64, last: u64) -> Option<Interval>
        ensures { found_of result ≡ range_to included start last }
    {
        let end = last.checked_add(1)?;
        Some(Interval { start, end })
    }

    // Whether the start is below the end.
    pub fn is_valid(self) -> bool
        ensures { result ≡ is_valid (range_of self) }
    {
        self.start < self.end
    }

    // What two ranges share: from the larger start to the smaller end, where that is a range.
    pub fn intersect(self, other: Interval) -> Option<Interval>
        ensures { found_of result ≡ intersect (range_of self) (range_of other) }
    {
        let start = self.start.max(other.start);
        let end = self.end.min(other.end);
        let both = Interval { start, end };
        both.is_valid().then_some(both)
    }

    // Whether two ranges overlap: each start is below each end. The larger start and the smaller end, compared, become branches,
    // and the walk is slower.
    pub fn overlaps(self, other: Interval) -> bool
        ensures { result ≡ overlaps (range_of self) (range_of other) }
    {
        (self.start < self.end)
            & (self.start < other.end)
            & (other.start < self.end)
            & (other.start < other.end)
    }
}
