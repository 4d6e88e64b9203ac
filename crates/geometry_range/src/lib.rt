// Runs of columns or rows, for all that the crates above answer.
#![tactic(auto)]

ghost use Rattle.std.specs.Prelude.{◌≡◌};
ghost use Rattle.geometry_range.specs.Range.{contains as range_contains, is_empty};

// A run of columns or rows, from start up to but not including end: empty when end <= start. The
// ends of an empty run are kept as they were computed, also reversed ones. It stands for the Rust's
// `Range<i32>`.
#[derive(Clone, Copy)]
pub struct Range {
    pub start: i32,
    pub end: i32,
}

impl Range {
    pub fn contains(self, v: i32) -> bool
        ensures { result ≡ range_contains self v }
    {
        self.start <= v && v < self.end
    }

    pub fn is_empty(self) -> bool
        ensures { result ≡ is_empty self }
    {
        self.end <= self.start
    }
}
