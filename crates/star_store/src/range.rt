//! Ranges of ints: their length, their items, and when two are equal.

ghost use Rattle.std.specs.Prelude.{◌≡◌};
ghost use Rattle.star_store.specs.Range.{range_length};

/// The ints from `start` on, by steps of `step`, before `stop`.
#[derive(Clone, Copy, Debug, PartialEq, Eq)]
pub struct Range {
    pub start: i64,
    pub stop: i64,
    pub step: i64,
}

impl Range {
    /// How many ints the range has.
    pub fn len(&self) -> u64
        ensures { result ≡ range_length self.now }
    {
        if self.step > 0 && self.start < self.stop {
            return (self.stop.abs_diff(self.start) - 1) / self.step.unsigned_abs() + 1;
        }
        if self.step < 0 && self.stop < self.start {
            return (self.start.abs_diff(self.stop) - 1) / self.step.unsigned_abs() + 1;
        }
        0
    }
}
