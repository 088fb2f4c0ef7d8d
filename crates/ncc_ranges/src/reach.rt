//! How far the first and the last element of a selection lie.

ghost use Rattle.std.specs.Prelude.{◌≡◌, ◌≤◌};

/// How far the first and the last selected element lie from the variable's first one, in bytes.
#[derive(Clone, Copy)]
pub struct Reach {
    pub first: u64,
    pub last: u64,
    ghost order: { first ≤ last },
}

impl Reach {
    ghost use Rattle.std.specs.Prelude.{◌+◌, ◌-◌, ◌*◌, ◌<◌, ◌^◌, MatchOption};
    ghost use Rattle.ncc_ranges.specs.Steps.{IsFurther};

    /// No way at all.
    pub fn none() -> Reach
        ensures { (result.first ≡ 0) × (result.last ≡ 0) }
    {
        Reach { first: 0, last: 0 }
    }

    /// The reach with one dimension more, whose indices lie `unit` bytes apart, and the step along it; nothing where
    /// the last element lies 2^64 bytes away or more.
    pub fn further(self, unit: u64, start: u64, count: u64, stride: u64) -> Option<(Reach, u64)>
        requires some { 0 < count }
        requires index { start + (count - 1) * stride < 2 ^ 64 }
        ensures { MatchOption result (2 ^ 64 ≤ self.last + (start + (count - 1) * stride) * unit)
            (IsFurther self unit start count stride) }
    {
        let index = start + (count - 1) * stride;
        let last = index.checked_mul(unit)?.checked_add(self.last)?;
        let first = self.first + start * unit;
        let step = if count == 1 { 0 } else { stride * unit };
        Some((Reach { first, last }, step))
    }
}
