ghost use Rattle.std.specs.Prelude.{◌≡◌, ◌*◌, ◌<◌, ◌^◌};
ghost use Rattle.kinds.specs.Limits.{between};

// The limits of one number of a body. std's ranges have the same method, but `3..=256` is a call,
// which no constant may be, and `3..257` does not name the greatest number that is permitted.
#[derive(Clone, Copy, Debug, PartialEq, Eq)]
pub struct Range {
    pub least: u16,
    pub most: u16,
}

impl Range {
    // Whether `x` lies between the limits. It is a `usize`, so that a caller may ask it of a
    // length.
    pub fn contains(self, x: usize) -> bool
        ensures { result ≡ between self.least self.most x }
    {
        self.least as usize <= x && x <= self.most as usize
    }
}

// Limits that several kinds share; each kind has its own as associated constants.
pub(crate) const DIVISIONS: Range = Range {
    least: 3,
    most: 256,
};

// A curve of 2 to 4,096 vertices.
pub(crate) const SEGMENTS: Range = Range {
    least: 1,
    most: 4095,
};

// A product of two sizes, which fits whatever they are.
pub(crate) fn product(a: u16, b: u32) -> u64
    ensures product { result ≡ a * b }
    ensures below { result < 2 ^ 48 }
{
    a as u64 * b as u64
}
