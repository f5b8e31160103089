use std::fmt;
use std::iter::Sum;
use std::ops::Add;

// How many elements of bodies and how many past them were compared, and how many of all these
// differ.
#[derive(Clone, Copy, Debug, Default)]
pub(crate) struct Tally {
    pub bodies: u64,
    pub past: u64,
    pub differing: u64,
}

impl Tally {
    // Nothing compared, and one difference.
    pub(crate) const DIFFERENCE: Tally = Tally {
        bodies: 0,
        past: 0,
        differing: 1,
    };
}

impl fmt::Display for Tally {
    // What was counted.
    fn fmt<W: fmt::Write>(&self, f: &mut fmt::Formatter<W>) -> fmt::Result {
        let Tally {
            bodies,
            past,
            differing,
        } = *self;
        write!(
            f,
            "{bodies} elements of bodies, {past} past them, {differing} differ"
        )
    }
}

impl Add for Tally {
    type Output = Tally;

    // The sums of both. They stay far below 2^64, where they would wrap.
    fn add(self, more: Tally) -> Tally {
        Tally {
            bodies: self.bodies.wrapping_add(more.bodies),
            past: self.past.wrapping_add(more.past),
            differing: self.differing.wrapping_add(more.differing),
        }
    }
}

impl Sum<Tally> for Tally {
    fn sum<I: Iterator<Item = Tally>>(iter: I) -> Tally {
        iter.fold(Tally::default(), |sum, more| sum + more)
    }
}
