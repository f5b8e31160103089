ghost use Rattle.std.specs.Prelude.{◌≡◌};
ghost use Rattle.kinds.specs.Kinds.{steps_of, layers_of};
ghost use Rattle.kinds.specs.Limits.{longitudes_permitted};
ghost use Rattle.kinds.specs.declared.topology.Topology.TheVariants as topology;

use crate::body::Body;
use crate::limits;
use crate::limits::{DIVISIONS, Range, SEGMENTS};
use surface::{Chain, Ending, Split, Surface};

// A capsule, by the divisions round it, the longitude divisions of each cap and the segments of
// its curve.
#[derive(Clone, Copy, Debug, PartialEq, Eq)]
pub struct Capsule {
    pub divisions: u16,
    pub longitudes: u16,
    pub segments: u16,
}

impl Capsule {
    pub const DIVISIONS: Range = DIVISIONS;

    pub const SEGMENTS: Range = SEGMENTS;

    pub const MOST_LONGITUDES: u16 = 256;

    // Both caps and the segments together: fewer would leave no layer of quads.
    pub const LEAST_STEPS: u32 = 3;

    // Whether the longitude divisions are permitted, alone and together with the segments.
    pub fn are_longitudes_permitted(longitudes: u32, segments: u16) -> bool
        ensures { result ≡ longitudes_permitted longitudes segments }
    {
        longitudes <= Self::MOST_LONGITUDES as u32
            && Self::LEAST_STEPS <= 2 * longitudes + segments as u32
    }

    // The steps of a line from pole to pole: both caps and the segments.
    fn steps(self) -> u32
        ensures { result ≡ steps_of self }
    {
        2 * self.longitudes as u32 + self.segments as u32
    }

    // The layers of quads between the caps; none where there are too few steps, so that the counts
    // are defined for every capsule.
    fn layers(self) -> u32
        ensures { result ≡ layers_of self }
    {
        self.steps().saturating_sub(2)
    }
}

impl Body for Capsule {
    ghost topology = { topology.Capsule };

    fn is_permitted(self) -> bool {
        Self::DIVISIONS.contains(self.divisions as usize)
            && Self::SEGMENTS.contains(self.segments as usize)
            && Self::are_longitudes_permitted(self.longitudes as u32, self.segments)
    }

    fn vertex_count(self) -> u64 {
        limits::product(self.divisions, self.layers() + 1) + 2
    }

    fn triangle_count(self) -> u64 {
        2 * limits::product(self.divisions, self.layers() + 1)
    }

    fn surface(self) -> Surface {
        Surface {
            split: Split::Capped,
            ending: Ending::Capped,
            rows: self.layers(),
            round: Chain::Closed,
            columns: self.divisions,
        }
    }
}
