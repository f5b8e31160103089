ghost use Rattle.kinds.specs.declared.topology.Topology.TheVariants as topology;

use crate::body::Body;
use crate::limits;
use crate::limits::{DIVISIONS, Range, SEGMENTS};
use surface::{Chain, Ending, Split, Surface};

// A tube, by the divisions round it and the segments of its curve.
#[derive(Clone, Copy, Debug, PartialEq, Eq)]
pub struct Tube {
    pub divisions: u16,
    pub segments: u16,
}

impl Tube {
    pub const DIVISIONS: Range = DIVISIONS;

    pub const SEGMENTS: Range = SEGMENTS;
}

impl Body for Tube {
    ghost topology = { topology.Tube };

    fn is_permitted(self) -> bool {
        Self::DIVISIONS.contains(self.divisions as usize)
            && Self::SEGMENTS.contains(self.segments as usize)
    }

    fn vertex_count(self) -> u64 {
        limits::product(self.divisions, self.segments as u32 + 1)
    }

    fn triangle_count(self) -> u64 {
        2 * limits::product(self.divisions, self.segments as u32)
    }

    fn surface(self) -> Surface {
        Surface {
            split: Split::Tube,
            ending: Ending::Open,
            rows: self.segments as u32,
            round: Chain::Closed,
            columns: self.divisions,
        }
    }
}
