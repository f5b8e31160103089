ghost use Rattle.kinds.specs.declared.topology.Topology.TheVariants as topology;

use crate::body::Body;
use crate::limits::{Range, SEGMENTS};
use surface::{Chain, Ending, Split, Surface};

// A ribbon, by the segments of its curve.
#[derive(Clone, Copy, Debug, PartialEq, Eq)]
pub struct Ribbon {
    pub segments: u16,
}

impl Ribbon {
    // It has none.
    pub const DIVISIONS: Range = Range { least: 0, most: 0 };

    pub const SEGMENTS: Range = SEGMENTS;
}

impl Body for Ribbon {
    ghost topology = { topology.Ribbon };

    fn is_permitted(self) -> bool {
        Self::SEGMENTS.contains(self.segments as usize)
    }

    fn vertex_count(self) -> u64 {
        2 * (self.segments as u64 + 1)
    }

    fn triangle_count(self) -> u64 {
        2 * self.segments as u64
    }

    fn surface(self) -> Surface {
        Surface {
            split: Split::Ribbon,
            ending: Ending::Open,
            rows: self.segments as u32,
            round: Chain::Open,
            columns: 1,
        }
    }
}
