ghost use Rattle.kinds.specs.declared.topology.Topology.TheVariants as topology;

use crate::body::Body;
use crate::limits;
use crate::limits::{DIVISIONS, Range};
use surface::{Chain, Ending, Split, Surface};

// A closed cylinder, by the divisions round it and its layers.
#[derive(Clone, Copy, Debug, PartialEq, Eq)]
pub struct ClosedCylinder {
    pub divisions: u16,
    pub layers: u16,
}

impl ClosedCylinder {
    pub const DIVISIONS: Range = DIVISIONS;

    pub const LAYERS: Range = Range {
        least: 1,
        most: 4096,
    };

    // It has no curve: "closed cylinder 0" (document 01, refusal 10).
    pub const CURVE_VERTICES: Range = Range { least: 0, most: 0 };
}

impl Body for ClosedCylinder {
    ghost topology = { topology.ClosedCylinder };

    fn is_permitted(self) -> bool {
        Self::DIVISIONS.contains(self.divisions as usize)
            && Self::LAYERS.contains(self.layers as usize)
    }

    fn vertex_count(self) -> u64 {
        limits::product(self.divisions, self.layers as u32 + 1) + 2
    }

    fn triangle_count(self) -> u64 {
        2 * limits::product(self.divisions, self.layers as u32 + 1)
    }

    fn surface(self) -> Surface {
        Surface {
            split: Split::Capped,
            ending: Ending::Capped,
            rows: self.layers as u32,
            round: Chain::Closed,
            columns: self.divisions,
        }
    }
}
