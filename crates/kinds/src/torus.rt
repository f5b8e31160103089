ghost use Rattle.kinds.specs.declared.topology.Topology.TheVariants as topology;

use crate::body::Body;
use crate::limits;
use crate::limits::{DIVISIONS, Range};
use surface::{Chain, Ending, Split, Surface};

// A torus, by the divisions round it and the vertices of its closed curve.
#[derive(Clone, Copy, Debug, PartialEq, Eq)]
pub struct Torus {
    pub divisions: u16,
    pub vertices: u16,
}

impl Torus {
    pub const DIVISIONS: Range = DIVISIONS;

    pub const VERTICES: Range = Range {
        least: 3,
        most: 4096,
    };
}

impl Body for Torus {
    ghost topology = { topology.Torus };

    fn is_permitted(self) -> bool {
        Self::DIVISIONS.contains(self.divisions as usize)
            && Self::VERTICES.contains(self.vertices as usize)
    }

    fn vertex_count(self) -> u64 {
        limits::product(self.divisions, self.vertices as u32)
    }

    fn triangle_count(self) -> u64 {
        2 * limits::product(self.divisions, self.vertices as u32)
    }

    fn surface(self) -> Surface {
        Surface {
            split: Split::Torus,
            ending: Ending::Closed,
            rows: self.vertices as u32,
            round: Chain::Closed,
            columns: self.divisions,
        }
    }
}
