// Bodies alone.
use crate::cases::Case;
use crate::curves::COORDINATES;
use answers::Refusal;
use descriptions::Counts;
use float32::to_word;

// The most vertices and the most triangles of a body: three such bodies fit into the buffers.
const MOST: u32 = 1365;

// Room for the coordinates of that many vertices.
const ELEMENTS: usize = 3 * MOST as usize;

// A body by itself: the bits of its coordinates and its triangles, each at the front of the room
// for them, and how many vertices and triangles they are. These are arrays with counts beside
// them, since the programs allocate nothing.
#[derive(Clone, Copy, Debug)]
pub struct Alone {
    pub coordinates: [u32; ELEMENTS],
    pub triangles: [u32; ELEMENTS],
    pub counts: Counts,
}

impl Alone {
    // No body.
    pub const NONE: Alone = Alone {
        coordinates: [0; ELEMENTS],
        triangles: [0; ELEMENTS],
        counts: Counts {
            vertices: 0,
            triangles: 0,
        },
    };
}

impl Case {
    // Writes the case's body to the fronts of the slices, unless it is refused, and answers how
    // many vertices and triangles it has: none where either are more than `MOST`.
    fn write(self, vertices: &mut [f32], triangles: &mut [u32]) -> Result<Counts, Refusal> {
        let mut space = [0f32; COORDINATES];
        let description = self.describe();
        let curve = self.curve(&mut space);
        let body = bodies::check(description, curve)?;
        bodies::write_vertices(description, curve, vertices);
        body.write_triangles(0, triangles);
        let counts = description.counts(curve.len() / 3)?;
        if counts.vertices > MOST || counts.triangles > MOST {
            return Ok(Counts::default());
        }
        Ok(counts)
    }

    // Writes the case's body alone to `alone`. Where it is refused there is none of it, and where
    // there is too little room nothing is written: the comparison with the set will differ. It is
    // written where it lies, since the arrays take longer to hand over than to fill.
    pub fn write_alone(self, alone: &mut Alone) {
        let mut vertices = [0f32; ELEMENTS];
        alone.counts = self
            .write(&mut vertices, &mut alone.triangles)
            .unwrap_or_default();
        for (word, x) in alone.coordinates.iter_mut().zip(&vertices) {
            *word = to_word(*x);
        }
    }

    // The case's body alone.
    pub fn alone(self) -> Alone {
        let mut alone = Alone::NONE;
        self.write_alone(&mut alone);
        alone
    }
}
