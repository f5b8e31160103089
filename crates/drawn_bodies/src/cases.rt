// The bodies that are loaded, the same as in tests/src/bin/neighbours.rs.
ghost use Rattle.std.specs.Prelude.{◌<◌};

use crate::generator::{Generator, eighths};
use descriptions::{Description, Kind, Sizes};
use std::array;

// A body in small numbers: its kind, its width, radius and length in eighths, the number of
// vertices of its curve and the seed from which the curve is drawn. `steps` are the longitudes of
// a capsule and the layers of a closed cylinder. A field that a kind does not have is ignored: one
// struct serves all kinds, as a record does. It holds the fields and no `Description`, since what
// an entry must have would then come from a match on the description, which is what is tested.
#[derive(Clone, Copy, Debug)]
pub struct Case {
    pub kind: Kind,
    pub divisions: u8,
    pub steps: u8,
    pub centred: bool,
    pub size: u8,
    pub length: u8,
    pub vertices: u8,
    pub seed: u32,
}

// A body between two others.
pub type Triple = [Case; 3];

// The kinds, in the order of their numbers.
const KINDS: [Kind; 6] = [
    Kind::Ribbon,
    Kind::Tube,
    Kind::Capsule,
    Kind::Torus,
    Kind::ClosedCylinder,
    Kind::SeamlessTorus,
];

impl Case {
    // The description of the body.
    pub(crate) fn describe(self) -> Description {
        Description::new(
            self.kind,
            Sizes {
                divisions: self.divisions.into(),
                steps: self.steps.into(),
                centred: self.centred,
                size: eighths(self.size),
                length: eighths(self.length),
            },
        )
    }

    // Whether its curve is closed: that of a torus, with or without a seam. This and the next two
    // say again what `Description` and `From<Kind>` say: those are tested, and neither the curve
    // that is drawn nor the kind and n that an entry must have may come from them.
    pub(crate) fn is_closed(self) -> bool {
        matches!(self.kind, Kind::Torus | Kind::SeamlessTorus)
    }

    // The kind's number in the body's entry.
    pub fn entry_kind(self) -> u32 {
        match self.kind {
            Kind::Ribbon => 1,
            Kind::Tube => 2,
            Kind::Capsule => 3,
            Kind::Torus => 4,
            Kind::ClosedCylinder => 5,
            Kind::SeamlessTorus => 6,
        }
    }

    // The n of the body's entry: 0 for a ribbon.
    pub fn entry_divisions(self) -> u32 {
        match self.kind {
            Kind::Ribbon => 0,
            _ => self.divisions.into(),
        }
    }

    // The small body of a kind at one of the three places. Each place has its own sizes and its
    // own curve.
    fn small(kind: Kind, place: u8) -> Case
        requires { place < 3 }
    {
        Case {
            kind,
            divisions: 3 + place,
            steps: 1 + place,
            centred: place == 1,
            size: 2 + place,
            length: 5 + place,
            vertices: if kind == Kind::ClosedCylinder {
                0
            } else {
                3 + place
            },
            seed: place.into(),
        }
    }

    // A body of any kind. The largest, a capsule of 22 divisions, 8 longitudes and 16 segments,
    // has 1,364 triangles, so three of them fit into the buffers.
    fn drawn(generator: &mut Generator) -> Case {
        let kind = KINDS[generator.below(6) as usize];
        let divisions = 3 + generator.below(20);
        let vertices = drawn_vertices(kind, generator);
        Case {
            kind,
            divisions,
            steps: drawn_steps(vertices, generator),
            centred: generator.below(2) == 1,
            size: 1 + generator.below(16),
            length: 1 + generator.below(16),
            vertices,
            seed: generator.0,
        }
    }
}

// The triple of kinds with this number, of the 216.
pub fn triple_of_kinds(number: u32) -> Triple {
    let kind = |n: u32| KINDS[(n % 6) as usize];
    [
        Case::small(kind(number / 36), 0),
        Case::small(kind(number / 6), 1),
        Case::small(kind(number), 2),
    ]
}

// A number of curve vertices that the kind permits, at most 17.
fn drawn_vertices(kind: Kind, generator: &mut Generator) -> u8 {
    let (least, count) = match kind {
        Kind::Ribbon | Kind::Tube | Kind::Capsule => (2, 16),
        Kind::Torus | Kind::SeamlessTorus => (3, 15),
        Kind::ClosedCylinder => (0, 1),
    };
    least + generator.below(count)
}

// A number of longitudes or layers. It is 0 only where the curve is long enough for a capsule with
// no longitudes.
fn drawn_steps(vertices: u8, generator: &mut Generator) -> u8 {
    if vertices < 4 {
        1 + generator.below(8)
    } else {
        generator.below(9)
    }
}

// Triples of three bodies, each drawn where the generator came to with the one before. There is no
// end of them.
#[derive(Clone, Copy, Debug)]
pub struct DrawnTriples(pub Generator);

impl Iterator for DrawnTriples {
    type Item = Triple;

    fn next(&mut self) -> Option<Triple> {
        Some(array::from_fn(|_| Case::drawn(&mut self.0)))
    }
}
