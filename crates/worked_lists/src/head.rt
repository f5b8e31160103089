// The head line of a case.
use crate::cases::Case;
use descriptions::Kind;
use hex_lines::Words;
use kinds::Topology;
use std::fmt;

// The body's kind, then its divisions, its longitudes and its run: the segments of a ribbon, tube
// or capsule, the curve vertices of a torus, the layers of a closed cylinder. A size that the kind
// lacks is 0.
fn sizes(body: Topology) -> (Kind, [u16; 3]) {
    match body {
        Topology::Ribbon(k) => (Kind::Ribbon, [0, 0, k.segments]),
        Topology::Tube(k) => (Kind::Tube, [k.divisions, 0, k.segments]),
        Topology::Capsule(k) => (Kind::Capsule, [k.divisions, k.longitudes, k.segments]),
        Topology::Torus(k) => (Kind::Torus, [k.divisions, 0, k.vertices]),
        Topology::ClosedCylinder(k) => (Kind::ClosedCylinder, [k.divisions, 0, k.layers]),
    }
}

// The kind's name, the sizes, the first vertex and both counts.
impl fmt::Display for Case {
    fn fmt<W: fmt::Write>(&self, f: &mut fmt::Formatter<W>) -> fmt::Result {
        let Case { body, first } = *self;
        let (kind, sizes) = sizes(body);
        let vertices = body.vertex_count();
        let triangles = body.triangle_count();
        write!(
            f,
            "{kind} {} {first:08X} {vertices:08X} {triangles:08X}",
            Words(&sizes.map(u32::from))
        )
    }
}
