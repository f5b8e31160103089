// The cases, the same as in tests/src/cases.rs.
use kinds::{Capsule, ClosedCylinder, Ribbon, Topology, Torus, Tube};

// A body, and the number that its first vertex has.
#[derive(Clone, Copy, Debug)]
pub(crate) struct Case {
    pub body: Topology,
    pub first: u32,
}

pub(crate) const LISTS: [Case; 14] = [
    Case {
        body: Topology::Ribbon(Ribbon { segments: 1 }),
        first: 0,
    },
    Case {
        body: Topology::Ribbon(Ribbon { segments: 1 }),
        first: 1000,
    },
    Case {
        body: Topology::Ribbon(Ribbon { segments: 3 }),
        first: 1000,
    },
    Case {
        body: Topology::Tube(Tube {
            divisions: 3,
            segments: 1,
        }),
        first: 0,
    },
    Case {
        body: Topology::Tube(Tube {
            divisions: 3,
            segments: 1,
        }),
        first: 1000,
    },
    Case {
        body: Topology::Tube(Tube {
            divisions: 4,
            segments: 2,
        }),
        first: 1000,
    },
    Case {
        body: Topology::Capsule(Capsule {
            divisions: 3,
            longitudes: 1,
            segments: 1,
        }),
        first: 0,
    },
    Case {
        body: Topology::Capsule(Capsule {
            divisions: 3,
            longitudes: 0,
            segments: 3,
        }),
        first: 1000,
    },
    Case {
        body: Topology::Capsule(Capsule {
            divisions: 3,
            longitudes: 2,
            segments: 1,
        }),
        first: 1000,
    },
    Case {
        body: Topology::Torus(Torus {
            divisions: 3,
            vertices: 3,
        }),
        first: 0,
    },
    Case {
        body: Topology::Torus(Torus {
            divisions: 4,
            vertices: 3,
        }),
        first: 1000,
    },
    Case {
        body: Topology::ClosedCylinder(ClosedCylinder {
            divisions: 3,
            layers: 1,
        }),
        first: 0,
    },
    Case {
        body: Topology::ClosedCylinder(ClosedCylinder {
            divisions: 4,
            layers: 2,
        }),
        first: 1000,
    },
    Case {
        body: Topology::ClosedCylinder(ClosedCylinder {
            divisions: 3,
            layers: 1,
        }),
        first: 268435448,
    },
];

// The indices of the longest list: 24 triangles.
pub(crate) const MOST_INDICES: usize = 72;
