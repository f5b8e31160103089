// The cases, the same as in tests/src/cases.rs.
use descriptions::Description;

// The floats that have these bits.
macro_rules! floats {
    ($($word:literal),*) => { [$(f32::from_bits($word)),*] };
}

// A body by its description and the coordinates of its curve.
#[derive(Clone, Copy, Debug)]
pub(crate) struct Case {
    pub description: Description,
    pub curve: &'static [f32],
}

// Along z.
const ALONG_Z: [f32; 6] = floats![
    0x00000000, 0x00000000, 0x00000000, 0x00000000, 0x00000000, 0x3F800000
];

// Oblique, among zeros of both signs.
const OBLIQUE: [f32; 6] = floats![
    0x80000000, 0x00000000, 0x80000000, 0x40400000, 0x80000000, 0x40800000
];

// One bend at a right angle, zeros of both signs.
const ONE_BEND: [f32; 9] = floats![
    0x80000000, 0x00000000, 0x00000000, 0x40000000, 0x80000000, 0x00000000, 0x40000000, 0x00000000,
    0xBFC00000
];

// Two oblique bends, subnormal coordinates.
const TWO_BENDS: [f32; 12] = floats![
    0x00000000, 0x00000001, 0x80000000, 0x3F800000, 0x40000000, 0x3F000000, 0x40200000, 0x40000000,
    0xBF800000, 0x40400000, 0x80400000, 0x3E800000
];

// Three oblique bends.
const THREE_BENDS: [f32; 15] = floats![
    0x3DCCCCCD, 0xBE4CCCCD, 0x3E99999A, 0x3F8CCCCD, 0x3ECCCCCD, 0x3E99999A, 0x3FA66666, 0x3FD9999A,
    0xBF19999A, 0x3E4CCCCD, 0x40066666, 0xBFF33333, 0xBFB33333, 0x3F99999A, 0xBF333333
];

// Closed, a triangle.
const TRIANGLE: [f32; 9] = floats![
    0x3F800000, 0x00000000, 0x80000000, 0xBF000000, 0x3F400000, 0x00000003, 0xBF000000, 0xBF400000,
    0x3E800000
];

// Closed, four vertices in no plane.
const FOUR_CORNERS: [f32; 12] = floats![
    0x3F800000, 0x3DCCCCCD, 0x80000000, 0x00000000, 0x3F800000, 0x3F000000, 0xBF800000, 0x807FFFFF,
    0x00000000, 0xBE4CCCCD, 0xBF800000, 0xBF000000
];

pub(crate) const BODIES: [Case; 17] = [
    Case {
        description: Description::Ribbon {
            width: f32::from_bits(0x40000000),
        },
        curve: &ALONG_Z,
    },
    Case {
        description: Description::Ribbon {
            width: f32::from_bits(0x3F400000),
        },
        curve: &THREE_BENDS,
    },
    Case {
        description: Description::Tube {
            divisions: 3,
            radius: f32::from_bits(0x3F800000),
        },
        curve: &OBLIQUE,
    },
    Case {
        description: Description::Tube {
            divisions: 4,
            radius: f32::from_bits(0x00400000),
        },
        curve: &ONE_BEND,
    },
    Case {
        description: Description::Tube {
            divisions: 5,
            radius: f32::from_bits(0x3E800000),
        },
        curve: &TWO_BENDS,
    },
    Case {
        description: Description::Capsule {
            divisions: 3,
            longitudes: 1,
            radius: f32::from_bits(0x3F000000),
        },
        curve: &OBLIQUE,
    },
    Case {
        description: Description::Capsule {
            divisions: 4,
            longitudes: 0,
            radius: f32::from_bits(0x3F000000),
        },
        curve: &TWO_BENDS,
    },
    Case {
        description: Description::Capsule {
            divisions: 5,
            longitudes: 2,
            radius: f32::from_bits(0x3FA00000),
        },
        curve: &ONE_BEND,
    },
    Case {
        description: Description::Capsule {
            divisions: 3,
            longitudes: 2,
            radius: f32::from_bits(0x3E99999A),
        },
        curve: &THREE_BENDS,
    },
    Case {
        description: Description::Torus {
            divisions: 3,
            radius: f32::from_bits(0x3E000000),
        },
        curve: &TRIANGLE,
    },
    Case {
        description: Description::Torus {
            divisions: 5,
            radius: f32::from_bits(0x3E4CCCCD),
        },
        curve: &FOUR_CORNERS,
    },
    Case {
        description: Description::ClosedCylinder {
            divisions: 4,
            layers: 1,
            centred: false,
            radius: f32::from_bits(0x3F333333),
            length: f32::from_bits(0x3DCCCCCD),
        },
        curve: &[],
    },
    Case {
        description: Description::ClosedCylinder {
            divisions: 3,
            layers: 2,
            centred: true,
            radius: f32::from_bits(0x3FC00000),
            length: f32::from_bits(0x40400000),
        },
        curve: &[],
    },
    Case {
        description: Description::ClosedCylinder {
            divisions: 3,
            layers: 1,
            centred: true,
            radius: f32::from_bits(0x3F800000),
            length: f32::from_bits(0x00000001),
        },
        curve: &[],
    },
    // twists of no turn, of 128/4096 and of −60/4096 turn
    Case {
        description: Description::SeamlessTorus {
            divisions: 3,
            radius: f32::from_bits(0x3E000000),
        },
        curve: &TRIANGLE,
    },
    Case {
        description: Description::SeamlessTorus {
            divisions: 4,
            radius: f32::from_bits(0x3E800000),
        },
        curve: &TWO_BENDS,
    },
    Case {
        description: Description::SeamlessTorus {
            divisions: 5,
            radius: f32::from_bits(0x3E4CCCCD),
        },
        curve: &THREE_BENDS,
    },
];

// The coordinates of the largest body: 27 vertices.
pub(crate) const MOST_COORDINATES: usize = 81;
