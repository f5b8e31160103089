// The cases, the same as in tests/src/cases.rs.
use crate::bits::Bits;

// Bits of the numbers whose roots are worked out.
pub(crate) const ROOTS: [u32; 64] = [
    // both zeros
    0x00000000, 0x80000000,
    // subnormals: the smallest, both sides of 9 * 2^-140, the largest
    0x00000001, 0x00000002, 0x00000003, 0x00000004, 0x000011FF, 0x00001200, 0x00001201, 0x003FFFFF,
    0x00400000, 0x007FFFFE, 0x007FFFFF,
    // the smallest normals and the next binade
    0x00800000, 0x00800001, 0x00FFFFFF, 0x01000000,
    // 2^-24, 1/4, 1/2
    0x33800000, 0x3E800000, 0x3F000000,
    // round 1, 2, 3, 4, 9, 10, 100
    0x3F7FFFFF, 0x3F800000, 0x3F800002, 0x3FFFFFFF, 0x40000000, 0x40000001, 0x40400000, 0x40800000,
    0x40800001, 0x410FFFFF, 0x41100000, 0x41100001, 0x41200000, 0x42C7FFFF, 0x42C80000, 0x42C80001,
    // nearest below the middle of two f32, then nearest above it
    0x3F800001, 0x407FFFFF, 0x3F800003, 0x3FB0C6C3, 0x3FFC114A, 0x3F925859, 0x406E9372, 0x405AE03B,
    // round 2049^2, 4095^2 and 2^24
    0x4A802002, 0x4B7FE000, 0x4B7FE001, 0x4B7FE002, 0x4B800000, 0x4B800001,
    // the largest numbers and +infinity
    0x7E800000, 0x7F000000, 0x7F7FFFFE, 0x7F7FFFFF, 0x7F800000,
    // negative numbers and -infinity
    0x80000001, 0x80800000, 0xBF800000, 0xFF7FFFFF, 0xFF800000,
    // NaNs: quiet, signalling, both signs
    0x7FC00000, 0x7F800001, 0xFFC00000, 0xFFFFFFFF,
];

// k and n, where the direction of k / n turn is worked out.
#[derive(Clone, Copy, Debug)]
pub(crate) struct Turn(pub u32, pub u32);

pub(crate) const TURNS: [Turn; 45] = [
    Turn(0, 1),
    Turn(0, 2),
    Turn(1, 2),
    Turn(0, 3),
    Turn(1, 3),
    Turn(2, 3),
    Turn(0, 4),
    Turn(1, 4),
    Turn(2, 4),
    Turn(3, 4),
    Turn(0, 8),
    Turn(1, 8),
    Turn(2, 8),
    Turn(3, 8),
    Turn(4, 8),
    Turn(5, 8),
    Turn(6, 8),
    Turn(7, 8),
    Turn(1, 5),
    Turn(3, 7),
    Turn(5, 11),
    Turn(1, 256),
    Turn(31, 256),
    Turn(32, 256),
    Turn(33, 256),
    Turn(100, 256),
    Turn(255, 256),
    Turn(1, 16777215),
    Turn(8388607, 16777215),
    Turn(16777214, 16777215),
    Turn(1, 16777216),
    Turn(2097151, 16777216),
    Turn(2097152, 16777216),
    Turn(2097153, 16777216),
    Turn(16777215, 16777216),
    // outside: k not below n, n of 0, n above 2^24, products that wrap
    Turn(1, 1),
    Turn(8, 8),
    Turn(0, 0),
    Turn(1, 0),
    Turn(16777216, 16777216),
    Turn(0, 16777217),
    Turn(16777216, 16777217),
    Turn(536870912, 8),
    Turn(4294967295, 4294967295),
    Turn(0, 4294967295),
];

// Bits of directions whose first frame is worked out.
pub(crate) const FIRST_FRAMES: [Bits; 31] = [
    // the axes, both ways
    Bits([0x3F800000, 0x00000000, 0x00000000]),
    Bits([0xBF800000, 0x00000000, 0x00000000]),
    Bits([0x00000000, 0x3F800000, 0x00000000]),
    Bits([0x00000000, 0xBF800000, 0x00000000]),
    Bits([0x00000000, 0x00000000, 0x3F800000]),
    Bits([0x00000000, 0x00000000, 0xBF800000]),
    // the axes among zeros of both signs
    Bits([0x3F800000, 0x80000000, 0x80000000]),
    Bits([0xBF800000, 0x00000000, 0x80000000]),
    Bits([0x80000000, 0x3F800000, 0x00000000]),
    Bits([0x00000000, 0x3F800000, 0x80000000]),
    Bits([0x80000000, 0xBF800000, 0x80000000]),
    Bits([0x80000000, 0x80000000, 0x3F800000]),
    Bits([0x80000000, 0x00000000, 0xBF800000]),
    // exactly 2^-4, then the next number, which is below it: along x and along z
    Bits([0x3F800000, 0x4077DEF6, 0x00000000]),
    Bits([0x3F800000, 0x4077DEF7, 0x00000000]),
    Bits([0x80000000, 0x4077DEF6, 0x3F800000]),
    Bits([0x80000000, 0x4077DEF7, 0x3F800000]),
    Bits([0x00000000, 0xBF77DEF6, 0xBE800000]),
    Bits([0x00000000, 0xBF77DEF7, 0xBE800000]),
    // above and below it with no zero
    Bits([0xBF800000, 0x410A9066, 0x40000000]),
    Bits([0xBF800000, 0x410A9067, 0x40000000]),
    // oblique
    Bits([0x40400000, 0x00000000, 0x40800000]),
    Bits([0x00000000, 0x40400000, 0xC0800000]),
    Bits([0x3F800000, 0x40000000, 0x40400000]),
    Bits([0xC0400000, 0x3F000000, 0x3E800000]),
    // the shortest and longest accepted segments: 2^-20 and 2^40
    Bits([0x35800000, 0x00000000, 0x00000000]),
    Bits([0x00000000, 0xB5800000, 0x00000000]),
    Bits([0x53800000, 0x80000000, 0x00000000]),
    Bits([0x00000000, 0x53800000, 0x00000000]),
    // no direction: the norm is +0
    Bits([0x00000000, 0x00000000, 0x00000000]),
    Bits([0x0DA24260, 0x00000000, 0x00000000]),
];

// The frame is transported from the segment before to the segment after. Both segments are
// normalised first, the frame is taken as it is.
#[derive(Clone, Copy, Debug)]
pub(crate) struct TransportStep {
    pub before: Bits,
    pub after: Bits,
    pub frame: Bits,
}

pub(crate) const TRANSPORT_STEPS: [TransportStep; 25] = [
    // straight on: along z, with another length, among zeros of both signs, oblique
    TransportStep {
        before: Bits([0x00000000, 0x00000000, 0x3F800000]),
        after: Bits([0x00000000, 0x00000000, 0x3F800000]),
        frame: Bits([0x3F800000, 0x00000000, 0x00000000]),
    },
    TransportStep {
        before: Bits([0x00000000, 0x00000000, 0x40000000]),
        after: Bits([0x00000000, 0x00000000, 0x3F000000]),
        frame: Bits([0x00000000, 0x3F800000, 0x00000000]),
    },
    TransportStep {
        before: Bits([0x80000000, 0x00000000, 0x3F800000]),
        after: Bits([0x00000000, 0x80000000, 0x3F800000]),
        frame: Bits([0x3F800000, 0x80000000, 0x80000000]),
    },
    TransportStep {
        before: Bits([0x00000000, 0x80000000, 0x3F800000]),
        after: Bits([0x80000000, 0x80000000, 0x3F800000]),
        frame: Bits([0x80000000, 0xBF800000, 0x80000000]),
    },
    TransportStep {
        before: Bits([0x3F800000, 0x40000000, 0x40400000]),
        after: Bits([0x40000000, 0x40800000, 0x40C00000]),
        frame: Bits([0x3F72DCE9, 0x00000000, 0xBEA1E89C]),
    },
    // right angles: z to x, z to y, x to y, y to z, y to minus x, x to minus z
    TransportStep {
        before: Bits([0x00000000, 0x00000000, 0x3F800000]),
        after: Bits([0x3F800000, 0x00000000, 0x00000000]),
        frame: Bits([0x3F800000, 0x00000000, 0x00000000]),
    },
    TransportStep {
        before: Bits([0x00000000, 0x00000000, 0x3F800000]),
        after: Bits([0x3F800000, 0x00000000, 0x00000000]),
        frame: Bits([0x00000000, 0x3F800000, 0x00000000]),
    },
    TransportStep {
        before: Bits([0x00000000, 0x00000000, 0x3F800000]),
        after: Bits([0x00000000, 0x3F800000, 0x00000000]),
        frame: Bits([0x3F800000, 0x00000000, 0x80000000]),
    },
    TransportStep {
        before: Bits([0x3F800000, 0x00000000, 0x00000000]),
        after: Bits([0x00000000, 0x3F800000, 0x00000000]),
        frame: Bits([0x00000000, 0x00000000, 0xBF800000]),
    },
    TransportStep {
        before: Bits([0x00000000, 0x3F800000, 0x00000000]),
        after: Bits([0x00000000, 0x00000000, 0x3F800000]),
        frame: Bits([0x00000000, 0x80000000, 0x3F800000]),
    },
    TransportStep {
        before: Bits([0x80000000, 0x3F800000, 0x80000000]),
        after: Bits([0xBF800000, 0x80000000, 0x00000000]),
        frame: Bits([0x80000000, 0x80000000, 0x3F800000]),
    },
    TransportStep {
        before: Bits([0x3F800000, 0x80000000, 0x00000000]),
        after: Bits([0x80000000, 0x00000000, 0xBF800000]),
        frame: Bits([0x80000000, 0x3F800000, 0x80000000]),
    },
    // an eighth of a turn, and three
    TransportStep {
        before: Bits([0x00000000, 0x00000000, 0x3F800000]),
        after: Bits([0x00000000, 0x3F800000, 0x3F800000]),
        frame: Bits([0x3F800000, 0x00000000, 0x00000000]),
    },
    TransportStep {
        before: Bits([0x00000000, 0x00000000, 0x3F800000]),
        after: Bits([0x3F800000, 0x00000000, 0x3F800000]),
        frame: Bits([0x3F800000, 0x00000000, 0x80000000]),
    },
    TransportStep {
        before: Bits([0x00000000, 0x00000000, 0x3F800000]),
        after: Bits([0x00000000, 0xBF800000, 0xBF800000]),
        frame: Bits([0x00000000, 0x3F800000, 0x00000000]),
    },
    // oblique: with the first frame, with a frame that is no unit vector
    TransportStep {
        before: Bits([0x3F800000, 0x40000000, 0x40400000]),
        after: Bits([0x40400000, 0xBF800000, 0x40000000]),
        frame: Bits([0x3F72DCE9, 0x00000000, 0xBEA1E89C]),
    },
    TransportStep {
        before: Bits([0x40400000, 0xBF800000, 0x40000000]),
        after: Bits([0xC0400000, 0x3F000000, 0x3E800000]),
        frame: Bits([0x40200000, 0xBF800000, 0x3E800000]),
    },
    // nearest fold that is accepted: 1 + c is 2^-12, with frames along x, y and both
    TransportStep {
        before: Bits([0x00000000, 0x00000000, 0x3F800000]),
        after: Bits([0x3D07C95F, 0x00000000, 0xBFC00000]),
        frame: Bits([0x3F800000, 0x00000000, 0x00000000]),
    },
    TransportStep {
        before: Bits([0x00000000, 0x00000000, 0x3F800000]),
        after: Bits([0x3D07C95F, 0x00000000, 0xBFC00000]),
        frame: Bits([0x00000000, 0x3F800000, 0x00000000]),
    },
    TransportStep {
        before: Bits([0x00000000, 0x00000000, 0x3F800000]),
        after: Bits([0x3D07C95F, 0x80000000, 0xBFC00000]),
        frame: Bits([0x3F3504F3, 0xBF3504F3, 0x80000000]),
    },
    // next number: the fold is refused, the step is defined all the same
    TransportStep {
        before: Bits([0x00000000, 0x00000000, 0x3F800000]),
        after: Bits([0x3D07C95E, 0x00000000, 0xBFC00000]),
        frame: Bits([0x3F800000, 0x00000000, 0x00000000]),
    },
    // the least turn: one unit of a component
    TransportStep {
        before: Bits([0x00000000, 0x00000000, 0x3F800000]),
        after: Bits([0x00000001, 0x00000000, 0x3F800000]),
        frame: Bits([0x3F800000, 0x00000000, 0x00000000]),
    },
    TransportStep {
        before: Bits([0x3F800000, 0x3F800000, 0x3F800000]),
        after: Bits([0x3F800000, 0x3F800001, 0x3F800000]),
        frame: Bits([0x3F3504F3, 0x80000000, 0xBF3504F3]),
    },
    // back onto itself: 1 + c is +0
    TransportStep {
        before: Bits([0x00000000, 0x00000000, 0x3F800000]),
        after: Bits([0x00000000, 0x00000000, 0xBF800000]),
        frame: Bits([0x3F800000, 0x00000000, 0x00000000]),
    },
    TransportStep {
        before: Bits([0x3F800000, 0x00000000, 0x00000000]),
        after: Bits([0xBF800000, 0x38D1B717, 0x00000000]),
        frame: Bits([0x00000000, 0x00000000, 0x3F800000]),
    },
];
