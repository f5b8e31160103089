// The square root, by the bit pattern of its argument.
ghost use Rattle.std.specs.Prelude.{◌≡◌, ◌+◌, ◌-◌, ◌<◌, ◌≤◌};
ghost use Rattle.std.specs.Float.{binary32};
ghost use Rattle.std.specs.Float.Ieee.{of_bits};
ghost use Rattle.float32.specs.Root.{root_of};
ghost use Rattle.float32.specs.Near.{RootBits};

use crate::near::{guess, near_root};

// The pattern of the root of m · 2 ^ (p - 298), for an m of 24 digits and p = 24 - o + 2k. The
// digits of the root are those of the root of m · 2 ^ (24 - o), and k gives its exponent.
fn root_bits(m: u64, o: u64, k: u32) -> u32
    requires { (8388608 ≤ m) × (m < 16777216) × (o ≤ 1) × (k ≤ 190) }
    ensures { RootBits m (24 - o + (k + k)) result }
{
    let h = o * 8388608;
    k * 8388608 + near_root(m * (16777216 - h), guess(m - h)) as u32
}

// The root of the value with the pattern b: a zero, or a number below the normal ones.
fn root_of_small(b: u32) -> f32
    requires { b < 0x0080_0000 }
    ensures { result ≡ root_of (of_bits binary32 b) }
{
    if b == 0 {
        return 0.0;
    }
    let z = b.leading_zeros() - 8;
    f32::from_bits(root_bits((b << z) as u64, ((z + 1) % 2) as u64, (126 - z) / 2))
}

// The root of the value with the pattern b: a normal number above zero.
fn root_of_normal(b: u32) -> f32
    requires { (0x0080_0000 ≤ b) × (b < 0x7f80_0000) }
    ensures { result ≡ root_of (of_bits binary32 b) }
{
    f32::from_bits(root_bits(
        (b % 8388608 + 8388608) as u64,
        (b / 8388608 % 2) as u64,
        (b / 8388608 + 125) / 2,
    ))
}

// The root of the value with the pattern b: -0, the infinity, or a number below zero.
fn root_of_rest(b: u32) -> f32
    requires { 0x7f80_0000 ≤ b }
    ensures { result ≡ root_of (of_bits binary32 b) }
{
    match b {
        0x8000_0000 => -0.0,
        0x7f80_0000 => f32::INFINITY,
        _ => f32::NAN,
    }
}

// IEEE 754's square root.
pub fn root(x: f32) -> f32
    ensures { result ≡ root_of x }
{
    // `to_bits` may not be called on a NaN, whose pattern is not known.
    if x.is_nan() {
        return x;
    }
    let b = x.to_bits();
    match b {
        0x0080_0000..0x7f80_0000 => root_of_normal(b),
        0..0x0080_0000 => root_of_small(b),
        _ => root_of_rest(b),
    }
}
