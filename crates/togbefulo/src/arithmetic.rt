// Arithmetic: the square root, finiteness, bit patterns and directions, defined for every
// argument.
ghost use Rattle.std.specs.Prelude.{◌≡◌};
ghost use Rattle.std.specs.Float.{binary32};
ghost use Rattle.std.specs.Float.Ieee.{of_bits, to_bits};
ghost use Rattle.std.specs.Float.Ieee.Scale.{finite};
ghost use Rattle.float32.specs.Root.{root_of};
ghost use Rattle.float32.specs.Scan.{all_finite};
ghost use Rattle.vec3.specs.Turns.{turn_of};

// IEEE 754's square root.
#[unsafe(no_mangle)]
pub extern "C" fn togbefulo_root(x: f32) -> f32
    ensures { result ≡ root_of x }
{
    float32::root(x)
}

// Neither an infinity nor a NaN.
#[unsafe(no_mangle)]
pub extern "C" fn togbefulo_is_finite(x: f32) -> bool
    ensures { result ≡ finite x }
{
    float32::is_finite(x)
}

// Whether every value is finite.
#[unsafe(no_mangle)]
pub extern "C" fn togbefulo_are_finite(values: &[f32]) -> bool
    ensures { result ≡ all_finite values.now }
{
    float32::are_finite(values)
}

// The bit pattern of x, the same one for all NaNs.
#[unsafe(no_mangle)]
pub extern "C" fn togbefulo_to_word(x: f32) -> u32
    ensures { result ≡ to_bits binary32 x }
{
    float32::to_word(x)
}

// The value with the bit pattern w.
#[unsafe(no_mangle)]
pub extern "C" fn togbefulo_from_word(w: u32) -> f32
    ensures { result ≡ of_bits binary32 w }
{
    float32::from_word(w)
}

// The cosine of k / n turn if k < n ≤ 2 ^ 24, and otherwise of no turn. A C function hands back
// one number, so the sine has a function of its own.
#[unsafe(no_mangle)]
pub extern "C" fn togbefulo_turn_cos(k: u32, n: u32) -> f32
    ensures { result ≡ (turn_of k n).cos }
{
    vec3::turn(k, n).cos
}

// The sine of k / n turn if k < n ≤ 2 ^ 24, and otherwise of no turn.
#[unsafe(no_mangle)]
pub extern "C" fn togbefulo_turn_sin(k: u32, n: u32) -> f32
    ensures { result ≡ (turn_of k n).sin }
{
    vec3::turn(k, n).sin
}
