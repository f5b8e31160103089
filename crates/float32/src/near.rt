// The whole number nearest to a root: guessed, checked by comparing squares, and worked out from
// the root rounded down where the guess is wrong.
ghost use Rattle.std.specs.Prelude.{◌<◌, ◌^◌};
ghost use Rattle.float32.specs.Near.{Near};

// Approximates 2 ^ 29 + √z, rounded down to a multiple of 2 ^ -23, where z is the number from 1 to
// 4 whose bit pattern is that of 1 plus t · 2 ^ 29.
//
// A constant minus half the pattern of z is nearly the pattern of 1 / √z, and y is the number with
// it. So s = z · y is near √z, and d = s · y is near 1: a polynomial in d corrects s. At 2 ^ 29 a
// float's last digit stands for 2 ^ -23, so the last digits of the sum's pattern count such steps.
// What is added is half a step less than 2 ^ 29, which makes the sum round down.
//
// The constants were fitted outside. Nothing is promised of them: `near_root` checks the result.
pub(crate) fn guess(t: u64) -> f64
    requires { t < 2 ^ 24 }
{
    let b = t * 536870912 + 0x3ff0_0000_0000_0000;
    let y = f64::from_bits(0x5fe6_a840_0000_0000 - b / 2);
    let s = f64::from_bits(b) * y;
    let d = s * y;
    let u = (d - 3.0204603475409460717) * d + 1.6084860037819542911;
    s * 0.30048789806358582843 * ((u + (d + 1.0508324473926347629)) * u + 4.0030886002045186424)
        + 536870911.999999940395355224609375
}

// The whole number nearest to the root of n: the root rounded down, or the number after it.
fn by_floor(n: u64) -> u64
    requires { (0 < n) × (n < 2 ^ 48) }
    ensures { Near n result }
{
    let r = n.isqrt();
    if n <= r * r + r { r } else { r + 1 }
}

// The whole number nearest to the root of n, by the guess `d` of it. The last digits of the guess
// are a number q. If the root is within one of the middle between q and q + 1, the answer is the
// one of the two on the root's side of it. w is the square of that middle, less 1/4.
pub(crate) fn near_root(n: u64, d: f64) -> u64
    requires { (0 < n) × (n < 2 ^ 48) }
    ensures { Near n result }
{
    if d.is_nan() {
        return by_floor(n);
    }
    let q = d.to_bits() % 33554432;
    let w = q * q + q;
    if w < n + 2 * q && n <= w + 2 * q {
        if w < n {
            return q + 1;
        }
        return q;
    }
    by_floor(n)
}
