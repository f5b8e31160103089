ghost use Rattle.std.specs.Prelude.{◌≡◌, ◌<◌, ◌≤◌};
ghost use Rattle.vec3.specs.Turns.{part_of, sine_of, cosine_of, within_octant};
ghost use Rattle.vec3.specs.Turns.{in_octant, direction_of, turn_of};

// The cosine and the sine of an angle.
#[derive(Clone, Copy, Debug)]
pub struct Direction {
    pub cos: f32,
    pub sin: f32,
}

// How far into an octant, from the end where the angle is a multiple of a quarter turn.
#[tactic(auto, unfolding(crate::specs::Turns::part_of, crate::specs::Turns::fraction, crate::specs::Turns::whole))]
fn part(o: u32, r: u32, n: u32) -> f32
    requires { (r < n) × (n ≤ 16777216) }
    ensures { result ≡ part_of o r n }
{
    if o % 2 == 0 {
        return r as f32 / n as f32;
    }
    (n - r) as f32 / n as f32
}

// The sine of a, z being its square.
fn sine(a: f32, z: f32) -> f32
    ensures { result ≡ sine_of a z }
{
    a * (1.0 + z * (-1.0 / 6.0 + z * (1.0 / 120.0 + z * (-1.0 / 5040.0 + z * (1.0 / 362880.0)))))
}

// The cosine of an angle whose square is z.
fn cosine(z: f32) -> f32
    ensures { result ≡ cosine_of z }
{
    1.0 + z * (-1.0 / 2.0 + z * (1.0 / 24.0 + z * (-1.0 / 720.0 + z * (1.0 / 40320.0))))
}

// The cosine and the sine of an angle in the first octant, `y` of an eighth of a turn.
#[tactic(auto, unfolding(crate::specs::Turns::within_octant))]
pub fn within_octant(y: f32) -> Direction
    ensures { result ≡ within_octant y }
{
    let a = y * 0.785398163;
    let z = a * a;
    Direction {
        cos: cosine(z),
        sin: sine(a, z),
    }
}

// The pair of an angle's cosine and sine, as it stands in octant o. An octant stays a number: it
// is a quotient, and eight names for 0 to 7 would have to be made from it first.
#[tactic(auto, unfolding(crate::specs::Turns::in_octant))]
fn in_octant(o: u32, c: f32, s: f32) -> Direction
    requires { o < 8 }
    ensures { result ≡ in_octant o c s }
{
    match o {
        0 => Direction { cos: c, sin: s },
        1 => Direction { cos: s, sin: c },
        2 => Direction { cos: -s, sin: c },
        3 => Direction { cos: -c, sin: s },
        4 => Direction { cos: -c, sin: -s },
        5 => Direction { cos: -s, sin: -c },
        6 => Direction { cos: s, sin: -c },
        _ => Direction { cos: c, sin: -s },
    }
}

// The direction of k / n turn.
#[tactic(auto, unfolding(crate::specs::Turns::direction_of))]
fn direction_of(k: u32, n: u32) -> Direction
    requires { (k < n) × (n ≤ 16777216) }
    ensures { result ≡ direction_of k n }
{
    let o = 8 * k / n;
    let d = within_octant(part(o, 8 * k % n, n));
    in_octant(o, d.cos, d.sin)
}

// The direction of k / n turn, for k < n ≤ 2 ^ 24. For other k and n it answers the direction of
// no turn and not an Option, since C's functions have to answer a number for every k and n.
#[tactic(auto, unfolding(crate::specs::Turns::turn_of))]
pub fn turn(k: u32, n: u32) -> Direction
    ensures { result ≡ turn_of k n }
{
    if k < n && n <= 16777216 {
        return direction_of(k, n);
    }
    Direction { cos: 1.0, sin: 0.0 }
}
