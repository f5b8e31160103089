ghost use Rattle.std.specs.Prelude.{◌≡◌, ◌*◌, ◌≤◌, length};
ghost use Rattle.laws.specs.Overwrite.{overwrite};
ghost use Rattle.laws.specs.Blocks.{blocks};
ghost use Rattle.vec3.specs.Points.{coordinates, point_in};
ghost use Rattle.rings.specs.Vertices.{ring_of, level_at};
ghost use Rattle.rings.specs.Rings.{ring_vertex};

use crate::turns::Turns;
use curve::put_point;
use rings::{Ring, level};
use vec3::Point;

// Writes four points one after the other to the front of `out`.
#[tactic(auto, using(laws::proofs::Overwrite::unwritten))]
fn put_four(out: &mut [f32], points: [Point; 4])
    requires { 12 ≤ length out.old }
    ensures { let four = blocks 4 (λ k. coordinates (point_in points k)) in
        out.new ≡ overwrite 0 four out.old }
{
    for k in 0..4 {
        put_point(out, 3 * k, points[k]);
    }
}

// Writes a ring to the front of `out`. Most of its vertices are written four at a time, which
// takes the processor less time than one by one.
#[tactic(auto, using(laws::proofs::Overwrite::unwritten))]
pub fn write_ring(out: &mut [f32], ring: Ring, turns: &Turns)
    requires { turns.now * 3 ≤ length out.old }
    ensures { out.new ≡ overwrite 0 (ring_of (ring_vertex ring) turns.now) out.old }
{
    let n = turns.divisions();
    let fours = n / 4;
    for block in 0..fours {
        put_four(&mut out[12 * block..], turns.four(ring, 4 * block));
    }
    for i in 4 * fours..n {
        put_point(out, 3 * i, turns.vertex(ring, i));
    }
}

// Writes a closed cylinder's ring at height `y` to the front of `out`. It has a loop of its own:
// one over a closure that gives the vertices would need as many lines for the closure's clauses.
// Radius and table go through the three functions of this body; a struct for the two would be
// made for it alone.
#[tactic(auto, using(laws::proofs::Overwrite::unwritten))]
pub(crate) fn write_level(out: &mut [f32], radius: f32, y: f32, turns: &Turns)
    requires { turns.now * 3 ≤ length out.old }
    ensures { out.new ≡ overwrite 0 (ring_of (level_at radius y) turns.now) out.old }
{
    for i in 0..turns.divisions() {
        put_point(out, 3 * i, level(radius, y, turns.direction(i)));
    }
}
