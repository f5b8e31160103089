ghost use Rattle.std.specs.Prelude.{◌≡◌, ◌*◌, ◌≤◌, length};
ghost use Rattle.laws.specs.Overwrite.{overwrite};
ghost use Rattle.curve.specs.Segments.{vertices_in};
ghost use Rattle.swept_bodies.specs.Polyloop3.{torus_vertices};
ghost use Rattle.swept_bodies.specs.Tables.{ClosedCurve};

use crate::ending::Ending;
use crate::spine::Spine;
use crate::swept::Sweep;
use ring_writers::Turns;
use surface::Chain;
use vec3::Point;

// Writes the vertices of a torus to the front of `out`. On a torus, ez at a vertex is the
// direction of the segment that leaves it, so the table of directions serves as the table of ez.
// Why it takes no `Spine` stands at `write_open` of polyline3.rt.
#[tactic(auto, using(crate::proofs::Parts::torus_parts))]
pub fn to_trimesh3_torus(out: &mut [f32], curve: &[f32], directions: &[Point], n: u16, r: f32)
    requires closed_curve { ClosedCurve curve.now directions.now }
    requires divisions_permitted { n ≤ 256 }
    requires room { vertices_in curve.now * (n * 3) ≤ length out.old }
    ensures { let c = curve.now in
        out.new ≡ overwrite 0 (torus_vertices n r (vertices_in c) c) out.old }
{
    let mut turns = Turns::none();
    turns.fill(n);
    let sweep = Sweep {
        spine: Spine::along(Chain::Closed, curve, directions),
        turns: &turns,
        radius: r,
    };
    Ending::Joined.write_swept(out, &sweep, directions);
}
