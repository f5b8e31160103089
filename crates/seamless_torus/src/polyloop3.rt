ghost use Rattle.std.specs.Prelude.{◌≡◌, ◌*◌, ◌≤◌, length};
ghost use Rattle.laws.specs.Overwrite.{overwrite};
ghost use Rattle.curve.specs.Segments.{vertices_in};
ghost use Rattle.surface.specs.declared.grid.Chain.TheVariants.{Closed};
ghost use Rattle.swept_bodies.specs.Tables.{ClosedCurve};
ghost use Rattle.twists.specs.Chosen.{found_for};
ghost use Rattle.seamless_torus.specs.Frames.{FrameTable};
ghost use Rattle.seamless_torus.specs.Polyloop3.{ends_of, ends_finite, twist_of};
ghost use Rattle.seamless_torus.specs.Polyloop3.{drawn_radius, seamless_vertices};

use crate::frames::{ends_at, fill_frames};
use ring_writers::Turns;
use rings::Axes;
use surface::Chain;
use swept_bodies::{Spine, Sweep};
use twists::{Found, Twist, search, twisted};
use vec3::{Frame, Point};

// Fills the table of frames and finds the twist of the loop.
fn find_twist(spine: &Spine, frames: &mut [Point]) -> Found
    requires on_loop { spine.now.segments.chain ≡ Closed }
    requires frames_room { spine.now.segments.count ≤ length frames.old }
    ensures found { let ends = ends_of spine.now.segments.count spine.now.segments.curve.now in
        result ≡ found_for ends.c0 ends.s0 }
    ensures frame_table { let s = spine.now.segments in
        FrameTable s.count s.curve.now frames.new }
{
    let last = fill_frames(spine, frames);
    let first = Frame { ex: frames[0] };
    search(ends_at(last, spine.direction(0), first))
}

// Writes the rings at all vertices of the loop, from the table of the frames that were carried
// along it.
#[tactic(auto, using(laws::proofs::Overwrite::unwritten))]
fn write_rings(out: &mut [f32], sweep: &Sweep, frames: &[Point], twist: Twist)
    requires on_loop { sweep.now.spine.segments.chain ≡ Closed }
    requires frame_table { let s = sweep.now.spine.segments in
        FrameTable s.count s.curve.now frames.now }
    requires room { sweep.now.spine.segments.count * (sweep.now.turns.now * 3) ≤ length out.old }
    ensures { let s = sweep.now.spine.segments in
        let w = sweep.now in
        let rings = seamless_vertices twist w.turns.now w.radius s.count s.curve.now in
        out.new ≡ overwrite 0 rings out.old }
{
    // Copied, so that the compiler need not read it again after each ring that it writes.
    let sweep = *sweep;
    let spine = sweep.spine;
    let size = sweep.turns.ring_floats();
    let count = spine.segments.count;
    for g in 0..count {
        let k = g as usize;
        let carried = Frame { ex: frames[k] };
        let ez = spine.direction(k);
        let frame = twisted(carried, ez, twist.share(g, count));
        sweep.write_ring(&mut out[k * size..], Axes::at(spine.vertex(k), frame, ez));
    }
}

// The radius that the vertices are written with: a NaN where c0, s0 or a score is not finite, so
// that no vertex is finite, which is refused (23).
fn drawn_radius(radius: f32, finite: bool) -> f32
    ensures { result ≡ drawn_radius radius finite }
{
    if finite { radius } else { f32::NAN }
}

// Writes the vertices of a seamless torus to the front of `out`. `frames` is scratch space, lent
// since the core has no heap. Why it takes no `Spine` stands at `write_open` of swept_bodies.
pub fn to_trimesh3_seamless_torus(
    out: &mut [f32],
    curve: &[f32],
    directions: &[Point],
    frames: &mut [Point],
    n: u16,
    r: f32,
)
    requires closed_curve { ClosedCurve curve.now directions.now }
    requires frames_room { vertices_in curve.now ≤ length frames.old }
    requires divisions_permitted { n ≤ 256 }
    requires room { vertices_in curve.now * (n * 3) ≤ length out.old }
    ensures { let c = curve.now in
        let N = vertices_in c in
        let radius = drawn_radius r (ends_finite N c) in
        out.new ≡ overwrite 0 (seamless_vertices (twist_of N c) n radius N c) out.old }
{
    let spine = Spine::along(Chain::Closed, curve, directions);
    let found = find_twist(&spine, frames);
    let mut turns = Turns::none();
    turns.fill(n);
    let sweep = Sweep {
        spine,
        turns: &turns,
        radius: drawn_radius(r, found.finite),
    };
    write_rings(out, &sweep, frames, found.twist);
}
