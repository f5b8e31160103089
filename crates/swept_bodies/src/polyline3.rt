ghost use Rattle.std.specs.Prelude.{◌≡◌, ◌+◌, ◌-◌, ◌*◌, ◌≤◌, length};
ghost use Rattle.laws.specs.Overwrite.{overwrite};
ghost use Rattle.curve.specs.Segments.{vertices_in};
ghost use Rattle.swept_bodies.specs.Polyline3.{ribbon_pair, ribbon_vertices, tube_vertices};
ghost use Rattle.swept_bodies.specs.Capsule.{CapsuleFits, capsule_vertices};
ghost use Rattle.swept_bodies.specs.Tables.{OpenCurve};
ghost use Rattle.swept_bodies.specs.Swept.{swept_floats, swept_vertices};
ghost use Rattle.surface.specs.declared.grid.Chain.TheVariants.{Open};

use crate::ending::Ending;
use crate::spine::Spine;
use crate::swept::Sweep;
use curve::put_point;
use ring_writers::Turns;
use surface::Chain;
use vec3::{Frame, Point};

// Writes the vertices of a body along an open curve, with the given ends, to the front of `out`.
// `ez` is scratch space, here and below: the core has no heap, and only `bodies` knows how long it
// must be.
//
// This function and those below, which have del-msh's names, take the curve and the table of its
// directions, and not a `Spine` in place of the two. That would be no plainer: each would still
// require that the spine is open, and `fill` of bodies, which calls them, would have to make a
// spine for five of its six kinds, since the curve of a closed cylinder has no segment. The
// functions with del-msh's names take a number of divisions, as those do, and make the table.
fn write_open(
    ending: Ending,
    out: &mut [f32],
    curve: &[f32],
    directions: &[Point],
    ez: &mut [Point],
    turns: &Turns,
    r: f32,
)
    requires open_curve { OpenCurve curve.now directions.now }
    requires ez_room { vertices_in curve.now - 1 ≤ length ez.old }
    requires room { let m = vertices_in curve.now - 1 in
        swept_floats ending (turns.now * 3) m ≤ length out.old }
    ensures { let c = curve.now in
        let body = swept_vertices ending Open turns.now r (vertices_in c - 1) c in
        out.new ≡ overwrite 0 body out.old }
{
    let spine = Spine::along(Chain::Open, curve, directions);
    spine.fill_framez(ez);
    let sweep = Sweep {
        spine,
        turns,
        radius: r,
    };
    ending.write_swept(out, &sweep, ez);
}

// Writes the vertices of a tube to the front of `out`. `ez` is scratch space.
#[tactic(auto, using(crate::proofs::Parts::tube_parts))]
pub fn set_vtx2xyz_for_generalized_cylinder_open_end(
    out: &mut [f32],
    curve: &[f32],
    directions: &[Point],
    ez: &mut [Point],
    n: u16,
    r: f32,
)
    requires open_curve { OpenCurve curve.now directions.now }
    requires ez_room { vertices_in curve.now - 1 ≤ length ez.old }
    requires divisions_permitted { n ≤ 256 }
    requires room { (vertices_in curve.now - 1 + 1) * (n * 3) ≤ length out.old }
    ensures { let c = curve.now in
        out.new ≡ overwrite 0 (tube_vertices n r (vertices_in c - 1) c) out.old }
{
    let mut turns = Turns::none();
    turns.fill(n);
    write_open(Ending::Rings, out, curve, directions, ez, &turns, r);
}

// Writes the vertices of a capsule to the front of `out`. `ez` is scratch space.
#[tactic(auto, using(crate::proofs::Parts::capsule_swept))]
pub fn to_trimesh3_capsule(
    out: &mut [f32],
    curve: &[f32],
    directions: &[Point],
    ez: &mut [Point],
    n: u16,
    longitudes: u16,
    r: f32,
)
    requires open_curve { OpenCurve curve.now directions.now }
    requires ez_room { vertices_in curve.now - 1 ≤ length ez.old }
    requires capsule_fits { let m = vertices_in curve.now - 1 in
        CapsuleFits m n longitudes (length out.old) }
    ensures { let c = curve.now in
        let body = capsule_vertices n longitudes r (vertices_in c - 1) c in
        out.new ≡ overwrite 0 body out.old }
{
    let mut turns = Turns::none();
    turns.fill(n);
    let ending = Ending::Caps { longitudes };
    write_open(ending, out, curve, directions, ez, &turns, r);
}

// Writes the two vertices of a ribbon at a vertex `p` of the curve to the front of `out`: `p`
// itself and the one that lies `width` beside it.
fn put_pair(out: &mut [f32], p: Point, frame: Frame, width: f32)
    requires { 6 ≤ length out.old }
    ensures { out.new ≡ overwrite 0 (ribbon_pair p frame width) out.old }
{
    put_point(out, 0, p);
    put_point(out, 3, p + frame.ex * width);
}

// Writes the vertices of a ribbon to the front of `out`.
pub fn to_trimesh3_ribbon(out: &mut [f32], curve: &[f32], directions: &[Point], width: f32)
    requires open_curve { OpenCurve curve.now directions.now }
    requires room { (vertices_in curve.now - 1 + 1) * 6 ≤ length out.old }
    ensures { let c = curve.now in
        out.new ≡ overwrite 0 (ribbon_vertices width (vertices_in c - 1) c) out.old }
{
    let spine = Spine::along(Chain::Open, curve, directions);
    let m = spine.segments.count as usize;
    let first = spine.first();
    put_pair(out, spine.vertex(0), first.frame, width);
    let inner = &mut out[6..];
    let last = spine.walk(first, inner, 6, |g, carried, out| {
        put_pair(out, spine.vertex(g), carried.frame, width);
    });
    put_pair(&mut out[m * 6..], spine.vertex(m), last.frame, width);
}
