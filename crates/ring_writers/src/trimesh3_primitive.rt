ghost use Rattle.std.specs.Prelude.{◌≡◌, ◌+◌, ◌*◌, ◌≤◌, length};
ghost use Rattle.laws.specs.Overwrite.{overwrite};
ghost use Rattle.rings.specs.Vertices.{pole};
ghost use Rattle.ring_writers.specs.ClosedCylinder.{low_of, cylinder_rings, cylinder_vertices};

use crate::ring_writer::write_level;
use crate::turns::Turns;
use curve::put_point;
use vec3::Point;

// The height of the bottom: the cylinder stands on height 0, or is centred there.
#[tactic(auto, unfolding(crate::specs::ClosedCylinder::low_of))]
fn low(centred: bool, height: f32) -> f32
    ensures { result ≡ low_of centred height }
{
    if centred { -height * 0.5 } else { 0.0 }
}

// The pole at height `y`.
fn pole(y: f32) -> Point
    ensures { result ≡ pole y }
{
    Point { x: 0.0, y, z: 0.0 }
}

// Writes the rings 0 to `layers`, from the bottom up, to the front of `out`.
#[tactic(auto, using(laws::proofs::Overwrite::unwritten))]
fn write_levels(out: &mut [f32], radius: f32, low: f32, height: f32, layers: u16, turns: &Turns)
    requires layers_permitted { layers ≤ 4096 }
    requires room { (layers + 1) * (turns.now * 3) ≤ length out.old }
    ensures { out.new ≡ overwrite 0 (cylinder_rings radius low height layers turns.now) out.old }
{
    let step = height / layers as f32;
    for g in 0..layers + 1 {
        let y = low + step * g as f32;
        let place = g as usize * turns.ring_floats();
        write_level(&mut out[place..], radius, y, turns);
    }
}

// Writes the vertices to the front of `out`, from the directions round a ring.
fn write_cylinder(
    out: &mut [f32],
    radius: f32,
    height: f32,
    turns: &Turns,
    layers: u16,
    centred: bool,
)
    requires layers_permitted { layers ≤ 4096 }
    requires room { (layers + 1) * (turns.now * 3) + 6 ≤ length out.old }
    ensures { out.new
        ≡ overwrite 0 (cylinder_vertices radius height turns.now layers centred) out.old }
{
    let low = low(centred, height);
    put_point(out, 0, pole(low));
    write_levels(&mut out[3..], radius, low, height, layers, turns);
    let above = 3 + (layers as usize + 1) * turns.ring_floats();
    put_point(out, above, pole(low + height));
}

// Writes the vertices of a closed cylinder to the front of `out`: bottom pole, rings, top pole.
pub fn cylinder_closed_end_yup(
    out: &mut [f32],
    radius: f32,
    height: f32,
    n: u16,
    layers: u16,
    centred: bool,
)
    requires divisions_permitted { n ≤ 256 }
    requires layers_permitted { layers ≤ 4096 }
    requires room { (layers + 1) * (n * 3) + 6 ≤ length out.old }
    ensures { out.new
        ≡ overwrite 0 (cylinder_vertices radius height n layers centred) out.old }
{
    let mut turns = Turns::none();
    turns.fill(n);
    write_cylinder(out, radius, height, &turns, layers, centred);
}
