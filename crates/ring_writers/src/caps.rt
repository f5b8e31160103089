ghost use Rattle.std.specs.Prelude.{◌≡◌, ◌+◌, ◌*◌, ◌≤◌, length};
ghost use Rattle.laws.specs.Overwrite.{overwrite};
ghost use Rattle.ring_writers.specs.Caps.{cap_rings, end_vertices};

use crate::ring_writer::write_ring;
use crate::turns::Turns;
use curve::put_point;
use rings::Cap;
use surface::End;

// Writes the rings of a capsule's cap to the front of `out`.
#[tactic(auto, using(laws::proofs::Overwrite::unwritten))]
fn write_cap(out: &mut [f32], cap: Cap, turns: &Turns)
    requires { cap.longitudes * (turns.now * 3) ≤ length out.old }
    ensures { let rings = cap_rings cap.end cap.axes cap.radius cap.longitudes turns.now in
        out.new ≡ overwrite 0 rings out.old }
{
    for j in 0..cap.longitudes {
        let place = j as usize * turns.ring_floats();
        write_ring(&mut out[place..], cap.ring(j), turns);
    }
}

// Writes what stands at an end of a capsule's curve to the front of `out`: at the first vertex the
// bottom pole, then the rings of the bottom cap; at the last the rings of the top cap, then the
// top pole.
pub fn write_end(out: &mut [f32], cap: Cap, turns: &Turns)
    requires { cap.longitudes * (turns.now * 3) + 3 ≤ length out.old }
    ensures { let vertices = end_vertices cap.end cap.axes cap.radius cap.longitudes turns.now in
        out.new ≡ overwrite 0 vertices out.old }
{
    match cap.end {
        End::Bottom => {
            put_point(out, 0, cap.pole());
            write_cap(&mut out[3..], cap, turns);
        }
        End::Top => {
            write_cap(out, cap, turns);
            let above = cap.longitudes as usize * turns.ring_floats();
            put_point(out, above, cap.pole());
        }
    }
}
