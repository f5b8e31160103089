ghost use Rattle.std.specs.Prelude.{◌≡◌, ◌+◌, ◌-◌, ◌*◌, ◌≤◌, length};
ghost use Rattle.laws.specs.Overwrite.{overwrite};
ghost use Rattle.surface.specs.declared.caps.End.TheVariants.{Bottom};
ghost use Rattle.swept_bodies.specs.Tables.{EzTable};
ghost use Rattle.swept_bodies.specs.Swept.{end_part, end_floats, swept_floats, swept_vertices};

use crate::swept::Sweep;
use ring_writers::write_end;
use rings::{Axes, Cap};
use surface::End;
use vec3::Point;

// What stands at the two ends of a body, before and after the rings at the vertices between two
// segments. The `Ending` of surface says how the triangles end, this one which vertices stand
// there.
#[derive(Clone, Copy, Debug, PartialEq, Eq)]
pub(crate) enum Ending {
    // a tube: a ring at each end
    Rings,
    // a capsule: at each end a pole and the rings of a cap
    Caps { longitudes: u16 },
    // a torus: a ring at the first vertex, at which the loop also ends
    Joined,
}

impl Ending {
    // How many floats stand at the first vertex, of rings of `size` floats.
    fn first_floats(self, size: usize) -> usize
        requires { size ≤ 768 }
        ensures { result ≡ end_floats self Bottom size }
    {
        match self {
            Ending::Rings | Ending::Joined => size,
            Ending::Caps { longitudes } => 3 + longitudes as usize * size,
        }
    }

    // Writes what stands at an end, with the axes there, to the front of `out`.
    #[tactic(auto, using(laws::proofs::Overwrite::unwritten))]
    fn write(self, end: End, out: &mut [f32], sweep: &Sweep, axes: Axes)
        requires { end_floats self end (sweep.now.turns.now * 3) ≤ length out.old }
        ensures { let w = sweep.now in
            let part = end_part self end w.spine.segments.chain w.turns.now w.radius axes in
            out.new ≡ overwrite 0 part out.old }
    {
        match (self, end) {
            (Ending::Joined, End::Top) => {}
            (Ending::Rings | Ending::Joined, _) => sweep.write_ring(out, axes),
            (Ending::Caps { longitudes }, _) => {
                let cap = Cap {
                    end,
                    axes,
                    radius: sweep.radius,
                    longitudes,
                };
                write_end(out, cap, sweep.turns)
            }
        }
    }

    // Writes a body with these ends to the front of `out`: its first end, the rings at the
    // vertices between two segments, its last end. `ez` is the table of ez at those vertices.
    pub(crate) fn write_swept(self, out: &mut [f32], sweep: &Sweep, ez: &[Point])
        requires ez_table { let s = sweep.now.spine.segments in
            EzTable s.chain s.count s.curve.now ez.now }
        requires room { let m = sweep.now.spine.segments.count in
            swept_floats self (sweep.now.turns.now * 3) m ≤ length out.old }
        ensures { let s = sweep.now.spine.segments in
            let w = sweep.now in
            let body = swept_vertices self s.chain w.turns.now w.radius s.count s.curve.now in
            out.new ≡ overwrite 0 body out.old }
    {
        // Copied, so that the compiler need not read it again after each ring that it writes.
        let sweep = *sweep;
        let spine = sweep.spine;
        let m = spine.segments.count as usize;
        let size = sweep.turns.ring_floats();
        let inner = self.first_floats(size);
        let first = spine.first();
        self.write(End::Bottom, out, &sweep, spine.axes_on(0, first));
        let rest = &mut out[inner..];
        let last = spine.walk(first, rest, size, |g, carried, out| {
            let axes = Axes::at(spine.vertex(g), carried.frame, ez[g]);
            sweep.write_ring(out, axes);
        });
        let top = &mut out[inner + (m - 1) * size..];
        self.write(End::Top, top, &sweep, spine.axes_on(m, last));
    }
}
