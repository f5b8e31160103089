ghost use Rattle.std.specs.Prelude.{ℕ, ◌*◌, ◌<◌, get_or};
ghost use Rattle.std.specs.Float.{nan};
ghost use Rattle.twists.specs.Eighth.{Tabulates};
ghost use Rattle.twists.specs.Scores.{forward_score, place_score};

use crate::eighth::Eighth;
use crate::ends::Ends;
use crate::twist::Twist;

// How many scores are worked out at a time: those of the steps in an octant.
pub(crate) const OCTANT: usize = 512;

// Writes the score of each step of an octant, as `score` has it.
fn fill<F: Fn(usize) -> f32>(out: &mut [f32; OCTANT], score: F)
    requires { (j : ℕ) → j < 512 → F.pre score j }
    ensures { (j : ℕ) → j < 512 → F.post score j (get_or out.new j nan) }
{
    for j in 0..OCTANT {
        out[j] = score(j);
    }
}

impl Eighth<'_> {
    // Writes the scores of the 512 steps in an octant of the first half turn. Even octants go
    // through the table of an eighth forwards, odd ones backwards from its end. An octant stays a
    // number: its first step is 512 times it, and a part counts on from it.
    fn fill_octant(&self, ends: Ends, octant: u16, out: &mut [f32; OCTANT])
        requires { octant < 4 }
        ensures { Tabulates 512 (forward_score ends.c0 ends.s0 octant) out.new }
    {
        let Ends { c0, s0 } = ends;
        let cos = self.cos;
        let sin = self.sin;
        match octant {
            0 => fill(out, |j| c0 * cos[j] + s0 * sin[j]),
            1 => fill(out, |j| c0 * sin[OCTANT - j] + s0 * cos[OCTANT - j]),
            2 => fill(out, |j| -c0 * sin[j] + s0 * cos[j]),
            _ => fill(out, |j| -c0 * cos[OCTANT - j] + s0 * sin[OCTANT - j]),
        }
    }

    // Writes the scores of the 512 places from 512·part on. Parts 0 to 3 are the forward steps 0
    // to 2047, an octant each. Parts 4 to 7 are the backward steps 0 to 2047, which score as the
    // forward ones do with `s0` negated. Backward step 0 would be forward step 0 again, so its
    // place has forward step 2048, half a turn, instead. A part stays a number, as an octant does.
    pub(crate) fn fill_scores(&self, ends: Ends, part: u16, out: &mut [f32; OCTANT])
        requires { part < 8 }
        ensures { Tabulates 512 (place_score ends.c0 ends.s0 (512 * part)) out.new }
    {
        if part < 4 {
            self.fill_octant(ends, part, out);
            return;
        }
        let mirrored = Ends {
            s0: -ends.s0,
            ..ends
        };
        self.fill_octant(mirrored, part - 4, out);
        if part == 4 {
            out[0] = Twist::forward(2048).score(ends);
        }
    }
}
