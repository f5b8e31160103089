ghost use Rattle.std.specs.Prelude.{◌≡◌};
ghost use Rattle.twists.specs.Chosen.{found_for};

use crate::eighth::{EIGHTH, Eighth, fill_eighth};
use crate::ends::Ends;
use crate::leader::Leader;
use crate::scores::OCTANT;
use crate::twist::{Twist, twist_at};

// What the search found: the twist, and whether c0, s0 and all scores are finite. The flag stands
// beside the twist, since the definitions name a twist for every loop, finite or not.
#[derive(Clone, Copy, Debug)]
pub struct Found {
    pub twist: Twist,
    pub finite: bool,
}

// Finds a twist with the greatest score for the ends of a loop. Tries all twists, 512 at a time.
pub fn search(ends: Ends) -> Found
    ensures { result ≡ found_for ends.c0 ends.s0 }
{
    let mut cos = [0.0f32; EIGHTH];
    let mut sin = [0.0f32; EIGHTH];
    fill_eighth(&mut cos, &mut sin);
    let eighth = Eighth {
        cos: &cos,
        sin: &sin,
    };
    let mut scores = [0.0f32; OCTANT];
    let mut leader = Leader {
        place: 0,
        score: Twist::forward(0).score(ends),
    };
    let mut finite = float32::is_finite(ends.c0) && float32::is_finite(ends.s0);
    for part in 0..8u16 {
        eighth.fill_scores(ends, part, &mut scores);
        leader = leader.after(512 * part, &scores);
        finite &= float32::are_finite(&scores);
    }
    Found {
        twist: twist_at(leader.place),
        finite,
    }
}
