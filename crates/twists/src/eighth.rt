ghost use Rattle.twists.specs.Eighth.{Tabulates, cosine_at, sine_at};

use vec3::within_octant;

// How many angles there are from 0 to an eighth of a turn, in steps of 1/4096 turn.
pub(crate) const EIGHTH: usize = 513;

// The cosines and the sines of these angles. Every direction of k/4096 turn is one of these pairs,
// with its numbers exchanged or negated. Two arrays and not one of pairs: from an array of
// pairs the scores took 1.5 times as long.
#[derive(Clone, Copy, Debug)]
pub(crate) struct Eighth<'a> {
    pub cos: &'a [f32; EIGHTH],
    pub sin: &'a [f32; EIGHTH],
    ghost cosines: { Tabulates 513 cosine_at cos.now },
    ghost sines: { Tabulates 513 sine_at sin.now },
}

// Fills both tables in place, so that none is copied.
pub(crate) fn fill_eighth(cos: &mut [f32; EIGHTH], sin: &mut [f32; EIGHTH])
    ensures cosines { Tabulates 513 cosine_at cos.new }
    ensures sines { Tabulates 513 sine_at sin.new }
{
    for i in 0..EIGHTH {
        let d = within_octant((8 * i) as f32 / 4096.0);
        cos[i] = d.cos;
        sin[i] = d.sin;
    }
}
