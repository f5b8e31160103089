ghost use Rattle.std.specs.Prelude.{◌≡◌, not, ◌+◌, ◌≤◌, length, get_or};
ghost use Rattle.std.specs.Float.{nan};
ghost use Rattle.std.specs.Float.Ieee.{lt};
ghost use Rattle.laws.specs.Every.{every};

use crate::scores::OCTANT;

// Whether no score is above `most`. It looks at all of them: without an early exit the compiler
// tests four scores between two jumps.
fn is_none_above(scores: &[f32], most: f32) -> bool
    ensures { let list = scores.now in
        result ≡ every (length list) (λ i. not (lt most (get_or list i nan))) }
{
    scores
        .iter()
        .fold(true, |none, score| none & !(most < *score))
}

// The place and the score of the best twist so far.
#[derive(Clone, Copy, Debug)]
pub(crate) struct Leader {
    pub place: u16,
    pub score: f32,
}

impl Leader {
    ghost use Rattle.twists.specs.Leaders.{led_by};

    // The leader after the scores of the places from `base` on, tried one by one.
    fn after_each(self, base: u16, scores: &[f32]) -> Leader
        requires { base + length scores.now ≤ 4096 }
        ensures { result ≡ led_by scores.now base (length scores.now) self }
    {
        let mut leader = self;
        for (i, score) in scores.iter().enumerate() {
            if leader.score < *score {
                leader = Leader {
                    place: base + i as u16,
                    score: *score,
                };
            }
        }
        leader
    }

    // The same for 512 scores, in blocks of 32. A block without a score above the leader's is
    // skipped, since it changes nothing, and most blocks are such.
    pub(crate) fn after(self, base: u16, scores: &[f32; OCTANT]) -> Leader
        requires { base + 512 ≤ 4096 }
        ensures { result ≡ led_by scores.now base (length scores.now) self }
    {
        let mut leader = self;
        let (blocks, _) = scores.as_chunks::<32>();
        for (i, block) in blocks.iter().enumerate() {
            if !is_none_above(block, leader.score) {
                leader = leader.after_each(base + 32 * i as u16, block);
            }
        }
        leader
    }
}
