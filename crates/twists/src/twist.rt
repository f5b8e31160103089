ghost use Rattle.std.specs.Prelude.{◌≡◌};
ghost use Rattle.twists.specs.Twists.{signed, twisted_frame, twist_at};

use crate::ends::Ends;
use vec3::{Direction, Frame, Point, turn};

// The twist of k/4096 turn: `steps` is the magnitude of k, and `backward` says that k is negative.
// Not one signed number: the direction of k is that of its magnitude, with the sine's sign changed
// for a negative k.
#[derive(Clone, Copy, Debug, PartialEq, Eq)]
pub struct Twist {
    pub steps: u16,
    pub backward: bool,
}

// Negates the sine of a direction for a negative k.
#[tactic(auto, unfolding(crate::specs::Twists::signed))]
fn signed(backward: bool, d: Direction) -> Direction
    ensures { result ≡ signed backward d }
{
    if backward {
        return Direction { sin: -d.sin, ..d };
    }
    d
}

// The twist that the search tries at place `i` of 4,096: 0 to 2048, then −1 to −2047.
#[tactic(auto, unfolding(crate::specs::Twists::twist_at))]
pub(crate) fn twist_at(i: u16) -> Twist
    ensures { result ≡ twist_at i }
{
    if i <= 2048 {
        return Twist::forward(i);
    }
    Twist {
        steps: i - 2048,
        backward: true,
    }
}

impl Twist {
    ghost use Rattle.twists.specs.Twists.{forward, score_of, share_of};

    // The twist of a k that is not negative.
    pub(crate) fn forward(steps: u16) -> Twist
        ensures { result ≡ forward steps }
    {
        Twist {
            steps,
            backward: false,
        }
    }

    // The score of the twist: how far it turns the first frame towards the last.
    #[tactic(auto, unfolding(crate::specs::Twists::score_of, crate::specs::Twists::twist_direction))]
    pub(crate) fn score(self, ends: Ends) -> f32
        ensures { result ≡ score_of ends.c0 ends.s0 self }
    {
        let d = signed(self.backward, turn(self.steps as u32, 4096));
        ends.c0 * d.cos + ends.s0 * d.sin
    }

    // The share of the twist at vertex `j` of a loop of `vertices`: k·j/(4096·vertices) turn.
    #[tactic(auto, unfolding(crate::specs::Twists::share_of))]
    pub fn share(self, j: u16, vertices: u16) -> Direction
        ensures { result ≡ share_of self j vertices }
    {
        let t = turn(self.steps as u32 * j as u32, 4096 * vertices as u32);
        signed(self.backward, t)
    }
}

// The frame of a segment along `u`, turned about it by a share of the twist. A share of no turn
// gives the axis across `u` and the frame.
#[tactic(auto, unfolding(crate::specs::Twists::twisted_frame))]
pub fn twisted(frame: Frame, u: Point, share: Direction) -> Frame
    ensures { result ≡ twisted_frame frame u share }
{
    let ex = frame.ex;
    Frame {
        ex: ex * share.sin + u.cross(ex) * share.cos,
    }
}
