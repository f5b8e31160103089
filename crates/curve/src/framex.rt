ghost use Rattle.std.specs.Prelude.{◌≡◌};
ghost use Rattle.curve.specs.Framex.{carried_on, carried_to};

use vec3::{Frame, Point};

// `vtx2framex` of polyline3 and polyloop3, one segment at a time: a segment's frame, with its
// direction, which the next step needs again.
#[derive(Clone, Copy, Debug)]
pub struct Carried {
    pub frame: Frame,
    pub direction: Point,
}

impl Carried {
    // What is carried on the first segment, whose direction is `u`.
    #[tactic(auto, unfolding(crate::specs::Framex::carried_on))]
    pub fn first(u: Point) -> Carried
        ensures { result ≡ carried_on u }
    {
        Carried {
            frame: Frame::beside(u),
            direction: u,
        }
    }

    // The same on the next segment, whose direction is `w`.
    #[tactic(auto, unfolding(crate::specs::Framex::carried_to))]
    pub fn next(self, w: Point) -> Carried
        ensures { result ≡ carried_to self w }
    {
        Carried {
            frame: self.frame.transport(self.direction, w),
            direction: w,
        }
    }
}
