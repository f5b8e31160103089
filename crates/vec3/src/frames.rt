ghost use Rattle.std.specs.Prelude.{◌≡◌};
ghost use Rattle.vec3.specs.Frames.{perpendicular_to, frame_beside, first_frame, transported};

use crate::points::Point;

// The frame at a vertex of a curve: the axis beside the segment.
#[derive(Clone, Copy, Debug)]
pub struct Frame {
    pub ex: Point,
}

// A triple whose dot with u is zero, and that is not near zero itself where u has the norm 1.
#[tactic(auto, unfolding(crate::specs::Frames::perpendicular_to, crate::specs::Frames::across_x, crate::specs::Frames::across_y))]
fn perpendicular(u: Point) -> Point
    ensures { result ≡ perpendicular_to u }
{
    let a = Point {
        x: u.z,
        y: 0.0,
        z: -u.x,
    };
    if a.dot(a) >= 0.0625 {
        return a;
    }
    Point {
        x: 0.0,
        y: -u.z,
        z: u.y,
    }
}

impl Frame {
    // The frame on the first segment of a curve, v being the difference of its ends.
    #[tactic(auto, unfolding(crate::specs::Frames::first_frame))]
    pub fn first(v: Point) -> Frame
        ensures { result ≡ first_frame v }
    {
        Frame::beside(v.normalize())
    }

    // The same, by that difference normalised.
    #[tactic(auto, unfolding(crate::specs::Frames::frame_beside))]
    pub fn beside(u: Point) -> Frame
        ensures { result ≡ frame_beside u }
    {
        Frame {
            ex: perpendicular(u).normalize(),
        }
    }

    // Carries the frame from the segment along u to the segment along w, both normalised.
    #[tactic(auto, unfolding(crate::specs::Frames::transported))]
    pub fn transport(self, u: Point, w: Point) -> Frame
        ensures { result ≡ transported self u w }
    {
        let b = self.ex;
        let c = u.dot(w);
        let q = u.cross(w);
        Frame {
            ex: b * c + q.cross(b) + q * (q.dot(b) / (1.0 + c)),
        }
    }
}
