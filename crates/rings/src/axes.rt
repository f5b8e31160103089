ghost use Rattle.std.specs.Prelude.{◌≡◌};
ghost use Rattle.rings.specs.Axes.{axes_at, between_of};

use vec3::{Frame, Point};

// A vertex of a curve and the axes there: ex beside the curve, ez along it, ey across both.
#[derive(Clone, Copy, Debug)]
pub struct Axes {
    pub origin: Point,
    pub ex: Point,
    pub ey: Point,
    pub ez: Point,
}

impl Axes {
    // The axes at `origin`, with ex from the frame there.
    #[tactic(auto, unfolding(crate::specs::Axes::axes_at))]
    pub fn at(origin: Point, frame: Frame, ez: Point) -> Axes
        ensures { result ≡ axes_at origin frame ez }
    {
        let ex = frame.ex;
        Axes {
            origin,
            ex,
            ey: ez.cross(ex),
            ez,
        }
    }
}

// ez at a vertex of an open curve that lies between segments along `u` and `w`: `framez` of
// polyline3.
#[tactic(auto, unfolding(crate::specs::Axes::between_of))]
pub fn framez(u: Point, w: Point) -> Point
    ensures { result ≡ between_of u w }
{
    (u + w).normalize()
}
