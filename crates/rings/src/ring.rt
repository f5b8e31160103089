ghost use Rattle.std.specs.Prelude.{◌≡◌};
ghost use Rattle.vec3.specs.Points.{thrice, product_of};
ghost use Rattle.rings.specs.Rings.{ring_around, in_order};

use crate::axes::Axes;
use vec3::Point;

// The order in which document 01 adds up the terms of a vertex. On the side of a tube or a capsule
// and in a bottom cap ey comes first, in a top cap ex; on a torus the two are added up before the
// radius comes in.
#[derive(Clone, Copy, Debug, PartialEq, Eq)]
pub enum Order {
    EyFirst,
    ExFirst,
    SumFirst,
}

// A ring of vertices.
#[derive(Clone, Copy, Debug)]
pub struct Ring {
    pub order: Order,
    pub centre: Point,
    pub ex: Point,
    pub ey: Point,
    pub radius: f32,
}

impl Ring {
    // The ring round a centre, in the plane of the axes' ex and ey.
    #[tactic(auto, unfolding(crate::specs::Rings::ring_around))]
    pub fn around(order: Order, axes: Axes, centre: Point, radius: f32) -> Ring
        ensures { result ≡ ring_around order axes centre radius }
    {
        let Axes { ex, ey, .. } = axes;
        Ring {
            order,
            centre,
            ex,
            ey,
            radius,
        }
    }

    // What an axis adds to a vertex: the axis times the product of the radius and a cosine or a
    // sine. `turn` holds that number three times, so that every coordinate takes the same steps:
    // the processor then works out several coordinates, of several vertices, at a time.
    fn term(self, axis: Point, turn: Point) -> Point
        ensures { result ≡ product_of axis (product_of (thrice self.radius) turn) }
    {
        axis.product(Point::thrice(self.radius).product(turn))
    }

    // The vertex in a direction, whose cosine and sine come three times each.
    #[tactic(auto, unfolding(crate::specs::Rings::two_terms, crate::specs::Rings::sum_first))]
    pub fn vertex(self, cos: Point, sin: Point) -> Point
        ensures { result ≡ in_order self.order self cos sin }
    {
        let Ring { centre, ex, ey, .. } = self;
        match self.order {
            Order::EyFirst => centre + self.term(ey, cos) + self.term(ex, sin),
            Order::ExFirst => centre + self.term(ex, sin) + self.term(ey, cos),
            Order::SumFirst => centre + (ex.product(cos) + ey.product(sin)) * self.radius,
        }
    }
}
