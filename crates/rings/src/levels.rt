ghost use Rattle.std.specs.Prelude.{◌≡◌};
ghost use Rattle.rings.specs.Vertices.{level_at};

use vec3::{Direction, Point};

// The vertex in direction `d` of a closed cylinder's ring at height `y`.
#[tactic(auto, unfolding(crate::specs::Vertices::level_at))]
pub fn level(radius: f32, y: f32, d: Direction) -> Point
    ensures { result ≡ level_at radius y d }
{
    Point {
        x: radius * d.cos,
        y,
        z: radius * d.sin,
    }
}
