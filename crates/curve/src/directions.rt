ghost use Rattle.std.specs.Prelude.{◌≡◌, ◌≤◌, length};
ghost use Rattle.laws.specs.Overwrite.{overwrite};
ghost use Rattle.vec3.specs.Points.{point_in};
ghost use Rattle.curve.specs.Segments.{directions_of};

use crate::segments::Segments;
use vec3::Point;

// Direction k of a table, or NaNs if the table has no direction k.
pub(crate) fn direction_in(directions: &[Point], k: usize) -> Point
    ensures { result ≡ point_in directions.now k }
{
    directions
        .get(k)
        .copied()
        .unwrap_or(Point::thrice(f32::NAN))
}

impl Segments<'_> {
    // Writes the directions of the segments, one after the other, to the front of `out`.
    #[tactic(auto, using(laws::proofs::Overwrite::unwritten), unfolding(crate::specs::Segments::directions_of))]
    pub fn fill_directions(self, out: &mut [Point])
        requires { self.count ≤ length out.old }
        ensures { let s = self.entry in
            out.new ≡ overwrite 0 (directions_of s.chain s.count s.curve.now) out.old }
    {
        for k in 0..self.count {
            out[k as usize] = self.direction(k);
        }
    }
}
