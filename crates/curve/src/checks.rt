ghost use Rattle.std.specs.Prelude.{◌≡◌};
ghost use Rattle.curve.specs.Checks.{segment_refused, segments_permitted};
ghost use Rattle.curve.specs.Checks.{is_fold, cosine_in, no_fold_in};

use crate::directions::direction_in;
use crate::segments::Segments;
use vec3::Point;

// Whether a segment is refused for its length (12).
#[tactic(auto, unfolding(crate::specs::Checks::segment_refused))]
fn is_refused(v: Point) -> bool
    ensures { result ≡ segment_refused v }
{
    let d = v.dot(v);
    d < 0.0000000000009094947017729282379150390625
        || d > 1208925819614629174706176.0
        || !float32::is_finite(d)
}

// Whether a corner with this c is a fold (13).
#[tactic(auto, unfolding(crate::specs::Checks::is_fold))]
fn is_fold(c: f32) -> bool
    ensures { result ≡ is_fold c }
{
    1.0 + c < 0.000244140625
}

impl Segments<'_> {
    // Whether none of the segments is refused for its length (12).
    pub fn are_permitted(self) -> bool
        ensures { let s = self.entry in result ≡ segments_permitted s.chain s.count s.curve.now }
    {
        (0..self.count).all(|k| !is_refused(self.at(k)))
    }

    // Document 01's c at the corner where segment k ends: the dot of its direction with that of
    // the segment after it. `directions` begins with the directions of all segments.
    #[tactic(auto, unfolding(crate::specs::Checks::cosine_in))]
    fn corner_cosine(self, directions: &[Point], k: u16) -> f32
        ensures { result ≡ cosine_in self.entry.chain self.entry.count directions.now k }
    {
        direction_in(directions, k as usize).dot(direction_in(directions, self.end(k)))
    }

    // Whether none of the first `corners` corners is a fold (13). `directions` begins with the
    // directions of all segments.
    pub fn has_no_fold(self, corners: u16, directions: &[Point]) -> bool
        ensures { let s = self.entry in
            result ≡ no_fold_in s.chain s.count corners directions.now }
    {
        (0..corners).all(|k| !is_fold(self.corner_cosine(directions, k)))
    }
}
