ghost use Rattle.std.specs.Prelude.{◌≡◌, ◌+◌, ◌≤◌, length};
ghost use Rattle.laws.specs.Overwrite.{overwrite};
ghost use Rattle.surface.specs.Grid.{after_of};
ghost use Rattle.vec3.specs.Points.{coordinates};
ghost use Rattle.curve.specs.Segments.{vertices_in, segments_of, point_at};
ghost use Rattle.curve.specs.Segments.{vertex_of, segment_of, segment_direction};

use surface::Chain;
use vec3::Point;

// Reads the point whose coordinates begin at index `at`.
pub fn point(floats: &[f32], at: usize) -> Point
    requires { at + 3 ≤ length floats.now }
    ensures { result ≡ point_at floats.now at }
{
    Point {
        x: floats[at],
        y: floats[at + 1],
        z: floats[at + 2],
    }
}

// Writes the coordinates of `p` to `out`, from index `at` on. These are three stores because rings
// took three times as long to write with `copy_from_slice` of an array of the three. The index
// comes with `out` because rings took a quarter longer where callers lent `&mut out[at..]`. Pieces
// from `as_chunks_mut` cost nothing, but its contract does not say what the slice holds
// afterwards.
pub fn put_point(out: &mut [f32], at: usize, p: Point)
    requires { at + 3 ≤ length out.old }
    ensures { out.new ≡ overwrite at (coordinates p) out.old }
{
    out[at] = p.x;
    out[at + 1] = p.y;
    out[at + 2] = p.z;
}

// Vertex k, or NaNs if the curve has no vertex k. An `Option` would be no plainer: `vertex_of` has
// a point for every k, so that segments and corners are defined for every k. One caller asks for a
// vertex past the end: a torus asks for vertex N at its last end, where it writes nothing.
#[tactic(auto, unfolding(crate::specs::Segments::vertex_of))]
pub fn vertex(curve: &[f32], k: usize) -> Point
    ensures { result ≡ vertex_of curve.now k }
{
    if k < curve.len() / 3 {
        point(curve, 3 * k)
    } else {
        Point::thrice(f32::NAN)
    }
}

// How many segments a curve of so many vertices has: one fewer where it is open, as many where it
// is closed.
pub fn segment_count(chain: Chain, vertices: usize) -> usize
    ensures { result ≡ segments_of chain vertices }
{
    match chain {
        Chain::Open => vertices.saturating_sub(1),
        Chain::Closed => vertices,
    }
}

// The segments of a lent curve, `count` of them. On an open curve each leads from a vertex to the
// next; on a closed one the last leads back to the first vertex. The number is kept beside the
// curve because loops read it, and it takes a division.
#[derive(Clone, Copy, Debug)]
pub struct Segments<'a> {
    pub chain: Chain,
    pub count: u16,
    pub curve: &'a [f32],
}

impl<'a> Segments<'a> {
    // All segments of a curve.
    pub fn along(chain: Chain, curve: &'a [f32]) -> Segments<'a>
        requires { vertices_in curve.now ≤ 65535 }
        ensures chain { result.chain ≡ chain }
        ensures count { result.count ≡ segments_of chain (vertices_in curve.now) }
        ensures curve { result.curve ≡ curve.entry }
    {
        Segments {
            chain,
            count: segment_count(chain, curve.len() / 3) as u16,
            curve,
        }
    }
}

impl Segments<'_> {
    // The number of the vertex at which segment k ends, and of the segment that begins there. It
    // is k + 1, or 0 where the last segment of a closed curve leads back to the first vertex. The
    // definition counts on round the loop for any k, where surface's `Chain::after` asks for a k
    // of the chain, and `corner_cosine` promises an answer for every k. The cases that need no
    // division come first.
    pub(crate) fn end(self, k: u16) -> usize
        ensures { result ≡ after_of self.entry.chain self.entry.count k }
    {
        let next = k as usize + 1;
        let count = self.count as usize;
        match self.chain {
            Chain::Closed if next == count => 0,
            Chain::Closed if next > count => next.checked_rem(count).unwrap_or(next),
            _ => next,
        }
    }

    // Segment k, from its first vertex to its last: the difference of the two.
    #[tactic(auto, unfolding(crate::specs::Segments::segment_of))]
    pub fn at(self, k: u16) -> Point
        ensures { let s = self.entry in result ≡ segment_of s.chain s.count s.curve.now k }
    {
        vertex(self.curve, self.end(k)) - vertex(self.curve, k as usize)
    }

    // Segment k, normalised.
    #[tactic(auto, unfolding(crate::specs::Segments::segment_direction))]
    pub fn direction(self, k: u16) -> Point
        ensures { let s = self.entry in
            result ≡ segment_direction s.chain s.count s.curve.now k }
    {
        self.at(k).normalize()
    }
}
