ghost use Rattle.std.specs.Prelude.{◌≡◌, ◌-◌, ◌*◌, ◌≤◌, ◌<◌, length};
ghost use Rattle.surface.specs.declared.grid.Chain.TheVariants.{Open};
ghost use Rattle.curve.specs.Segments.{vertices_in, segments_of};
ghost use Rattle.curve.specs.Segments.{vertex_of, segment_direction};
ghost use Rattle.curve.specs.Framex.{carried_of};
ghost use Rattle.swept_bodies.specs.Swept.{axes_on};
ghost use Rattle.swept_bodies.specs.Walks.{MayWrite, Written};
ghost use Rattle.swept_bodies.specs.Tables.{DirectionTable, SweptCurve, EzTable};

use curve::{Carried, Segments};
use rings::{Axes, framez};
use surface::Chain;
use vec3::Point;

// The segments of a curve along which a body lies, one at least, and the table of their
// directions.
#[derive(Clone, Copy, Debug)]
pub struct Spine<'a> {
    pub segments: Segments<'a>,
    pub directions: &'a [Point],
    pub ghost segment: { 1 ≤ segments.count },
    pub ghost table: { let s = segments in
        DirectionTable s.chain s.count s.curve.now directions.now },
}

impl<'a> Spine<'a> {
    // All segments of a curve, with their directions.
    pub fn along(chain: Chain, curve: &'a [f32], directions: &'a [Point]) -> Self
        requires { SweptCurve chain curve.now directions.now }
        ensures chain { result.segments.chain ≡ chain }
        ensures count { result.segments.count ≡ segments_of chain (vertices_in curve.now) }
        ensures same { result.segments.curve.now ≡ curve.now }
    {
        Spine {
            segments: Segments::along(chain, curve),
            directions,
        }
    }

    // Vertex `k` of the curve.
    pub fn vertex(&self, k: usize) -> Point
        ensures { result ≡ vertex_of self.now.segments.curve.now k }
    {
        curve::vertex(self.segments.curve, k)
    }

    // The direction of segment `k`.
    pub fn direction(&self, k: usize) -> Point
        requires { k < self.now.segments.count }
        ensures { let s = self.now.segments in
            result ≡ segment_direction s.chain s.count s.curve.now k }
    {
        self.directions[k]
    }

    // What is carried on the first segment.
    #[tactic(auto, using(curve::proofs::Carry::carried_first))]
    pub fn first(&self) -> Carried
        ensures { let s = self.now.segments in result ≡ carried_of s.chain s.count s.curve.now 0 }
    {
        Carried::first(self.direction(0))
    }

    // Carries the frame from the first segment, where `first` is carried, to the last, and answers
    // what is carried there. On each segment after the first it calls `write` with the segment's
    // number, what is carried on it, and what is left of `out`: each segment has `size` elements.
    // The walk begins after the first segment, since a capsule's first end is no ring and has
    // another size. Nowhere else but where a loop closes are frames carried along a curve.
    #[tactic(auto, using(laws::proofs::Overwrite::unwritten, crate::proofs::Axes::carried_after))]
    pub fn walk<T, F: Fn(usize, Carried, &mut [T])>(
        &self,
        first: Carried,
        out: &mut [T],
        size: usize,
        write: F,
    ) -> Carried
        requires first { let s = self.now.segments in
            first ≡ carried_of s.chain s.count s.curve.now 0 }
        requires room { (self.now.segments.count - 1) * size ≤ length out.old }
        requires write { MayWrite self.now.segments size (F.pre write) }
        ensures carried { let s = self.now.segments in
            result ≡ carried_of s.chain s.count s.curve.now (s.count - 1) }
        ensures written { let s = self.now.segments in
            Written s s.count size out.old out.new (F.post write) }
    {
        let mut carried = first;
        for g in 1..self.segments.count as usize {
            carried = carried.next(self.direction(g));
            write(g, carried, &mut out[(g - 1) * size..]);
        }
        carried
    }

    // The axes at vertex `k`, with ez along the segment that the frame has been carried to: at the
    // ends of an open curve, and at a loop's first vertex.
    pub(crate) fn axes_on(&self, k: usize, carried: Carried) -> Axes
        ensures { result ≡ axes_on self.now.segments.curve.now k carried }
    {
        Axes::at(self.vertex(k), carried.frame, carried.direction)
    }

    // Fills the table of ez at an open curve's vertices between two segments, the one at vertex g
    // at index g. It is filled before the first ring is written, because square roots that wait
    // neither for each other nor for a ring take a third of the time.
    #[tactic(auto, using(laws::proofs::Overwrite::unwritten))]
    pub(crate) fn fill_framez(&self, out: &mut [Point])
        requires open { self.now.segments.chain ≡ Open }
        requires room { self.now.segments.count ≤ length out.old }
        ensures { let s = self.now.segments in EzTable s.chain s.count s.curve.now out.new }
    {
        for g in 1..self.segments.count as usize {
            out[g] = framez(self.direction(g - 1), self.direction(g));
        }
    }
}
