ghost use Rattle.std.specs.Prelude.{◌≡◌, ◌/◌, length};
ghost use Rattle.descriptions.specs.Descriptions.{curve_chain, segment_count, topology_of};
ghost use Rattle.descriptions.specs.Refusals.{ShapePermitted};

use crate::along::Along;
use crate::description::Description;
use curve::Segments;
use kinds::Topology;

// A body of a permitted shape: a description and a curve which the number of the curve's vertices
// (10), the divisions (20) and the longitudes or layers (21) do not refuse, and the body by its
// numbers.
#[derive(Clone, Copy, Debug)]
pub struct Shaped<'a> {
    pub description: Description,
    pub curve: &'a [f32],
    pub body: Topology,
    pub ghost permitted: { ShapePermitted description (length curve.now / 3) },
    pub ghost described: { body ≡ topology_of description (length curve.now / 3) },
}

impl<'a> Shaped<'a> {
    // Puts a description beside a curve of a permitted shape.
    pub fn new(description: Description, curve: &'a [f32]) -> Shaped<'a>
        requires { ShapePermitted description (length curve.now / 3) }
        ensures description { result.description ≡ description }
        ensures curve { result.curve ≡ curve.entry }
    {
        Shaped {
            description,
            curve,
            body: description.topology(curve.len() / 3),
        }
    }

    // The description, and how many vertices the curve has.
    pub fn along(self) -> Along
        ensures description { result.description ≡ self.entry.description }
        ensures vertices { result.vertices ≡ length self.entry.curve.now / 3 }
    {
        Along {
            description: self.description,
            vertices: self.curve.len() / 3,
        }
    }

    // The curve's segments.
    pub fn segments(self) -> Segments<'a>
        ensures chain { result.chain ≡ curve_chain self.entry.description }
        ensures count { let s = self.entry in
            result.count ≡ segment_count s.description (length s.curve.now / 3) }
        ensures curve { result.curve ≡ self.entry.curve }
    {
        Segments::along(self.description.chain(), self.curve)
    }
}
