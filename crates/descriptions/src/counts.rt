ghost use Rattle.std.specs.Prelude.{◌≡◌};
ghost use Rattle.answers.specs.Answers.{answer_of, first_of};
ghost use Rattle.descriptions.specs.Refusals.{shape_tests, shape_of, counts_of, count_words};

use crate::along::Along;
use crate::description::Description;
use answers::Refusal;
use kinds::Topology;

// How many vertices and triangles a body has.
#[derive(Clone, Copy, Debug, Default, PartialEq, Eq)]
pub struct Counts {
    pub vertices: u32,
    pub triangles: u32,
}

impl From<Counts> for [u32; 2] {
    ghost from_gives = { λ counts words. words ≡ count_words counts };

    // The vertices, then the triangles.
    fn from(counts: Counts) -> [u32; 2] {
        [counts.vertices, counts.triangles]
    }
}

impl Description {
    // Checks the number of the curve's vertices (10), the divisions (20) and the longitudes or
    // layers (21), and answers the first refusal.
    pub(crate) fn check_shape(self, vertices: usize) -> Result<(), Refusal>
        ensures { answer_of result ≡ first_of (shape_tests self vertices) tt }
    {
        if !self.are_vertices_permitted(vertices) {
            return Err(Refusal::CurveVertices);
        }
        if !self.is_round_permitted() {
            return Err(Refusal::Divisions);
        }
        let along = Along {
            description: self,
            vertices,
        };
        if !along.is_lengthwise_permitted() {
            return Err(Refusal::Layers);
        }
        Ok(())
    }

    // Checks the same, and answers the first refusal or the body by its numbers.
    pub fn shape(self, vertices: usize) -> Result<Topology, Refusal>
        ensures { answer_of result ≡ shape_of self vertices }
    {
        self.check_shape(vertices)?;
        Ok(self.topology(vertices))
    }

    // Checks the same and then the sizes (22), and answers the first refusal or how many vertices
    // and triangles the body has.
    pub fn counts(self, vertices: usize) -> Result<Counts, Refusal>
        ensures { answer_of result ≡ counts_of self vertices }
    {
        let body = self.shape(vertices)?;
        if !self.are_sizes_permitted() {
            return Err(Refusal::Size);
        }
        Ok(Counts {
            vertices: body.vertex_count() as u32,
            triangles: body.triangle_count() as u32,
        })
    }
}
