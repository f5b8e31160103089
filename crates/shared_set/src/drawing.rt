ghost use Rattle.std.specs.Prelude.{◌≡◌, ◌++◌, ◌+◌, ◌*◌, ◌≤◌, [], ◌∷◌, cond, length};
ghost use Rattle.laws.specs.Parts.{part};
ghost use Rattle.laws.specs.Overwrite.{overwrite};
ghost use Rattle.float32.specs.Scan.{all_finite};
ghost use Rattle.float32.specs.Zeros.{zeros};
ghost use Rattle.kinds.specs.Kinds.{vertex_count};
ghost use Rattle.answers.specs.Answers.{answer_of, first_of, test, not_finite};
ghost use Rattle.descriptions.specs.Refusals.{fold_tests};
ghost use Rattle.shared_set.specs.Bodies.{body_alone};
ghost use Rattle.shared_set.specs.Additions.{taken, finite_tests};
ghost use Rattle.shared_set.specs.Set.{vertices_after};

use crate::fitting::Fitting;
use answers::Refusal;

impl Fitting<'_> {
    // Checks that all floats of the body's vertices are finite. If one is not (23), it sets the
    // body's whole stretch of the buffer to +0.
    fn check_finite(self, vertices: &mut [f32]) -> Result<(), Refusal>
        requires { 3 * (self.totals.vertices + vertex_count self.shaped.body)
            ≤ length vertices.old }
        ensures answer { let f = self.entry in
            let at = 3 * f.totals.vertices in
            let drawn = part at (3 * vertex_count f.shaped.body) vertices.old in
            answer_of result ≡ first_of (test not_finite (all_finite drawn) ∷ []) tt }
        ensures vertices_after { let f = self.entry in
            let at = 3 * f.totals.vertices in
            let drawn = part at (3 * vertex_count f.shaped.body) vertices.old in
            let left = cond (all_finite drawn) drawn (zeros (length drawn)) in
            vertices.new ≡ overwrite at left vertices.old }
    {
        let at = 3 * self.totals.vertices;
        let end = at + 3 * self.shaped.body.vertex_count() as usize;
        if float32::are_finite(&vertices[at..end]) {
            return Ok(());
        }
        float32::fill_zeros(&mut vertices[at..end]);
        Err(Refusal::NotFinite)
    }

    // Writes the vertices to the body's own stretch of the vertex buffer, which is lent on from
    // three times its first vertex. A fold (13) leaves the buffer as it was; a vertex, or what a
    // seamless torus is twisted by, that is not finite (23) leaves the stretch at +0.
    pub(crate) fn draw(self, vertices: &mut [f32]) -> Result<(), Refusal>
        requires { 3 * (self.totals.vertices + vertex_count self.shaped.body)
            ≤ length vertices.old }
        ensures answer { let f = self.entry in
            let a = taken f.shaped.description f.shaped.curve.now in
            answer_of result ≡ first_of (fold_tests a.description a.curve ++ finite_tests a) tt }
        ensures vertices_after { let f = self.entry in
            let a = taken f.shaped.description f.shaped.curve.now in
            vertices.new
            ≡ vertices_after (answer_of result) f.totals (body_alone a) vertices.old }
    {
        bodies::write_unless_folded(self.shaped, &mut vertices[3 * self.totals.vertices..])?;
        self.check_finite(vertices)
    }
}
