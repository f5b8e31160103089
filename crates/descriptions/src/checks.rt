ghost use Rattle.std.specs.Prelude.{◌≡◌, IfOk};
ghost use Rattle.answers.specs.Answers.{answer_of, first_of};
ghost use Rattle.descriptions.specs.Refusals.{float_tests, curve_shape_of, segments_checked_of};
ghost use Rattle.descriptions.specs.Shapes.{shaped_answer};

use crate::description::Description;
use crate::shaped::Shaped;
use answers::Refusal;

impl<'a> Shaped<'a> {
    // Checks the sizes (22), that the curve is finite (11) and its segments (12), and answers the
    // first refusal.
    fn check_floats(self) -> Result<(), Refusal>
        ensures { answer_of result
            ≡ first_of (float_tests self.entry.description self.entry.curve.now) tt }
    {
        if !self.description.are_sizes_permitted() {
            return Err(Refusal::Size);
        }
        if !float32::are_finite(self.curve) {
            return Err(Refusal::CurveNotFinite);
        }
        if !self.segments().are_permitted() {
            return Err(Refusal::Segment);
        }
        Ok(())
    }
}

impl Description {
    // Checks the curve's vertices (10), the divisions (20) and the longitudes or layers (21), and
    // answers the first refusal or the body.
    pub fn with_curve(self, curve: &[f32]) -> Result<Shaped<'_>, Refusal>
        ensures answer { shaped_answer result ≡ curve_shape_of self curve.now }
        ensures same { IfOk result (λ s. (s.description ≡ self) × (s.curve ≡ curve.entry)) }
    {
        if curve.len() % 3 != 0 {
            return Err(Refusal::CurveVertices);
        }
        self.check_shape(curve.len() / 3)?;
        Ok(Shaped::new(self, curve))
    }

    // Checks the same, then the sizes (22), that the curve is finite (11) and its segments (12),
    // in this order, and answers the first refusal or the body. Only the check for folds (13),
    // which needs the directions of the segments, is left after it.
    pub fn check_segments(self, curve: &[f32]) -> Result<Shaped<'_>, Refusal>
        ensures answer { shaped_answer result ≡ segments_checked_of self curve.now }
        ensures same { IfOk result (λ s. (s.description ≡ self) × (s.curve ≡ curve.entry)) }
    {
        let shaped = self.with_curve(curve)?;
        shaped.check_floats()?;
        Ok(shaped)
    }
}
