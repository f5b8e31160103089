ghost use Rattle.std.specs.Prelude.{◌≡◌};
ghost use Rattle.answers.specs.Answers.{answer_of};
ghost use Rattle.descriptions.specs.Refusals.{checked_of};
ghost use Rattle.descriptions.specs.Shapes.{folds_answer};
ghost use Rattle.bodies.specs.Bodies.{CurveDirections};

use crate::tables::with_tables;
use answers::Refusal;
use descriptions::{Description, Shaped};
use kinds::Topology;
use vec3::Point;

// Checks a curve for folds (13), by the table of its directions.
#[tactic(auto, using(crate::proofs::Corners::directions))]
pub(crate) fn check_corners(shaped: Shaped<'_>, directions: &[Point]) -> Result<(), Refusal>
    requires { CurveDirections shaped.description shaped.curve.now directions.now }
    ensures { answer_of result ≡ folds_answer shaped.entry }
{
    let corners = shaped.along().corner_count();
    if !shaped.segments().has_no_fold(corners, directions) {
        return Err(Refusal::Fold);
    }
    Ok(())
}

// Checks the curve of a body of a permitted shape for folds (13).
pub fn check_folds(shaped: Shaped<'_>) -> Result<(), Refusal>
    ensures { answer_of result ≡ folds_answer shaped.entry }
{
    with_tables(
        shaped,
        &mut [],
        |shaped, directions, _, _| check_corners(shaped, directions),
    )
}

// Checks a description and its curve: how many vertices the curve has (10), divisions (20),
// longitudes or layers (21), sizes (22), a curve that is not finite (11), segments (12) and folds
// (13), in this order. Answers the first refusal, or the body by its numbers.
pub fn check(description: Description, curve: &[f32]) -> Result<Topology, Refusal>
    ensures { answer_of result ≡ checked_of description curve.now }
{
    let shaped = description.check_segments(curve)?;
    check_folds(shaped)?;
    Ok(shaped.body)
}
