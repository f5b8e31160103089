ghost use Rattle.std.specs.Prelude.{◌≡◌};
ghost use Rattle.answers.specs.Answers.{number_of};

use thiserror::Error;

// Why a call is refused: every reason of document 01, 'Refused, and through whom', with its
// number.
#[derive(Clone, Copy, Debug, PartialEq, Eq, Error)]
pub enum Refusal {
    #[error("the table of contents is damaged")]
    DamagedTable = 1,
    #[error("the table has no room for another entry")]
    NoEntry = 2,
    #[error("there is no room for the vertices")]
    NoVertices = 3,
    #[error("there is no room for the triangles")]
    NoTriangles = 4,
    #[error("the file has no word at this place")]
    PastEnd = 5,
    #[error("no curve of this kind has so many vertices")]
    CurveVertices = 10,
    #[error("a coordinate of the curve is not finite")]
    CurveNotFinite = 11,
    #[error("a segment is too short or too long")]
    Segment = 12,
    #[error("the curve folds back on itself")]
    Fold = 13,
    #[error("the number of divisions is not permitted")]
    Divisions = 20,
    #[error("the number of longitudes or layers is not permitted")]
    Layers = 21,
    #[error("a width, radius or length is not permitted")]
    Size = 22,
    #[error("a vertex is not finite")]
    NotFinite = 23,
}

impl From<Refusal> for u32 {
    ghost from_gives = { λ why number. number ≡ number_of why };

    // Document 01's number of the reason.
    fn from(why: Refusal) -> u32 {
        why as u32
    }
}
