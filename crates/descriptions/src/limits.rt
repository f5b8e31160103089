ghost use Rattle.std.specs.Prelude.{◌≡◌, ◌+◌, ◌<◌};
ghost use Rattle.descriptions.specs.Refusals.{least_vertices, most_vertices, vertices_permitted};
ghost use Rattle.descriptions.specs.Refusals.{least_divisions, most_divisions, round_permitted};
ghost use Rattle.descriptions.specs.Refusals.{size_permitted, sizes_permitted};

use crate::description::Description;
use kinds::{Capsule, ClosedCylinder, Range, Ribbon, Torus, Tube};

// Whether a radius, a width or a length is permitted (22).
#[tactic(auto, unfolding(crate::specs::Refusals::size_permitted))]
fn is_size_permitted(x: f32) -> bool
    ensures { result ≡ size_permitted x }
{
    float32::is_finite(x) && x > 0.0
}

// How many vertices an open curve may have, one more than segments.
fn open_vertices(segments: Range) -> Range
    requires least_below { segments.least < 65535 }
    requires most_below { segments.most < 65535 }
    ensures least { result.least ≡ segments.least + 1 }
    ensures most { result.most ≡ segments.most + 1 }
{
    Range {
        least: segments.least + 1,
        most: segments.most + 1,
    }
}

impl Description {
    // How many vertices its curve may have.
    fn vertices(self) -> Range
        ensures least { result.least ≡ least_vertices self }
        ensures most { result.most ≡ most_vertices self }
    {
        match self {
            Description::Ribbon { .. } => open_vertices(Ribbon::SEGMENTS),
            Description::Tube { .. } => open_vertices(Tube::SEGMENTS),
            Description::Capsule { .. } => open_vertices(Capsule::SEGMENTS),
            Description::Torus { .. } | Description::SeamlessTorus { .. } => Torus::VERTICES,
            Description::ClosedCylinder { .. } => ClosedCylinder::CURVE_VERTICES,
        }
    }

    // How many divisions round it may have. A ribbon has none.
    fn round(self) -> Range
        ensures least { result.least ≡ least_divisions self }
        ensures most { result.most ≡ most_divisions self }
    {
        match self {
            Description::Ribbon { .. } => Ribbon::DIVISIONS,
            Description::Tube { .. } => Tube::DIVISIONS,
            Description::Capsule { .. } => Capsule::DIVISIONS,
            Description::Torus { .. } | Description::SeamlessTorus { .. } => Torus::DIVISIONS,
            Description::ClosedCylinder { .. } => ClosedCylinder::DIVISIONS,
        }
    }

    // Whether its curve may have this number of vertices (10).
    pub(crate) fn are_vertices_permitted(self, vertices: usize) -> bool
        ensures { result ≡ vertices_permitted self vertices }
    {
        self.vertices().contains(vertices)
    }

    // Whether its number of divisions round is permitted (20).
    pub(crate) fn is_round_permitted(self) -> bool
        ensures { result ≡ round_permitted self }
    {
        self.round().contains(self.divisions() as usize)
    }

    // Whether its radius, width and length are permitted (22).
    pub(crate) fn are_sizes_permitted(self) -> bool
        ensures { result ≡ sizes_permitted self }
    {
        match self {
            Description::Ribbon { width } => is_size_permitted(width),
            Description::Tube { radius, .. }
            | Description::Capsule { radius, .. }
            | Description::Torus { radius, .. }
            | Description::SeamlessTorus { radius, .. } => is_size_permitted(radius),
            Description::ClosedCylinder { radius, length, .. } => is_size_permitted(radius)
                && is_size_permitted(length),
        }
    }
}
