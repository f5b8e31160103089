ghost use Rattle.std.specs.Prelude.{◌≡◌, true};
ghost use Rattle.descriptions.specs.Refusals.{vertices_permitted};

use crate::description::Description;
use kinds::{Capsule, ClosedCylinder};

// A description, and how many vertices its curve has, which is a permitted number (10).
#[derive(Clone, Copy, Debug)]
pub struct Along {
    pub description: Description,
    pub vertices: usize,
    pub ghost permitted: { vertices_permitted description vertices ≡ true },
}

impl Along {
    ghost use Rattle.descriptions.specs.Descriptions.{segment_count, corners_of};
    ghost use Rattle.descriptions.specs.Refusals.{lengthwise_permitted};

    // How many segments the curve has.
    #[tactic(auto, using(crate::proofs::Shapes::limits))]
    pub fn segment_count(self) -> u16
        ensures { result ≡ segment_count self.description self.vertices }
    {
        curve::segment_count(self.description.chain(), self.vertices) as u16
    }

    // At how many corners the curve is checked for folds (13): at the end of every segment if
    // vertex 0 is checked, otherwise at the end of every segment but the last.
    pub fn corner_count(self) -> u16
        ensures { result ≡ corners_of self.description self.vertices }
    {
        let segments = self.segment_count();
        if self.description.is_start_checked() {
            return segments;
        }
        segments.saturating_sub(1)
    }

    // Whether the longitudes or layers are permitted (21).
    pub(crate) fn is_lengthwise_permitted(self) -> bool
        ensures { result ≡ lengthwise_permitted self.description self.vertices }
    {
        match self.description {
            Description::Capsule { longitudes, .. } => Capsule::are_longitudes_permitted(
                longitudes,
                self.segment_count(),
            ),
            Description::ClosedCylinder { layers, .. } => ClosedCylinder::LAYERS.contains(
                layers as usize,
            ),
            _ => true,
        }
    }
}
