ghost use Rattle.std.specs.Prelude.{◌≡◌};
ghost use Rattle.descriptions.specs.KindNumbers.{description_of, described_of};

use crate::description::Description;
use crate::kind::Kind;

// The sizes of a body of any kind. `size` is the width of a ribbon and the radius of the others,
// `steps` the longitudes of a capsule and the layers of a closed cylinder. A record and the C
// interface have all of these fields for every kind, so this is no enum of kinds.
#[derive(Clone, Copy, Debug, Default)]
pub struct Sizes {
    pub divisions: u32,
    pub steps: u32,
    pub centred: bool,
    pub size: f32,
    pub length: f32,
}

impl Description {
    // Makes the description of a kind with its sizes. What a kind lacks is ignored.
    pub fn new(kind: Kind, sizes: Sizes) -> Description
        ensures { result ≡ description_of kind sizes }
    {
        let divisions = sizes.divisions;
        let radius = sizes.size;
        match kind {
            Kind::Ribbon => Description::Ribbon { width: sizes.size },
            Kind::Tube => Description::Tube { divisions, radius },
            Kind::Capsule => Description::Capsule {
                divisions,
                longitudes: sizes.steps,
                radius,
            },
            Kind::Torus => Description::Torus { divisions, radius },
            Kind::ClosedCylinder => Description::ClosedCylinder {
                divisions,
                layers: sizes.steps,
                centred: sizes.centred,
                radius,
                length: sizes.length,
            },
            Kind::SeamlessTorus => Description::SeamlessTorus { divisions, radius },
        }
    }
}

// Makes the description of the kind that has the number `kind`, or none where no kind has it. The
// C interface and records name a kind by its number.
#[tactic(auto, unfolding(crate::specs::KindNumbers::described_of))]
pub fn of_kind(kind: u32, sizes: Sizes) -> Option<Description>
    ensures { result
        ≡ described_of kind sizes.divisions sizes.steps sizes.centred sizes.size sizes.length }
{
    let kind = Kind::try_from(kind).ok()?;
    Some(Description::new(kind, sizes))
}
