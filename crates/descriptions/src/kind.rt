ghost use Rattle.std.specs.Prelude.{◌≡◌};
ghost use Rattle.descriptions.specs.KindNumbers.{number_of, kind_numbered, kind_text};

use std::fmt;
use thiserror::Error;

// The kinds of body, with their numbers in records and in entries.
#[derive(Clone, Copy, Debug, PartialEq, Eq)]
pub enum Kind {
    Ribbon = 1,
    Tube = 2,
    Capsule = 3,
    Torus = 4,
    ClosedCylinder = 5,
    SeamlessTorus = 6,
}

impl From<Kind> for u32 {
    ghost from_gives = { λ kind number. number ≡ number_of kind };

    // The kind's number.
    fn from(kind: Kind) -> u32 {
        kind as u32
    }
}

// A number that no kind has.
#[derive(Clone, Copy, Debug, PartialEq, Eq, Error)]
#[error("no kind has the number {0}")]
pub struct UnknownKind(pub u32);

impl TryFrom<u32> for Kind {
    type Error = UnknownKind;

    ghost try_from_gives = { λ number result. result ≡ kind_numbered number };

    // The kind that has the number.
    #[tactic(auto, unfolding(crate::specs::KindNumbers::kind_numbered))]
    fn try_from(number: u32) -> Result<Kind, UnknownKind> {
        match number {
            1 => Ok(Kind::Ribbon),
            2 => Ok(Kind::Tube),
            3 => Ok(Kind::Capsule),
            4 => Ok(Kind::Torus),
            5 => Ok(Kind::ClosedCylinder),
            6 => Ok(Kind::SeamlessTorus),
            _ => Err(UnknownKind(number)),
        }
    }
}

impl fmt::Display for Kind {
    ghost output = { kind_text };

    // The kind's name.
    fn fmt<W: fmt::Write>(&self, f: &mut fmt::Formatter<W>) -> fmt::Result {
        f.write_str(match self {
            Kind::Ribbon => "ribbon",
            Kind::Tube => "tube",
            Kind::Capsule => "capsule",
            Kind::Torus => "torus",
            Kind::ClosedCylinder => "closed_cylinder",
            Kind::SeamlessTorus => "seamless_torus",
        })
    }
}
