// The head line of a case.
use crate::cases::Case;
use descriptions::{Description, Sizes};
use float32::to_word;
use hex_lines::Words;
use std::fmt;

// The sizes of a body. One that its kind lacks is 0.
fn sizes(description: Description) -> Sizes {
    match description {
        Description::Ribbon { width } => Sizes {
            size: width,
            ..Sizes::default()
        },
        Description::Capsule {
            divisions,
            longitudes,
            radius,
        } => Sizes {
            divisions,
            steps: longitudes,
            size: radius,
            ..Sizes::default()
        },
        Description::ClosedCylinder {
            divisions,
            layers,
            centred,
            radius,
            length,
        } => Sizes {
            divisions,
            steps: layers,
            centred,
            size: radius,
            length,
        },
        Description::Tube { divisions, radius }
        | Description::Torus { divisions, radius }
        | Description::SeamlessTorus { divisions, radius } => Sizes {
            divisions,
            size: radius,
            ..Sizes::default()
        },
    }
}

// The kind's name, the sizes and both counts, or the number of the refusal in place of these.
impl fmt::Display for Case {
    fn fmt<W: fmt::Write>(&self, f: &mut fmt::Formatter<W>) -> fmt::Result {
        let Case { description, curve } = *self;
        let kind = description.kind();
        let Sizes {
            divisions,
            steps,
            centred,
            size,
            length,
        } = sizes(description);
        let words = [
            divisions,
            steps,
            centred.into(),
            to_word(size),
            to_word(length),
        ];
        write!(f, "{kind} {} ", Words(&words))?;
        match description.counts(curve.len() / 3) {
            Ok(counts) => write!(f, "{}", Words(&<[u32; 2]>::from(counts))),
            Err(why) => write!(f, "{}", Words(&[why.into()])),
        }
    }
}
