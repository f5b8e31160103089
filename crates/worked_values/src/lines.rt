// The line of each case: what is worked out, the words of the case and the words of the result.
use crate::bits::Bits;
use crate::cases::{TransportStep, Turn};
use float32::{from_word, root, to_word};
use hex_lines::Words;
use std::fmt;
use vec3::{Frame, Point, turn};

// Bits of a number whose root is worked out.
#[derive(Clone, Copy, Debug)]
pub(crate) struct Root(pub u32);

// Bits of a direction whose first frame is worked out.
#[derive(Clone, Copy, Debug)]
pub(crate) struct FirstFrame(pub Bits);

impl fmt::Display for Root {
    // The number and its root.
    fn fmt<W: fmt::Write>(&self, f: &mut fmt::Formatter<W>) -> fmt::Result {
        let x = self.0;
        write!(f, "root {}", Words(&[x, to_word(root(from_word(x)))]))
    }
}

impl fmt::Display for Turn {
    // k, n, the cosine and the sine.
    fn fmt<W: fmt::Write>(&self, f: &mut fmt::Formatter<W>) -> fmt::Result {
        let Turn(k, n) = *self;
        let d = turn(k, n);
        write!(f, "turn {}", Words(&[k, n, to_word(d.cos), to_word(d.sin)]))
    }
}

impl fmt::Display for FirstFrame {
    // The direction and the frame's axis.
    fn fmt<W: fmt::Write>(&self, f: &mut fmt::Formatter<W>) -> fmt::Result {
        let direction = self.0;
        let first = Frame::first(direction.into());
        write!(f, "first_frame {direction} {}", Bits::from(first.ex))
    }
}

impl fmt::Display for TransportStep {
    // Both segments, the frame's axis and the axis of the frame that was transported.
    fn fmt<W: fmt::Write>(&self, f: &mut fmt::Formatter<W>) -> fmt::Result {
        let TransportStep {
            before,
            after,
            frame,
        } = *self;
        let u = Point::from(before).normalize();
        let w = Point::from(after).normalize();
        let next = Frame { ex: frame.into() }.transport(u, w);
        write!(
            f,
            "transport_step {before} {after} {frame} {}",
            Bits::from(next.ex)
        )
    }
}
