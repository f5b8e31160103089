use float32::{from_word, to_word};
use hex_lines::Words;
use std::fmt;
use vec3::Point;

// The bit patterns of a point's coordinates.
#[derive(Clone, Copy, Debug)]
pub(crate) struct Bits(pub [u32; 3]);

impl From<Bits> for Point {
    // The point with these bits. `from_word` is called by a closure, since the check finds no
    // contract of another crate's function that is passed by its name.
    fn from(bits: Bits) -> Point {
        let [x, y, z] = bits.0.map(|w| from_word(w));
        Point { x, y, z }
    }
}

impl From<Point> for Bits {
    // The bits of the point.
    fn from(p: Point) -> Bits {
        Bits([p.x, p.y, p.z].map(|x| to_word(x)))
    }
}

impl fmt::Display for Bits {
    // The three words.
    fn fmt<W: fmt::Write>(&self, f: &mut fmt::Formatter<W>) -> fmt::Result {
        write!(f, "{}", Words(&self.0))
    }
}
