ghost use Rattle.std.specs.Prelude.{◌≡◌};
ghost use Rattle.rings.specs.Rings.{in_order, four_of};

use crate::ring::Ring;
use std::array;
use vec3::Point;

impl Ring {
    // The vertices in four directions. Their twelve coordinates fill the processor's vector
    // registers. `vertex` matches on the order of terms for each of the four. The whole ring has
    // one order, so the compiler moves this match out of the loop that calls `four`.
    pub fn four(self, cos: [Point; 4], sin: [Point; 4]) -> [Point; 4]
        ensures { result ≡ four_of (in_order self.order self) cos sin }
    {
        array::from_fn(|k| self.vertex(cos[k], sin[k]))
    }
}
