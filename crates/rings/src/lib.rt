// Rings of vertices as values: the axes that a ring lies in, the rings of a cap, and a ring's
// vertex in a direction.
#![tactic(auto)]

mod axes;
mod caps;
mod four;
mod levels;
mod ring;

pub use axes::{Axes, framez};
pub use caps::Cap;
pub use levels::level;
pub use ring::{Order, Ring};
