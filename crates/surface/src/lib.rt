// Grids of quads, with or without caps: the triangle lists that every kind of body is made of.
#![tactic(auto)]

mod caps;
mod grid;
mod limits;
mod quads;
mod raise;
mod whole;

pub use caps::{End, cap_triangle};
pub use grid::Chain;
pub use limits::{MOST_IN_ALL, fits};
pub use quads::{Split, quad};
pub use whole::{Ending, Surface};
