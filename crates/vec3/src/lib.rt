// Points, directions and frames of `f32`, each operation rounded once, in the order written.
#![tactic(auto)]

mod frames;
mod points;
mod turns;

pub use frames::Frame;
pub use points::Point;
pub use turns::{Direction, turn, within_octant};
