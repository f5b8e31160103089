// A lent curve, three coordinates for each vertex: its vertices, its segments and their
// directions, the refusals of a segment (12) and of a fold (13), and the frames along it.
#![tactic(auto)]

mod checks;
mod directions;
mod framex;
mod segments;

pub use framex::Carried;
pub use segments::{Segments, point, put_point, segment_count, vertex};
