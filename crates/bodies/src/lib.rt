// The vertices of one body, from its description and its curve, and the check of both.
#![tactic(auto)]

mod folds;
mod tables;
mod vertices;

pub use folds::{check, check_folds};
pub use vertices::{write_unless_folded, write_vertices};
