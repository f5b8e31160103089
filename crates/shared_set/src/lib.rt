// The shared set: bodies side by side in a table, a vertex buffer and a triangle buffer that the
// caller lends.
#![tactic(auto)]

mod addition;
mod clearing;
mod drawing;
mod fitting;
mod placing;

pub use addition::add;
pub use clearing::clear;
