// What the geometry takes from `f32` beyond its operators: the square root and bit patterns,
// defined for every value.
#![tactic(auto)]

mod near;
mod roots;
mod scan;
mod words;
mod zeros;

pub use roots::root;
pub use scan::are_finite;
pub use words::{from_word, is_finite, to_word};
pub use zeros::fill_zeros;
