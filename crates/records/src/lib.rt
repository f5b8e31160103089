// Records of words, as the program `sweep` reads them, and the bodies that they ask for. Why a
// set's three buffers are no struct stands at `add` of the crate shared_set.
#![tactic(auto)]

mod building;
mod first;
mod head;

pub use building::build;
pub use first::add_first;
pub use head::{HEAD_WORDS, MOST_VERTICES, record_length, record_words};
