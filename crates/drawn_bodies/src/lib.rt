// The bodies that the program `neighbours` loads, and each of them alone. The program compares
// what is drawn here, so no contract says more than safety needs.
#![tactic(auto)]

mod alone;
mod cases;
mod curves;
mod generator;
mod loading;

pub use alone::Alone;
pub use cases::{Case, DrawnTriples, Triple, triple_of_kinds};
pub use generator::Generator;
pub use loading::load_triple;
