// The twist of a seamless torus: the turn by which the frame that is carried round a loop comes
// back turned, in steps of 1/4096 turn, and what each vertex of the loop gets of it.
#![tactic(auto)]

mod best;
mod eighth;
mod ends;
mod leader;
mod scores;
mod twist;

pub use best::{Found, search};
pub use ends::Ends;
pub use twist::{Twist, twisted};
