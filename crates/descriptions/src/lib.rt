// The description of a body, one of six kinds with its sizes: the counts that the body will have,
// and every refusal that needs no table, up to a segment (12).
#![tactic(auto)]

mod along;
mod checks;
mod counts;
mod description;
mod kind;
mod limits;
mod shaped;
mod sizes;

pub use along::Along;
pub use counts::Counts;
pub use description::Description;
pub use kind::{Kind, UnknownKind};
pub use shaped::Shaped;
pub use sizes::{Sizes, of_kind};
