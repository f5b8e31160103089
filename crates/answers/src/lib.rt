// What a call answers: what it hands back, or one of document 01's reasons to refuse.
#![tactic(auto)]

mod numbers;
mod refusal;

pub use numbers::number;
pub use refusal::Refusal;
