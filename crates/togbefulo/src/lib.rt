// The proved core as C functions, for other languages to link.
#![tactic(auto)]

mod alone;
mod arithmetic;
mod described;
mod lists;
mod set;
mod words;
