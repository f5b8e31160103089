// The file of a shared set, word by word.
#![tactic(auto)]

mod file;
mod sound_set;

pub use file::file_word;
