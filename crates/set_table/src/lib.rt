// The table of contents of a shared set: its entries, whether it is damaged, and whether one body
// more has room.
#![tactic(auto)]

mod entries;
mod fit;
mod lengths;
mod table;
mod totals;

pub use entries::{ENTRY_WORDS, Entry, table_words, write_entry};
pub use fit::check_fit;
pub use lengths::Lengths;
pub use table::read;
pub use totals::Totals;
