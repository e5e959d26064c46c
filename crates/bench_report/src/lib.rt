// Answers in words that a person reads: an entry, what a walk finds, a list that a call filled, a page image.
// Leans on text_forms for an address, on entry for a word, on look_up for what a walk finds, on text_access for an item past an end.
// No function needs anything of its caller, and of each only safety is proved.
#![tactic(auto)]

mod entry_row;
mod listing;
mod looked;
mod page;

pub use entry_row::{EntryRow, Flags};
pub use listing::{LIST_NUMBERS, say_lines, say_page_numbers};
pub use looked::LookedAt;
pub use page::say_page;
