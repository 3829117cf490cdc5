//! Why a text is no script, in words for who wrote it: which line, key, value, entry or word, and what was expected
//! (docs/COMMAND.md, "profile" in comments).
#![tactic(auto)]

mod arrays;
mod cables;
mod entries;
mod explaining;
mod keys;
mod laws;
mod names;
mod ports;
mod subject_text;
#[cfg(test)]
mod tests;
mod text_places;
mod values;
#[cfg(test)]
mod wider_tests;
mod words;

pub use explaining::explain;
pub use laws::events_are_those_of_scripts;
pub use text_places::{Place, place_of};
