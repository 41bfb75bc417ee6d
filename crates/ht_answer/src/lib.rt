//! Answers to lines, and their texts.
//!
//! Each answer but that to a blank line is one line, and a refusal begins with `refused: `.
//! `print(&Answer::Group { n: 2, r: 1 }, &mut out)?` appends `group 2 1` and a line feed.
//!
//! - `answer`: answers and refusals
//! - `text`: their texts
//! - `types`: the text of the answer to `types`
//! - `profile`: the text of the answer to `profile`
//! - `orbit`: the texts of the answers to `share` and `ponds`
//! - `laws`: what the texts tell
#![tactic(auto)]

mod answer;
mod laws;
mod orbit;
mod profile;
mod text;
mod types;

pub use answer::{Answer, Refusal};
pub use laws::refusals_are_told_by_their_texts;
pub use text::print;
