//! The grammar of a script's lines: what a line says, and where a line that says nothing goes wrong.
//!
//! `read_line(alloc, b"show a")?` is `Line::Show`, and `read_line(alloc, b"shew a")` is a syntax
//! fault at column 3: `sh` is the longest front that some line has.
//!
//! - `line`: lines, and reading one
//! - `value`: the line that bytes are the text of
//! - `front`: the longest front that some line has
//! - `factor`: factors of products
//! - `exponent`: texts of exponents
//! - `ending`: how lines end behind their slots
//! - `command`: the commands, and what stands behind the word of each
//! - `name`: names of elements
//! - `file`: names of files
//! - `token`: tokens with spaces round them
//! - `laws`: what the grammar is like
#![tactic(auto)]

mod command;
mod ending;
mod exponent;
mod factor;
mod file;
mod front;
mod laws;
mod line;
mod name;
mod token;
mod value;

pub use factor::{Exponent, Factor, Factors};
pub use laws::line_texts_are_one_line;
pub use line::{Line, LineFault, read_line};
