//! The calculator: a session that answers lines, and a run over a whole script.
//!
//! `run(alloc, &words, &mut script, &mut files, &mut out)` reads a script, answers its lines and
//! writes the answers; or it writes a summary of a sample, where the words ask for one.
//! `Session::new(alloc, 2000).answer(alloc, b"group 2 1", &mut files)?` answers one line.
//!
//! - `script`: a run over a whole script
//! - `lines`: bytes to lines
//! - `answering`: lines to answers
//! - `status`: how a run ends
//! - `session`: what is remembered from line to line
//! - `load`: elements from files
//! - `bindings`: what is bound to names
//! - `product`: products of powers of bound elements
//! - `words`: the words of the command line
//! - `summary`: a summary of a sample
//! - `summed`: its lines, and their texts
//! - `part`: the two parts of a bound element
//! - `share`: whether two words share an orbit of a bound element
//! - `conjugator`: whether two bound elements are conjugate, and what conjugates them
//! - `decider`: what decides that, by quasinormal bases
//! - `powers`: whether two bound elements have conjugate powers
//!
//! What the bound elements answer is told by `ht_ask`.
#![tactic(auto)]

mod answering;
mod bindings;
mod conjugator;
mod decider;
mod lines;
mod load;
mod part;
mod powers;
mod product;
mod script;
mod session;
mod share;
mod status;
mod summary;
mod summed;
mod words;

pub use decider::BasisDecider;
pub use script::run;
pub use session::Session;
pub use status::Status;
