//! Texts of numbers, words and rows, and files of elements: how scripts write them and how answers
//! print them.
//!
//! The word of root 1 and letters 2, 1 is `x1.21`, the row that sends it to root 2 is `x1.21>x2`,
//! and rows are joined by `;`. `read_rows(alloc, b"x1.1>x1.2;x1.2>x1.1")?` reads two rows.
//!
//! - `number`: texts of numbers
//! - `word`: texts of words
//! - `rows`: texts of rows
//! - `front`: the longest fronts of texts, which tell where a text is at fault
//! - `place`: texts of words and rows, byte by byte
//! - `bytes`: cuts of bytes
//! - `file`: files of elements
//! - `fault`: why bytes are no file of an element
//! - `lines`: lines of files
//! - `laws`: no text has two values
#![tactic(auto)]

mod bytes;
mod fault;
mod file;
mod front;
mod laws;
mod lines;
mod number;
mod place;
mod rows;
mod word;

pub use bytes::{after, cut};
pub use fault::FileFault;
pub use file::{read_file, write_file};
pub use front::{is_rows, is_word, num_front, rows_front, word_front};
pub use laws::{
    an_elements_file_is_read_back, files_are_one_value, number_texts_are_one_number,
    row_texts_are_one_list, word_texts_are_one_word,
};
pub use number::{read_num, write_natural, write_num, write_size};
pub use rows::{read_rows, write_rows};
pub use word::{read_word, write_joined, write_letters, write_word};
