//! Documents of rows. A row gives files in memory, asks something, and says what has to be answered; a program reads the rows
//! of its documents by this crate, tries each, and prints a line for it: `ok` or `DIFFERS` and its title, and behind the latter
//! what differs.
//!
//! A document is lines. One that is empty or begins with `#` is passed over, and one that is `|` or begins with `| ` belongs to
//! the text of the line before it: what follows the `| `, ended by a line feed. The other lines begin with a word, and
//! these have one meaning in all documents:
//!
//! - `row TITLE` begins a row. What stands before the first row is for all rows of the document.
//! - `file NAME` is a file with this text, `text NAME` one whose text lacks the last line feed, `bytes NAME` one of these
//!   bytes in hexadecimal digits, two and a space; `times N NAME` is one of its text without the last line feed so many times,
//!   each time with its number from 0 on in place of each `§`. A file takes the place of an earlier one of its name.
#![tactic(auto)]

mod differences;
mod document;
mod files;
mod report;
mod words;

pub use differences::{compare, note};
pub use document::Entry;
pub use files::{NamedFile, bytes_named, file_of};
pub use report::{Rows, print_reports};
pub use words::{bytes_of, cut, first_word, numbers_of, words_of};
