//! The offline tools of the floating licence daemon: the command words, the files that they name, and what is written
//! of them.
//!
//! [`tool`] runs one command and ends with a [`Status`]; [`words_of`] reads the words of a command line. The readers of
//! files and the lines of statuses stand here for the daemon too.
#![tactic(auto)]

mod audit_text;
mod command;
mod dates;
mod err_line;
mod numbers;
mod perform;
mod reading;
mod room;
mod running;
mod status;
mod usage_text;
mod words;

pub use command::{Third, is_plain_word};
pub use err_line::{put_status, write_line};
pub use numbers::number_within;
pub use reading::{read_licence_file, read_options_file, read_sets};
pub use room::ROOM;
pub use running::tool;
pub use status::Status;
pub use words::{Words, words_of};
