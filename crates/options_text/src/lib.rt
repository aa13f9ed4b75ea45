//! The options file: its groups, rules and notes, read exactly and written canonically.
#![tactic(auto)]

mod entry;
mod fault;
mod form;
mod keyword;
mod laws;
mod lines;
mod names;
mod options;
mod parts;
mod reading;
mod text;
mod undefined;
mod writing;

pub use fault::OptionsFault;
pub use keyword::LogKeyword;
pub use laws::{canonical_text_reads_back, canonical_text_stays};
pub use lic_types::Group;
pub use lines::RuleLines;
pub use options::{Options, read_options, write_options};
