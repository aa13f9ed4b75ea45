use crate::keyword::LogKeyword;
use lic_types::{Group, Note, RuleLine};

/// What a line that has no fault says.
#[derive(Drop)]
pub enum Entry {
    /// A GROUP or HOST_GROUP line.
    Lists(Group),
    /// A rule.
    Rules(RuleLine),
    /// A line that isn't acted on, and its keyword.
    Passes(Note, LogKeyword),
}
