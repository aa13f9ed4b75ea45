/// What the reader of a file noticed of a line that it accepted and that has no effect.
#[derive(Clone, Copy, Debug, PartialEq, Eq)]
pub struct Note {
    /// The physical line, from 1.
    pub line: u32,
    /// What was noticed.
    pub kind: NoteKind,
}

/// Why an accepted line has no effect (this project).
#[derive(Clone, Copy, Debug, PartialEq, Eq)]
pub enum NoteKind {
    /// A FEATURE line whose name an earlier FEATURE line has.
    SecondFeature,
    /// A licence without a count, which isn't a floating one.
    NodeLocked,
    /// A line of a kind that the daemon doesn't serve.
    NotServed,
    /// An options line of a kind that the daemon doesn't act on.
    NotActed,
}
