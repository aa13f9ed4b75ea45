//! How a session ends.
/// How a session ended.
#[derive(Clone, Copy, Debug, PartialEq, Eq)]
pub enum SessionEnd {
    /// After a QUIT was read and answered.
    Quit,
    /// After a SHUTDOWN was read and answered.
    Down,
    /// At the end of the stream, behind the LF of its last line.
    End,
    /// At the end of the stream, with this many bytes behind its last LF.
    Torn(u32),
    /// At a line of more than 1,024 bytes.
    LineTooLong,
    /// At a read or a write that failed.
    LinkFault,
    /// At a Quiet at which the bell had rung.
    Stopped,
}
