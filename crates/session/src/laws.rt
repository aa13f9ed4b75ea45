//! The law of what a session heard.
ghost use Rattle.session.specs.Reading.{SessionsRead};

/// The bytes that a session heard are lines, one for each line that it wrote, in their order, and a rest of which it
/// answered nothing.
pub fn sessions_read()
    ensures { SessionsRead }
{}
