ghost use Rattle.audit_log.specs.Laws.{LogsReadBack, RepliesReadBack};

/// The words of each reply are read as that reply, and no other words are read as it.
///
/// It does nothing when it runs: a call tells it to the caller's proof.
pub fn replies_read_back()
    ensures { RepliesReadBack }
{}

/// What `write_entry` writes of entries, one line behind another, is read by `read_entry` line by line as these
/// entries, each at its place of its pool. So it is where an entry's numbers are of their fields, its names are names,
/// its reply doesn't say of its party both that it was told and that it waits, and a request for a rule set is answered
/// by its number.
///
/// It does nothing when it runs: a call tells it to the caller's proof.
pub fn logs_read_back()
    ensures { LogsReadBack }
{}
