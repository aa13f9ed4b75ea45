ghost use Rattle.desk_logs.specs.Ends.{EndsAreWritten};

/// What `write_logs` writes of logs and tallies is what the histories call for whose logs and tallies they are.
///
/// It does nothing when it runs: a call tells it to the caller's proof.
pub fn ends_are_written()
    ensures { EndsAreWritten }
{}
