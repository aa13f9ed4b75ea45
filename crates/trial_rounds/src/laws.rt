//! The laws of a trial's grants.
ghost use Rattle.trial_rounds.specs.Rounds.{GrantsAdd, RoundsAreGranted};

/// A client whose whole session stands in a run of the trial's rules was granted a seat once in each of its rounds: it
/// has nothing when it asks, so it is granted a seat or told that there is none, and then it asks again. The trial is
/// this project's own.
pub fn rounds_granted()
    ensures { RoundsAreGranted }
{}

/// Where each of the first parties was granted as many seats, and no other party asked anything, the grants of the
/// history are their product.
pub fn grants_add()
    ensures { GrantsAdd }
{}
