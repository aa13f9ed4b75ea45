use thiserror::Error;

/// Why a net is refused. The tests are made in the order of the variants, and the first that fails is told.
#[derive(Clone, Copy, PartialEq, Eq, Debug, Error)]
pub enum NetFault {
    /// The parties aren't 2 to 256, the width isn't 1 to the number of parties, there are more than 4,096 stages, or a
    /// list hasn't its length.
    #[error("the sizes of the net do not fit")]
    Size,
    /// The first stage whose next stage isn't above it, or is above the number of stages.
    #[error("stage {0} has a wrong next stage")]
    BadNext(u32),
    /// The first party whose start is above the number of stages.
    #[error("party {0} has a wrong start")]
    BadStart(u32),
    /// The first stage whose capacity is 0.
    #[error("stage {0} admits nobody")]
    BadCap(u32),
    /// The first stage to which more can come than its capacity and one: the parties that start there, and the
    /// capacities of the stages that lead to it.
    #[error("more can come to stage {0} than it has room for")]
    Overfull(u32),
    /// More can come to Exit than the width.
    #[error("more can come to the exit than there are numbers")]
    OverfullExit,
}
