ghost use Rattle.scripts.specs.Laws.{LinesAreReplies, ScriptsAreLawful, ScriptsArePooled, ScriptsAreRuns};

/// The entries that a script makes at each pool are a run of the pool's rule sets, in the order of its lines: each has
/// the reply of the options machine at the state that those before it leave.
pub fn scripts_are_runs()
    ensures { ScriptsAreRuns }
{}

/// A script makes one history at each pool, in the order of the pools.
pub fn scripts_are_pooled()
    ensures { ScriptsArePooled }
{}

/// The output line of each script line that goes to a pool is the reply of an entry of the history that the whole
/// script makes there, with the entry's place in it.
pub fn lines_are_replies()
    ensures { LinesAreReplies }
{}

/// The state that a script leaves at each pool of a licence is lawful, and so it is after each of its lines: seats in
/// use are at most the pool's count, each RESERVE line of the rule set that holds has at most its cut number of
/// charges, and each party has at most one entry in holders and queue together.
pub fn scripts_are_lawful()
    ensures { ScriptsAreLawful }
{}
