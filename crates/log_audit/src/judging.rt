//! Whether the entries of a log are a run at each pool.
ghost use Rattle.std.specs.Prelude.{◌≡◌, [], IfOk, MatchOption, flat_map, length, map, true};
ghost use Rattle.std.specs.List.{list_all};
ghost use Rattle.log_audit.specs.Audit.{IsFirstBad, IsRunLog};
ghost use Rattle.log_audit.specs.Desks.{days_so_far};
ghost use Rattle.log_audit.specs.Kept.{StandAll, sets_at};
ghost use Rattle.log_audit.specs.Log.{is_fit};
ghost use Rattle.log_audit.specs.Usage.{usage};

use crate::desk::{Desk, Expected};
use crate::log::Numbered;
use no_memory::NoMemory;

/// The first line that shows that a log is no run.
#[derive(Clone, Copy)]
pub(crate) struct NotRun {
    /// The number of the line in the file, from 1.
    pub(crate) line: u32,
    /// What holds in the place of its entry.
    pub(crate) expected: Expected,
}

/// The first line that shows that a log is no run at these desks, which are at their opening; None where it is one, and
/// then the desks tell its days.
pub(crate) fn judge_all(desks: &mut [Desk], log: &[Numbered]) -> Result<Option<NotRun>, NoMemory>
    requires opening { StandAll (map sets_at desks.old) [] desks.old }
    requires fit { list_all (is_fit (length desks.old)) log.now ≡ true }
    ensures { IfOk result (λ found. MatchOption found
        (IsRunLog (map sets_at desks.old) log.now × (flat_map days_so_far desks.new ≡ usage (map sets_at desks.old) log.now))
        (λ no. IsFirstBad (map sets_at desks.old) log.now no.line no.expected.place no.expected.moment no.expected.reply)) }
{
    for entry in log {
        let desk = &mut desks[entry.logged.pool as usize];
        let found = desk.take(&entry.logged)?;
        if let Some(expected) = found {
            return Ok(Some(NotRun {
                line: entry.line,
                expected,
            }));
        }
    }
    Ok(None)
}
