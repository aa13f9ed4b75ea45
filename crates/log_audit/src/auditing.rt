//! Whole logs.
ghost use Rattle.std.specs.Prelude.{◌≡◌, ◌<◌, ◌≤◌, ◌^◌, IfOk, length, map, true};
ghost use Rattle.std.specs.List.{list_all};
ghost use Rattle.log_audit.specs.Audited.{IsAudited, IsShown, sets_of};
ghost use Rattle.log_audit.specs.Log.{is_fit, log_of};

use crate::audited::Audited;
use crate::fault::AuditFault;
use crate::judging::judge_all;
use crate::log::{Numbered, read_log};
use crate::making::make_desks;
use crate::sums::sum_up;
use feature_lines::Licence;
use no_memory::NoMemory;
use options_text::Options;
use std::alloc::Global;

/// Judges the entries of a log by a licence and one to four options files, of which the first holds until an entry asks
/// for another by its number, from 0. The entries of each pool are run in the log's order. The answer is
///
/// - `Yes` exactly where the log is a run: each pool's entries stand at the places 0, 1, 2 and so on, no moment goes
///   back, and each reply is the machine's.
/// - `No` exactly where it is none, with the first line that shows it. Its place, moment and reply are those that hold
///   there, also where the line's own are wrong. In the place of a request for a rule set that there isn't, a look of
///   its party holds.
///
/// It fails where there is too little memory to hold the books or the sums.
pub fn audit_entries(
    alloc: Global,
    licence: &Licence,
    options: &[Options],
    log: &[Numbered],
) -> Result<Audited, NoMemory>
    requires some { 0 < length options.now }
    requires few { length options.now ≤ 4 }
    requires fit { list_all (is_fit (length licence.now.pools)) log.now ≡ true }
    ensures { IfOk result (IsShown (map (sets_of options.now) licence.now.pools) log.now) }
{
    let mut made = make_desks(alloc, licence.pools(), options)?;
    let desks = made.as_mut_slice();
    match judge_all(desks, log)? {
        Some(no) => Ok(Audited::No {
            line: no.line,
            place: no.expected.place,
            moment: no.expected.moment,
            reply: no.expected.reply,
        }),
        None => Ok(Audited::Yes(sum_up(alloc, desks, log)?)),
    }
}

/// Judges a log by a licence and one to four options files, as `audit_entries` does with the entries that `read_log`
/// reads. The answer is that of the first of these that has one:
///
/// - `Log` exactly where a line can't be read, with the first such line. `read_entry` tells the faults; besides, a pool
///   that the licence doesn't have is `BadNumber`, where the line has no other fault.
/// - `Yes` or `No` by the entries.
/// - `NoMemory` where there is too little memory to hold the entries, the books or the sums.
///
/// The form of a log is this project's own.
pub fn audit(
    alloc: Global,
    licence: &Licence,
    options: &[Options],
    log: &[u8],
) -> Result<Audited, AuditFault>
    requires some { 0 < length options.now }
    requires few { length options.now ≤ 4 }
    requires size { length log.now < 2 ^ 32 }
    ensures { IsAudited (map (sets_of options.now) licence.now.pools) (log_of (length licence.now.pools) log.now) result }
{
    let log = read_log(alloc, licence.pools().len(), log)?;
    Ok(audit_entries(alloc, licence, options, log.as_slice())?)
}
