//! The entries of a log, read from its lines.
ghost use Rattle.std.specs.Prelude.{◌≡◌, ◌++◌, ◌<◌, ◌^◌, IfOk, IfSome, OnOk, length, true};
ghost use Rattle.std.specs.List.{list_all};
ghost use Rattle.std.specs.Option.{option_to_list};
ghost use Rattle.lic_text.specs.LinesLeft.{item_view};
ghost use Rattle.lic_text.specs.Reads.{Reads};
ghost use Rattle.log_audit.specs.Log.{fault_told, is_fit, log_of, read_of};

use crate::fault::AuditFault;
use audit_log::{Logged, is_summary, read_entry};
use lic_text::{Line, TextFault, lines};
use no_memory::NoMemory;
use script_words::{ScriptFault, ScriptWord};
use std::alloc::Global;

/// An entry of a log.
#[derive(Clone, Copy, Debug, PartialEq, Eq)]
pub struct Numbered {
    /// The number of its line's first physical line in the file, from 1.
    pub line: u32,
    /// What the line says.
    pub logged: Logged,
}

/// The entry of a line, where its pool is one of so many; None of a line that has none.
fn read_line(
    pools: usize,
    line: Result<Line<'_>, TextFault>,
) -> Result<Option<Numbered>, ScriptFault>
    ensures line { result ≡ read_of pools (item_view line.entry) }
    ensures fit { IfOk result (λ found. IfSome found (λ x. is_fit pools x ≡ true)) }
{
    let line = line?;
    if is_summary(&line) {
        return Ok(None);
    }
    let logged = read_entry(&line)?;
    if logged.pool as usize >= pools {
        return Err(ScriptFault {
            line: line.first(),
            fault: ScriptWord::BadNumber,
        });
    }
    Ok(Some(Numbered {
        line: line.first(),
        logged,
    }))
}

fn push_some(log: &mut Vec<Numbered>, found: Option<Numbered>) -> Result<(), NoMemory>
    ensures { OnOk result (log.new.items ≡ log.old.items ++ option_to_list found) }
{
    if let Some(entry) = found {
        log.push(entry)?;
    }
    Ok(())
}

/// The entries of a log of so many pools, in the order of its lines. Lines whose first word is LOG or TALLY are passed
/// over.
///
/// `Log` comes exactly where a line can't be read, with the first such line. `read_entry` tells the faults; besides,
/// the number of a pool that there isn't is `BadNumber`, where the line has no other fault. `NoMemory` comes where
/// there is too little memory to hold the entries.
pub fn read_log(alloc: Global, pools: usize, file: &[u8]) -> Result<Vec<Numbered>, AuditFault>
    requires { length file.now < 2 ^ 32 }
    ensures log { Reads (λ log. log.items) fault_told (log_of pools file.now) result }
    ensures fit { IfOk result (λ log. list_all (is_fit pools) log.items ≡ true) }
{
    let mut log = Vec::new(alloc);
    for line in lines(file) {
        let found = read_line(pools, line)?;
        push_some(&mut log, found)?;
    }
    Ok(log)
}
