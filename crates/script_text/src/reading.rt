ghost use Rattle.std.specs.Prelude.{◌≡◌, ◌<◌, ◌^◌, IfOk, length, true};
ghost use Rattle.std.specs.List.{list_all};
ghost use Rattle.lic_text.specs.LinesLeft.{item_view};
ghost use Rattle.lic_text.specs.Reads.{Reads};
ghost use Rattle.script_text.specs.Fits.{is_fit};
ghost use Rattle.script_text.specs.Script.{fault_told, line_of, script_of};

use crate::line::ScriptLine;
use crate::refusal::ScriptRefusal;
use crate::words::read_words;
use lic_text::{Line, TextFault, lines};
use script_words::ScriptFault;
use std::alloc::Global;

/// The script line of a logical line.
fn read_line(line: Result<Line<'_>, TextFault>) -> Result<ScriptLine<'_>, ScriptFault>
    ensures line { result ≡ line_of (item_view line.entry) }
    ensures fit { IfOk result (λ line. is_fit line ≡ true) }
{
    let line = line?;
    match read_words(line.first(), line.words()) {
        Ok(line) => Ok(line),
        Err(fault) => Err(ScriptFault {
            line: line.first(),
            fault,
        }),
    }
}

/// The lines of a script in their order, each line with words being one of
///
/// - `moment party user host display project VERB feature version`, VERB being CHECKOUT or QUEUE
/// - `moment party user host display project VERB feature`, VERB being CHECKIN, BEAT, LOOK, STATUS or QUIT
/// - `moment party user host display project REREAD number`
///
/// in just these capitals. The moment is in seconds since 1970-01-01 UTC and below 2^40, the party is below 256, and
/// the number is that of a rule set, below 2^32. STATUS asks for the numbers of the pool (`Kind::Count`). The grammar
/// is this project's own. The names of a line stay slices of the script, which is kept as long as its lines are.
///
/// `Fault` comes exactly where a line is at fault, and names the first such line. Its faults are tried in this order:
///
/// 1. `Text` where the lines end early, in a line too long or an open continuation.
/// 2. `WordCount` where the line has fewer than 8 words.
/// 3. The first 7 words from left to right: `BadNumber` for a moment or a party that is no number or is out of its
///    range, `BadName` for a user, host, display or project that is no name, `UnknownWord` for a verb that isn't one
///    of the eight.
/// 4. `WordCount` where a checkout or a queueing hasn't 9 words, or another line hasn't 8.
/// 5. `BadName` for a feature that is no name, or `BadNumber` for a number of a rule set that is no number or is out of
///    its range.
/// 6. `BadVersion` for a version that is none.
///
/// `NoMemory` comes where there is too little memory to hold the lines.
pub fn read_script(alloc: Global, file: &[u8]) -> Result<Vec<ScriptLine<'_>>, ScriptRefusal>
    requires { length file.now < 2 ^ 32 }
    ensures script { Reads (λ script. script.items) fault_told (script_of file.now) result }
    ensures fit { IfOk result (λ script. list_all is_fit script.items ≡ true) }
{
    let mut script = Vec::new(alloc);
    for line in lines(file) {
        let line = read_line(line)?;
        prove!(line.feature.is_some() || line.version.is_none());
        script.push(line)?;
    }
    Ok(script)
}
