ghost use Rattle.std.specs.Prelude.{◌≡◌, ◌≤◌, ◌<◌, length, true};
ghost use Rattle.std.specs.List.{list_all};
ghost use Rattle.script_text.specs.Fits.{is_fit};
ghost use Rattle.scripts.specs.Laws.{AreOrderly, Histories};

use crate::laws::{lines_are_replies, scripts_are_lawful, scripts_are_pooled, scripts_are_runs};
use feature_lines::Licence;
use options_machine::{denials_name_their_line, no_seat_is_left};
use options_text::Options;
use script_text::ScriptLine;

/// Options that were read are orderly. It tells so to the caller's proof.
fn tell_orderly(options: &[Options])
    ensures { AreOrderly options.now }
{
    for file in options {
        let _ = file.lines();
    }
}

/// What a script makes at the pools of a licence: histories, one for each pool, each a run of the pool's rule sets in a
/// lawful state, and the output lines are replies of their entries. It changes nothing: a call tells it to the caller's
/// proof.
pub(crate) fn tell_histories(licence: &Licence, options: &[Options], lines: &[ScriptLine<'_>])
    requires fit { list_all is_fit lines.now ≡ true }
    requires some { 0 < length options.now }
    requires few { length options.now ≤ 4 }
    ensures { Histories licence.now.pools options.now lines.now }
{
    let _ = licence.pools();
    tell_orderly(options);
    scripts_are_pooled();
    scripts_are_runs();
    scripts_are_lawful();
    lines_are_replies();
    denials_name_their_line();
    no_seat_is_left();
    let _ = lines;
}
