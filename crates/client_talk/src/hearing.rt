//! How a reply is heard.
ghost use Rattle.std.specs.Prelude.{◌≡◌, ◌∷◌, [], Result, false};
ghost use Rattle.line_protocol.specs.Streams.{IsOpen, waiting};
ghost use Rattle.session_outside.specs.Talk.{Event, Follows};
ghost use Rattle.client_talk.specs.Hearing.{HearsReply, StepSays};

use crate::lost::Lost;
use line_protocol::{Fed, Feeder};
use session_outside::{Got, Link};

/// How many reads may be Quiet before a reply is given up.
const PATIENCE: u32 = 30;

/// What one read gave.
#[derive(Clone, Copy)]
pub(crate) enum Step {
    /// The reply is whole.
    Reply,
    /// Some bytes of it.
    More,
    /// Nothing came for a while.
    Quiet,
}

/// Reads once.
fn hear_some<L: Link>(link: &mut L, feeder: &mut Feeder) -> Result<Step, Lost>
    requires { feeder.old.over ≡ false }
    ensures { (e : Event) × Follows L.tells link.old link.new (e ∷ []) × StepSays e feeder.old feeder.new result }
{
    let mut piece = [0u8; 512];
    match link.read(&mut piece) {
        Got::Bytes(count) => match feeder.feed(&piece[..count]) {
            Fed::Line(used) => {
                if used == count {
                    Ok(Step::Reply)
                } else {
                    Err(Lost::Garbled)
                }
            }
            Fed::More => Ok(Step::More),
            Fed::TooLong => Err(Lost::Garbled),
        },
        Got::Quiet => Ok(Step::Quiet),
        Got::End => Err(Lost::Closed),
        Got::Failed => Err(Lost::Fault),
    }
}

/// Hears one line, which the feeder holds then.
pub(crate) fn hear<L: Link>(link: &mut L) -> Result<Feeder, Lost>
    ensures { HearsReply L.tells link.old link.new result }
{
    let mut feeder = Feeder::make();
    let mut quiets = 0;
    while quiets < PATIENCE {
        match hear_some(link, &mut feeder)? {
            Step::Reply => return Ok(feeder),
            Step::More => {}
            Step::Quiet => quiets += 1,
        }
    }
    Err(Lost::Silent)
}
