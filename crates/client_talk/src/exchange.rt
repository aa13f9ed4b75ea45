//! One request and its reply.
ghost use Rattle.std.specs.Prelude.{◌≡◌, ℕ, [], ◌∷◌, ◌++◌, List, string_bytes};
ghost use Rattle.client_talk.specs.Exchange.{Asks, Says};
ghost use Rattle.client_talk.specs.Requests.{Makes};
ghost use Rattle.client_talk.specs.declared.want.Want.{Want};

use crate::cause::{Cause, Refusal};
use crate::hearing::hear;
use crate::lost::Lost;
use crate::request::Request;
use line_protocol::Feeder;
use session_outside::Link;

/// Writes a line, with its LF, and hears the reply.
fn say<L: Link>(link: &mut L, line: &[u8]) -> Result<Feeder, Lost>
    ensures { Says L.tells link.old link.new line.now result }
{
    link.write(line)?;
    hear(link)
}

/// Asks a request, and gives the reply that it wants.
pub(crate) fn ask_for<L: Link>(link: &mut L, request: Request) -> Result<Feeder, Cause>
    ensures { (words : List ℕ) → string_bytes request.line ≡ words ++ 10 ∷ [] → Asks L.tells link.old link.new words request.want result }
{
    let reply = say(link, request.line.as_bytes())?;
    if request.want.accepts(reply.line()) {
        Ok(reply)
    } else {
        Err(Cause::Refused(Refusal { request, reply }))
    }
}

/// Asks a request, where it was made.
pub(crate) fn ask_made<L: Link>(link: &mut L, made: Result<Request, Cause>) -> Result<Feeder, Cause>
    ensures { (words : List ℕ) (want : Want) → Makes words want made → Asks L.tells link.old link.new words want result }
{
    ask_for(link, made?)
}
