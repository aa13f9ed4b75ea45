//! The words of an errand, judged before anything is said.
ghost use Rattle.std.specs.Prelude.{◌≡◌, ℕ, List, map};
ghost use Rattle.client_talk.specs.Holding.{hold_lines};
ghost use Rattle.client_talk.specs.Judging.{Judges, client_verdict, errand_verdict, lines_verdict, lines_of, name_verdict};
ghost use Rattle.client_talk.specs.Requests.{Makes, line_judged};
ghost use Rattle.client_talk.specs.Talks.{glance_line};
ghost use Rattle.client_talk.specs.declared.want.Want.{Want};

use crate::cause::Cause;
use crate::client::{BadWord, Client, ClientWord};
use crate::hold::Hold;
use crate::request::Request;
use crate::running::Errand;
use crate::want::Want;
use lic_types::Name;
use std::alloc::Global;

/// Whether a word of a HELLO is a name.
fn judge_word(word: ClientWord, text: &str) -> Result<(), Cause>
    ensures { result ≡ name_verdict word text.now }
{
    Name::read(text.as_bytes()).map_err(|fault| Cause::BadWord(BadWord { word, fault }))?;
    Ok(())
}

/// Whether all words that say who asks are names.
fn judge_client(client: &Client<'_>) -> Result<(), Cause>
    ensures { result ≡ client_verdict client.now }
{
    judge_word(ClientWord::User, client.user)?;
    judge_word(ClientWord::Host, client.host)?;
    judge_word(ClientWord::Display, client.display)?;
    judge_word(ClientWord::Project, client.project)
}

/// Whether a request was made.
fn judge_made(made: Result<Request, Cause>) -> Result<(), Cause>
    ensures { (words : List ℕ) (want : Want) → Makes words want made → Judges (line_judged words) result }
{
    made?;
    Ok(())
}

/// Whether the requests for the desks of these features can be made.
fn judge_features(alloc: Global, features: &[&str]) -> Result<(), Cause>
    ensures { Judges (lines_verdict (map glance_line (map (λ feature. feature.now) features.now))) result }
{
    for feature in features {
        judge_made(Request::glance(alloc, feature))?;
    }
    Ok(())
}

/// Whether the requests of a seat that is held can be made.
fn judge_hold(alloc: Global, hold: &Hold<'_>) -> Result<(), Cause>
    ensures { Judges (lines_verdict (hold_lines hold.now)) result }
{
    judge_made(Request::seat(alloc, hold))?;
    judge_made(Request::beat(alloc, hold.feature, Want::Beaten))?;
    judge_made(Request::checkin(alloc, hold.feature, Want::Returned))
}

/// Whether the requests of an errand can be made.
fn judge_lines(alloc: Global, errand: &Errand<'_>) -> Result<(), Cause>
    ensures { Judges (lines_verdict (lines_of errand.now)) result }
{
    match *errand {
        Errand::Ask(words) => judge_made(Request::make(alloc, words, Want::Answer)),
        Errand::Status(features) => judge_features(alloc, features),
        Errand::Hold(hold) => judge_hold(alloc, &hold),
        Errand::Reread(number) => judge_made(Request::reread(alloc, number)),
        Errand::Shutdown => Ok(()),
    }
}

/// Whether the words of an errand will do: `BadWord` comes exactly where a word that says who asks is no name, with the
/// first such word; `TooLong` and `NoRequest` exactly where these are names, or none is wanted, and a line of the
/// errand has more than 1,024 bytes or is no request of the protocol, of the first such line; and `NoMemory` where
/// memory ran out.
pub fn judge(alloc: Global, errand: &Errand<'_>, client: &Client<'_>) -> Result<(), Cause>
    ensures { Judges (errand_verdict errand.now client.now) result }
{
    if matches!(errand, Errand::Shutdown) {
        return Ok(());
    }
    judge_client(client)?;
    judge_lines(alloc, errand)
}
