//! The errands that are one talk: a request, or the desks of features.
ghost use Rattle.std.specs.Prelude.{◌≡◌, ℕ, List, map};
ghost use Rattle.client_talk.specs.Errands.{IsAnswered, IsGlanced, IsStatus};
ghost use Rattle.client_talk.specs.Exchange.{Asks};
ghost use Rattle.client_talk.specs.Requests.{Makes};
ghost use Rattle.client_talk.specs.Talks.{hello_line, reread_line, shutdown_line};
ghost use Rattle.client_talk.specs.declared.want.Want.{Want};

use crate::cause::Cause;
use crate::client::Client;
use crate::exchange::ask_made;
use crate::glance::read_glance;
use crate::request::Request;
use crate::table::{head, put_row};
use crate::want::Want;
use counter::Glance;
use line_protocol::Feeder;
use session_outside::Link;
use std::alloc::Global;

/// Says who the client is.
pub(crate) fn greet<L: Link>(
    alloc: Global,
    link: &mut L,
    client: &Client<'_>,
) -> Result<Feeder, Cause>
    ensures { Asks L.tells link.old link.new (hello_line client.now) Want.Welcome result }
{
    ask_made(link, Request::hello(alloc, client))
}

/// Says who the client is, and asks a request.
pub(crate) fn ask_greeted<L: Link>(
    alloc: Global,
    link: &mut L,
    client: &Client<'_>,
    made: Result<Request, Cause>,
) -> Result<Feeder, Cause>
    ensures { (words : List ℕ) (want : Want) → Makes words want made → IsAnswered L.tells link.old link.new (hello_line client.now) words want result }
{
    greet(alloc, link, client)?;
    ask_made(link, made)
}

/// Says who the client is and asks the request of these words, and gives the reply, which is held by the feeder.
pub fn ask<L: Link>(
    alloc: Global,
    link: &mut L,
    client: &Client<'_>,
    words: &str,
) -> Result<Feeder, Cause>
    ensures { IsAnswered L.tells link.old link.new (hello_line client.now) words.now Want.Answer result }
{
    let made = Request::make(alloc, words, Want::Answer);
    ask_greeted(alloc, link, client, made)
}

/// Says who the client is and asks that the rule set of this number holds, and gives the reply.
pub fn reread<L: Link>(
    alloc: Global,
    link: &mut L,
    client: &Client<'_>,
    number: &str,
) -> Result<Feeder, Cause>
    ensures { IsAnswered L.tells link.old link.new (hello_line client.now) (reread_line number.now) Want.Reread result }
{
    let made = Request::reread(alloc, number);
    ask_greeted(alloc, link, client, made)
}

/// Asks that all sessions end, and gives the reply.
pub fn shutdown<L: Link>(alloc: Global, link: &mut L) -> Result<Feeder, Cause>
    ensures { Asks L.tells link.old link.new shutdown_line Want.Stopping result }
{
    ask_made(link, Request::make(alloc, "SHUTDOWN", Want::Stopping))
}

/// Asks for the numbers of a feature's desk.
fn glance<L: Link>(alloc: Global, link: &mut L, feature: &str) -> Result<Glance, Cause>
    ensures { IsGlanced L.tells link.old link.new feature.now result }
{
    let reply = ask_made(link, Request::glance(alloc, feature))?;
    read_glance(reply.line()).ok_or(Cause::NoNumbers(reply))
}

/// Says who the client is, asks for the desk of each feature, and gives the table of them.
pub fn status<L: Link>(
    alloc: Global,
    link: &mut L,
    client: &Client<'_>,
    features: &[&str],
) -> Result<Vec<u8>, Cause>
    ensures { IsStatus L.tells link.old link.new (hello_line client.now) (map (λ feature. feature.now) features.now) result }
{
    greet(alloc, link, client)?;
    let mut text = head(alloc)?;
    for feature in features {
        let glance = glance(alloc, link, feature)?;
        put_row(&mut text, feature, &glance)?;
    }
    Ok(text)
}
