//! Requests, each with the replies that it wants.
ghost use Rattle.std.specs.Prelude.{◌≡◌, ◌∷◌, ◌++◌, [], string_bytes};
ghost use Rattle.client_talk.specs.Holding.{seat_line, seat_want};
ghost use Rattle.client_talk.specs.Talks.{beat_line, checkin_line, checkout_line, glance_line, hello_line, queue_line, reread_line};
ghost use Rattle.client_talk.specs.Requests.{Makes};

use crate::cause::Cause;
use crate::client::Client;
use crate::hold::Hold;
use crate::want::Want;
use line_protocol::{LINE_LIMIT, read_request};
use std::alloc::Global;

/// A request.
#[derive(Drop)]
pub struct Request {
    /// Its line, with the LF.
    pub line: String,
    /// Which replies are what it asks for.
    pub want: Want,
}

impl Request {
    /// The request of these words. `TooLong` comes exactly where they have more than 1,024 bytes, `NoRequest` exactly
    /// where they have no more and are no request of the protocol, with their first fault; `NoMemory` where memory ran
    /// out.
    pub fn make(alloc: Global, words: &str, want: Want) -> Result<Request, Cause>
        ensures { Makes words.now want result }
    {
        if words.len() > LINE_LIMIT {
            return Err(Cause::TooLong);
        }
        read_request(words.as_bytes()).map_err(Cause::NoRequest)?;
        let line = format!(in alloc; "{words}\n")?;
        Ok(Request { line, want })
    }

    /// The request that says who the client is.
    pub fn hello(alloc: Global, client: &Client<'_>) -> Result<Request, Cause>
        ensures { Makes (hello_line client.now) Want.Welcome result }
    {
        let Client {
            user,
            host,
            display,
            project,
        } = *client;
        let words = format!(in alloc; "HELLO {user} {host} {display} {project}")?;
        Request::make(alloc, words.as_str(), Want::Welcome)
    }

    /// The request for the numbers of a feature's desk.
    pub fn glance(alloc: Global, feature: &str) -> Result<Request, Cause>
        ensures { Makes (glance_line feature.now) Want.Numbers result }
    {
        let words = format!(in alloc; "GLANCE {feature}")?;
        Request::make(alloc, words.as_str(), Want::Numbers)
    }

    /// The request for a seat.
    pub fn checkout(alloc: Global, feature: &str, version: &str) -> Result<Request, Cause>
        ensures { Makes (checkout_line feature.now version.now) Want.Seat result }
    {
        let words = format!(in alloc; "CHECKOUT {feature} {version}")?;
        Request::make(alloc, words.as_str(), Want::Seat)
    }

    /// The request for a seat, or else for a place in the queue.
    pub fn queue(alloc: Global, feature: &str, version: &str) -> Result<Request, Cause>
        ensures { Makes (queue_line feature.now version.now) Want.Place result }
    {
        let words = format!(in alloc; "QUEUE {feature} {version}")?;
        Request::make(alloc, words.as_str(), Want::Place)
    }

    /// The request by which a seat that is to be held is asked for.
    pub fn seat(alloc: Global, hold: &Hold<'_>) -> Result<Request, Cause>
        ensures { Makes (seat_line hold.now) (seat_want hold.now) result }
    {
        match hold.pace.waiting {
            Some(_) => Request::queue(alloc, hold.feature, hold.version),
            None => Request::checkout(alloc, hold.feature, hold.version),
        }
    }

    /// The request to be heard, which wants these replies.
    pub fn beat(alloc: Global, feature: &str, want: Want) -> Result<Request, Cause>
        ensures { Makes (beat_line feature.now) want result }
    {
        let words = format!(in alloc; "BEAT {feature}")?;
        Request::make(alloc, words.as_str(), want)
    }

    /// The request to give a seat, or a place in the queue, back, which wants these replies.
    pub fn checkin(alloc: Global, feature: &str, want: Want) -> Result<Request, Cause>
        ensures { Makes (checkin_line feature.now) want result }
    {
        let words = format!(in alloc; "CHECKIN {feature}")?;
        Request::make(alloc, words.as_str(), want)
    }

    /// The request that the rule set of a number holds.
    pub fn reread(alloc: Global, number: &str) -> Result<Request, Cause>
        ensures { Makes (reread_line number.now) Want.Reread result }
    {
        let words = format!(in alloc; "REREAD {number}")?;
        Request::make(alloc, words.as_str(), Want::Reread)
    }
}
