//! An entry that borrows its request.
ghost use Rattle.std.specs.Prelude.{◌≡◌};

use crate::reply::{Entry, Reply, Request};
use std::marker::Model;

/// One step of a desk, whose request stays where it is. A clause sees it as it sees an [`Entry`].
#[derive(Drop)]
pub struct EntryRef<'a> {
    request: &'a Request,
    moment: u64,
    reply: Reply,
}

impl<'a> Model for EntryRef<'a> {
    ghost use Rattle.options_machine.specs.declared.reply.Entry.{Entry};

    ghost Value = { Entry };

    ghost view = { λ e. record { request = e.request.now; moment = e.moment; reply = e.reply } };
}

impl<'a> EntryRef<'a> {
    /// The step of a request, which used this moment, in seconds since 1970-01-01 UTC, and gave this reply.
    pub fn of(request: &'a Request, moment: u64, reply: Reply) -> EntryRef<'a>
        ensures { result ≡ record { request = request.now; moment = moment; reply = reply } }
    {
        EntryRef {
            request,
            moment,
            reply,
        }
    }

    /// The entry, with a copy of the request.
    pub fn entry(&self) -> Entry
        ensures { result ≡ self.now }
    {
        Entry {
            request: *self.request,
            moment: self.moment,
            reply: self.reply,
        }
    }
}
