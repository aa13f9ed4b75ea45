//! What a request asks of a session.
ghost use Rattle.std.specs.Prelude.{◌≡◌, None};
ghost use Rattle.session.specs.Table.{input_of, is_meant};

use lic_types::{ClientRef, NameRef, Version};
use line_protocol::Wire;
use options_machine::Kind;

/// A feature request: what is asked of which feature, and from which version on where a seat is asked for.
#[derive(Drop)]
pub(crate) struct Feature<'a> {
    pub(crate) kind: Kind,
    pub(crate) name: NameRef<'a>,
    pub(crate) version: Option<Version>,
}

/// What a session does with a request. Its names stand in the line of the request.
#[derive(Drop)]
pub(crate) enum Input<'a> {
    /// It makes a client known.
    Hello(ClientRef<'a>),
    /// It asks a desk.
    Ask(Feature<'a>),
    /// It glances at a desk.
    Glance(NameRef<'a>),
    /// It asks all desks for a rule set.
    Reread(u32),
    /// It ends.
    Quit,
    /// It ends all sessions.
    Shutdown,
}

/// Which desks are meant.
#[derive(Clone, Copy)]
pub(crate) enum Whom {
    /// Those on which the session is holding.
    Holding,
    /// Those on which it is holding or queued.
    Keeping,
    /// All.
    Everyone,
}

impl Whom {
    pub(crate) fn is_meant(self, holds: bool, queues: bool) -> bool
        ensures { result ≡ is_meant self holds queues }
    {
        match self {
            Whom::Holding => holds,
            Whom::Keeping => holds || queues,
            Whom::Everyone => true,
        }
    }
}

/// What a session does with a request.
pub(crate) fn input_of(request: Wire<'_>) -> Input<'_>
    ensures { result ≡ input_of request.entry }
{
    match request {
        Wire::Hello(client) => Input::Hello(client),
        Wire::Checkout(name, version) => Input::Ask(Feature {
            kind: Kind::Checkout,
            name,
            version: Some(version),
        }),
        Wire::Queue(name, version) => Input::Ask(Feature {
            kind: Kind::Queue,
            name,
            version: Some(version),
        }),
        Wire::Checkin(name) => of_feature(Kind::Checkin, name),
        Wire::Beat(name) => of_feature(Kind::Beat, name),
        Wire::Look(name) => of_feature(Kind::Look, name),
        Wire::Status(name) => of_feature(Kind::Count, name),
        Wire::Glance(name) => Input::Glance(name),
        Wire::Reread(set) => Input::Reread(set),
        Wire::Quit => Input::Quit,
        Wire::Shutdown => Input::Shutdown,
    }
}

/// A request of a feature, whatever its version.
fn of_feature(kind: Kind, name: NameRef<'_>) -> Input<'_>
    ensures { result ≡ Input.Ask (record { kind = kind; name = name.entry; version = None }) }
{
    Input::Ask(Feature {
        kind,
        name,
        version: None,
    })
}
