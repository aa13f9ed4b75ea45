//! What is asked and what is answered.
ghost use Rattle.std.specs.Prelude.{◌≡◌};
ghost use Rattle.options_machine.specs.Own.{brings_seat, is_of_holding, is_of_queueing};
ghost use Rattle.options_machine.specs.Step.{set_asked, task};

use lic_types::Client;

/// What a client asks a desk. The kinds and what each does are this project's own.
#[derive(Clone, Copy, Debug, PartialEq, Eq)]
pub enum Kind {
    /// A seat, now or not at all.
    Checkout,
    /// To give its seat, or its place in the queue, back.
    Checkin,
    /// To be heard, so that no timeout takes its seat.
    Beat,
    /// Whether it has a seat.
    Look,
    /// As `Checkin`, by a client that goes.
    Quit,
    /// The numbers of the desk.
    Count,
    /// A seat, or else a place in the queue.
    Queue,
    /// That the rule set of this number holds from now on.
    Reread(u32),
}

/// What a party asks of the state that a desk keeps.
#[derive(Clone, Copy, Debug, PartialEq, Eq)]
pub enum Ask {
    /// A seat; and where there is none, a place in the queue if it may wait.
    Seat(bool),
    /// To give back what it has.
    GiveBack,
    /// To be heard.
    Beat,
    /// Whether it has a seat.
    Look,
    /// The numbers of the desk.
    Count,
}

/// What a desk does for a request.
#[derive(Clone, Copy, Debug, PartialEq, Eq)]
pub enum Task {
    /// It answers a party, and keeps its rules.
    Answer(Ask),
    /// It makes the rule set of this number hold.
    Reread(u32),
}

impl Kind {
    /// What it makes a desk do.
    pub fn task(&self) -> Task
        ensures { result ≡ task self.now }
    {
        match self {
            Kind::Checkout => Task::Answer(Ask::Seat(false)),
            Kind::Queue => Task::Answer(Ask::Seat(true)),
            Kind::Checkin | Kind::Quit => Task::Answer(Ask::GiveBack),
            Kind::Beat => Task::Answer(Ask::Beat),
            Kind::Look => Task::Answer(Ask::Look),
            Kind::Count => Task::Answer(Ask::Count),
            Kind::Reread(set) => Task::Reread(*set),
        }
    }

    /// The number of the rule set that it asks for, from 0; None exactly where it asks for none.
    pub fn set_asked(&self) -> Option<u32>
        ensures { result ≡ set_asked self.now }
    {
        match self {
            Kind::Reread(set) => Some(*set),
            _ => None,
        }
    }
}

/// A request of a party, for a client that it states.
#[derive(Clone, Copy, Debug, PartialEq, Eq)]
pub struct Request {
    /// The number of the party, from 0.
    pub party: u32,
    /// Who asks.
    pub client: Client,
    /// What it asks.
    pub kind: Kind,
}

/// What a seat is charged to.
#[derive(Clone, Copy, Debug, PartialEq, Eq)]
pub enum Charge {
    /// The RESERVE line at this physical line of the options file.
    Reserve(u32),
    /// The seats that no RESERVE line keeps.
    Open,
}

/// What a desk answers. A line is the physical line of the options file whose rule decided.
#[derive(Clone, Copy, Debug, PartialEq, Eq)]
pub enum Reply {
    /// The party has a seat with this charge.
    Granted(Charge),
    /// The party has a seat again that lingered for its client, with the charge that it had.
    Retaken(Charge),
    /// The rule at this line denies a seat.
    Denied(u32),
    /// There is no seat: so many are charged to Open, and so many does no RESERVE line keep.
    NoSeat(u32, u32),
    /// The party has a seat already.
    AlreadyHeld,
    /// The seat is given back.
    Returned,
    /// The seat is given back, and lingers for its client until this moment, in seconds since 1970-01-01 UTC.
    Lingering(u64),
    /// The party has no seat.
    NotHeld,
    /// The party was heard.
    Beaten,
    /// The party has a seat.
    Held,
    /// The numbers of the desk.
    Counts {
        /// How many parties have a seat, told of it or not.
        held: u32,
        /// How many seats linger.
        lingering: u32,
        /// How many seats, held or lingering, are charged to Open.
        taken: u32,
        /// How many seats no RESERVE line keeps.
        free: u32,
        /// Whether the party has a seat and was told of it.
        own: bool,
        /// Whether the party waits, or has a seat that it wasn't told of yet.
        queued: bool,
    },
    /// The party waits at this position of the queue, from 1.
    Queued(u32),
    /// The party waits no more.
    Unqueued,
    /// The rule set of this number holds.
    Reread(u32),
}

impl Reply {
    /// Whether it brings its party a seat: Granted and Retaken.
    pub fn brings_seat(&self) -> bool
        ensures { result ≡ brings_seat self.now }
    {
        matches!(self, Reply::Granted(_) | Reply::Retaken(_))
    }

    /// Whether it says that its party has a seat and was told of it. This project's own: Granted, Retaken, AlreadyHeld,
    /// Beaten, Held, and Counts with `own`.
    pub fn is_of_holding(&self) -> bool
        ensures { result ≡ is_of_holding self.now }
    {
        match self {
            Reply::Granted(_)
            | Reply::Retaken(_)
            | Reply::AlreadyHeld
            | Reply::Beaten
            | Reply::Held => true,
            Reply::Counts { own, .. } => *own,
            _ => false,
        }
    }

    /// Whether it says that its party waits, or has a seat that it wasn't told of. This project's own: Queued, and
    /// Counts with `queued`.
    pub fn is_of_queueing(&self) -> bool
        ensures { result ≡ is_of_queueing self.now }
    {
        match self {
            Reply::Queued(_) => true,
            Reply::Counts { queued, .. } => *queued,
            _ => false,
        }
    }
}

/// One step of a desk: a request, the moment that the step used, in seconds since 1970-01-01 UTC, and the reply.
#[derive(Clone, Copy, Debug, PartialEq, Eq)]
pub struct Entry {
    /// What was asked, and by whom.
    pub request: Request,
    /// The moment that the step used.
    pub moment: u64,
    /// What was answered.
    pub reply: Reply,
}
