//! What a client is told.
use counter::Glance;
use lic_types::Day;
use options_machine::Reply;

/// What a client is told in a line.
#[derive(Clone, Copy, Debug, PartialEq, Eq)]
pub enum Told {
    /// A desk's reply, the number of the seat that it brought, and how many entries the desk had before.
    Desk {
        /// The reply.
        reply: Reply,
        /// The seat that it brought.
        seat: Option<u32>,
        /// How many entries the desk had before, modulo 2^64.
        place: u64,
    },
    /// The client is known now, as the party of this number.
    Welcome(u32),
    /// The client wasn't known yet.
    NoHello,
    /// The client was known already.
    Greeted,
    /// There is no such pool.
    Unknown,
    /// Each pool that would do has expired, the first of them on this day.
    Expired(Day),
    /// The numbers of the desk as they were published last.
    Glance(Glance),
    /// The rule set of this number holds.
    Reread(u32),
    /// There is no rule set of this number.
    NoRules(u32),
    /// The line isn't a request, for the fault of this number.
    Bad(u8),
    /// The session is over.
    Bye,
    /// All sessions are to end.
    Stopping,
}
