//! How a book changes by an answer.
use options_machine::Charge;

/// An effect of the options machine on a party, without the client of a seat that lingers, which its holder has: so an
/// answer is small, however long names are.
#[derive(Clone, Copy, Debug, PartialEq, Eq)]
pub(crate) enum Change {
    /// Nothing.
    Nothing,
    /// The party is told of its seat, or heard.
    Tell,
    /// Its seat is free at once.
    Release,
    /// Its seat lingers until this moment, in seconds since 1970-01-01 UTC.
    Linger(u64),
    /// It waits no more.
    Unqueue,
    /// It gets a seat with this charge.
    Seat(Charge),
    /// It gets the first seat that lingers for its client, which has this charge.
    Reseat(Charge),
    /// It waits, at the end of the queue.
    Join,
}
