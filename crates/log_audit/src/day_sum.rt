//! The sums of a day, and what is added to them.
ghost use Rattle.std.specs.Prelude.{◌≡◌, ◌+◌, ◌<◌, ◌≤◌, ◌^◌, cond};
ghost use Rattle.log_audit.specs.Replies.{is_denied, is_noseat};
ghost use Rattle.log_audit.specs.Running.{HasRoom, no_entries, with_entry, with_stretch};
ghost use Rattle.log_audit.specs.Times.{day_of, seat_seconds};

use crate::users::is_grant;
use options_machine::Reply;

/// How many seconds a day has.
const DAY: u64 = 86_400;

/// The day behind 31-dec-9999, which stands for all that follow.
const LAST_DAY: u64 = 2_932_897;

/// What the entries of a pool in one day, in UTC, come to.
#[derive(Clone, Copy, Debug, PartialEq, Eq)]
pub struct DaySum {
    /// The number of the pool, from 0.
    pub pool: u32,
    /// Days from 1970-01-01, at most 2,932,897, which stands for all days behind 31-dec-9999.
    pub day: u32,
    /// The most seats that were held after an entry of the day.
    pub peak: u32,
    /// For how long seats were held, in seconds of one seat. The time from an entry up to the pool's next one counts
    /// for the day on which it begins, and the time behind the pool's last entry doesn't count.
    pub seconds: u64,
    /// How many requests were answered Denied.
    pub denied: u64,
    /// How many requests were answered NoSeat.
    pub noseat: u64,
    /// How many requests were answered Granted or Retaken.
    pub grants: u64,
}

/// The time between two entries of a pool, or before its first one.
#[derive(Clone, Copy)]
pub(crate) struct Stretch {
    /// The moment at which it begins, in seconds since 1970-01-01 UTC.
    pub(crate) from: u64,
    /// The moment of the entry that ends it.
    pub(crate) until: u64,
    /// How many seats are held meanwhile.
    pub(crate) held: u32,
}

impl Stretch {
    /// For how long seats are held, in seconds of one seat.
    fn seat_seconds(&self) -> u64
        requires order { self.now.from ≤ self.now.until }
        requires room { seat_seconds self.now < 2 ^ 64 }
        ensures { result ≡ seat_seconds self.now }
    {
        u64::from(self.held) * (self.until - self.from)
    }
}

/// The day of a moment: days from 1970-01-01, at most 2,932,897.
pub(crate) fn day_of(moment: u64) -> u32
    ensures { result ≡ day_of moment }
{
    (moment / DAY).min(LAST_DAY) as u32
}

fn is_denied(reply: &Reply) -> bool
    ensures { result ≡ is_denied reply.now }
{
    matches!(reply, Reply::Denied(_))
}

fn is_noseat(reply: &Reply) -> bool
    ensures { result ≡ is_noseat reply.now }
{
    matches!(reply, Reply::NoSeat(_, _))
}

/// One more, where something is so.
fn count_if(count: u64, is_so: bool) -> u64
    requires { count + 1 < 2 ^ 64 }
    ensures { result ≡ count + cond is_so 1 0 }
{
    if is_so { count + 1 } else { count }
}

impl DaySum {
    /// The sums of a day of a pool before its first entry.
    pub(crate) fn no_entries(pool: u32, day: u32) -> DaySum
        ensures { result ≡ no_entries pool day }
    {
        DaySum {
            pool,
            day,
            peak: 0,
            seconds: 0,
            denied: 0,
            noseat: 0,
            grants: 0,
        }
    }

    /// The sums with a stretch that begins on the day.
    pub(crate) fn with_stretch(self, stretch: &Stretch) -> DaySum
        requires order { stretch.now.from ≤ stretch.now.until }
        requires room { self.seconds + seat_seconds stretch.now < 2 ^ 64 }
        ensures { result ≡ with_stretch self stretch.now }
    {
        let seconds = self.seconds + stretch.seat_seconds();
        DaySum { seconds, ..self }
    }

    /// The sums with an entry of the day, after which so many seats are held.
    pub(crate) fn with_entry(self, held: u32, reply: &Reply) -> DaySum
        requires { HasRoom self }
        ensures { result ≡ with_entry self held reply.now }
    {
        DaySum {
            peak: self.peak.max(held),
            denied: count_if(self.denied, is_denied(reply)),
            noseat: count_if(self.noseat, is_noseat(reply)),
            grants: count_if(self.grants, is_grant(reply)),
            ..self
        }
    }
}
