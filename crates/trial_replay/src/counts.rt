//! How often each reply came.
ghost use Rattle.std.specs.Prelude.{◌≡◌, ◌-◌, ◌<◌, ◌^◌};
ghost use Rattle.trial_replay.specs.Counted.{with_reply};
ghost use Rattle.trial_replay.specs.Counts.{total_of};

use options_machine::Reply;

/// How many replies of each kind there were.
#[derive(Clone, Copy, Debug, Default, PartialEq, Eq)]
pub struct Counts {
    /// A seat was granted.
    pub granted: u32,
    /// A seat was taken again that lingered for its client.
    pub retaken: u32,
    /// A rule denied a seat.
    pub denied: u32,
    /// There was no seat.
    pub no_seat: u32,
    /// The party had a seat already.
    pub already_held: u32,
    /// A seat was given back, and didn't linger.
    pub returned: u32,
    /// A seat was given back, and lingers for its client.
    pub lingering: u32,
    /// The party had no seat.
    pub not_held: u32,
    /// The party was heard.
    pub beaten: u32,
    /// The party had a seat, and asked.
    pub held: u32,
}

impl Counts {
    /// Counts a reply, if it is of a kind that is counted.
    pub(crate) fn count(&mut self, reply: &Reply)
        requires { total_of self.old < 2 ^ 32 - 1 }
        ensures { self.new ≡ with_reply self.old reply.now }
    {
        match reply {
            Reply::Granted(_) => self.granted += 1,
            Reply::Retaken(_) => self.retaken += 1,
            Reply::Denied(_) => self.denied += 1,
            Reply::NoSeat(_, _) => self.no_seat += 1,
            Reply::AlreadyHeld => self.already_held += 1,
            Reply::Returned => self.returned += 1,
            Reply::Lingering(_) => self.lingering += 1,
            Reply::NotHeld => self.not_held += 1,
            Reply::Beaten => self.beaten += 1,
            Reply::Held => self.held += 1,
            Reply::Counts { .. } | Reply::Queued(_) | Reply::Unqueued | Reply::Reread(_) => {}
        }
    }
}
