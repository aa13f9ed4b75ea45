//! When a read looks for bytes before it waits for them.
ghost use Rattle.std.specs.Prelude.{◌≡◌, ◌+◌, ◌-◌, ◌*◌, if◌then◌else◌, min, nat_eq, nat_le};

/// After so many reads in turn that found bytes, one that finds none is an exception.
const STREAK: u32 = 32;

/// How many reads wait at once after one that looked in vain, at most.
const REST_LIMIT: u32 = 1023;

/// From which number the first look in vain goes on.
const FIRST_REST: u32 = 15;

/// Whether the reads of a socket look for bytes before they wait: as long as that mostly finds some. After a look in
/// vain some reads wait at once: one where 32 looks in turn had found bytes, and else four times as many as before and
/// three more, which is 63 at first and 1,023 at most.
#[derive(Clone, Copy, Debug, PartialEq, Eq)]
pub(crate) struct BusyPoll {
    /// How many looks in turn found bytes, up to 32.
    hits: u32,
    /// How many reads wait at once from now on.
    rest: u32,
    /// How many waited at once after the last look in vain.
    last_rest: u32,
}

impl BusyPoll {
    /// Of a socket that hasn't been read: its first read looks.
    pub(crate) fn new() -> BusyPoll
        ensures { result ≡ record { hits = 0; rest = 0; last_rest = 15 } }
    {
        BusyPoll {
            hits: 0,
            rest: 0,
            last_rest: FIRST_REST,
        }
    }

    /// Begins a read, and tells whether it looks. One that doesn't is counted.
    pub(crate) fn begin_read(&mut self) -> bool
        ensures looks { result ≡ nat_eq self.old.rest 0 }
        ensures counted { self.new ≡ record self.old { rest = self.old.rest - 1 } }
    {
        let looks = self.rest == 0;
        self.rest = self.rest.saturating_sub(1);
        looks
    }

    /// A look found bytes.
    pub(crate) fn hit(&mut self)
        ensures { self.new ≡ record self.old { hits = min (self.old.hits + 1) 32 } }
    {
        self.hits = self.hits.saturating_add(1).min(STREAK);
    }

    /// A look found none.
    pub(crate) fn miss(&mut self)
        ensures hits { self.new.hits ≡ 0 }
        ensures rest { self.new.rest ≡ (if nat_le 32 self.old.hits then 1 else min (4 * self.old.last_rest + 3) 1023) }
        ensures last { self.new.last_rest ≡ self.new.rest }
    {
        let rest = if STREAK <= self.hits {
            1
        } else {
            self.last_rest
                .saturating_mul(4)
                .saturating_add(3)
                .min(REST_LIMIT)
        };
        *self = BusyPoll {
            hits: 0,
            rest,
            last_rest: rest,
        };
    }
}
