//! The link that plays a client.
ghost use Rattle.std.specs.Prelude.{◌≡◌, ◌-◌, ◌^◌, ◌<◌, ◌≤◌, ◌++◌, ◌∷◌, [], IfOk, List, true, length, min, nat_lt, string_bytes, take};
ghost use Rattle.session_outside.specs.Talk.{Event, Follows, Heard, Wrote};
ghost use Rattle.trial_link.specs.Plays.{HasTold, Noted, granted_in};
ghost use Rattle.trial_link.specs.Stages.{goes_on, has_more, hello_text, line_of, played_after, stage_after};

use crate::call::{Call, Stage, is_granted, stage_after};
use session_outside::{Got, Link, LinkFailed};
use std::alloc::{AllocError, Global};

/// A link in memory that plays one client of a trial.
///
/// It gives `HELLO u h d p`, each letter with the client's number behind it, and then, in each of its rounds, CHECKOUT
/// of the feature `trial` until a reply begins with GRANTED, and CHECKIN; after the rounds QUIT, and then its end. A
/// reply to a CHECKOUT that begins neither with GRANTED nor with NOSEAT is its end too, and so is a read before a reply
/// has come. It never fails and is never Quiet. It keeps no list of its talk: it stands for every talk that a client of
/// this number with these rounds can have had, as far as it has come, in which it was granted as often as it counted,
/// and for each of these behind a note of its number and its rounds, so that no call changes them unseen. The trial is
/// this project's own.
#[derive(Drop)]
pub struct TrialLink {
    /// The number of its client.
    pub number: u32,
    /// How many rounds it plays, one or more.
    pub rounds: u32,
    /// Its HELLO line, with the LF.
    pub hello: String,
    /// Where it stands.
    pub stage: Stage,
    /// How many bytes of the line that it gives were read.
    pub given: usize,
    /// How many rounds it has counted: it took a licence, gave it back, and had the reply to that.
    pub played: u32,
    /// How many pieces that begin with GRANTED were written to it. It stands still at the last value of its counter.
    pub grants: u64,
    ghost greets: { string_bytes hello ≡ hello_text number },
    ghost more: { has_more number stage given ≡ true },
    ghost goes: { goes_on stage ≡ true → played < rounds },
}

impl TrialLink {
    /// The link of the client of this number, from 0, which plays so many rounds and has told nothing yet. It fails
    /// where memory ran out.
    pub fn make(alloc: Global, number: u32, rounds: u32) -> Result<TrialLink, AllocError>
        requires { 0 < rounds }
        ensures client { IfOk result (λ l. (l.number ≡ number) × (l.rounds ≡ rounds)) }
        ensures starts { IfOk result (λ l. (l.stage ≡ Stage.Gives Call.Hello) × (l.given ≡ 0) × (l.played ≡ 0) × (l.grants ≡ 0)) }
    {
        let hello = format!(in alloc; "HELLO u{number} h{number} d{number} p{number}\n")?;
        Ok(TrialLink {
            number,
            rounds,
            hello,
            stage: Stage::Gives(Call::Hello),
            given: 0,
            played: 0,
            grants: 0,
        })
    }

    /// The bytes of a line, with the LF.
    fn line(&self, call: Call) -> &[u8]
        ensures { result.now ≡ line_of self.now.number call }
    {
        match call {
            Call::Hello => self.hello.as_bytes(),
            Call::Checkout => b"CHECKOUT trial 1.0\n",
            Call::Checkin => b"CHECKIN trial\n",
            Call::Quit => b"QUIT\n",
        }
    }

    /// Gives as many bytes of this line as the buffer takes, and tells how many they are.
    fn give(&mut self, call: Call, buffer: &mut [u8]) -> usize
        requires stage { self.old.stage ≡ Stage.Gives call }
        requires room { 0 < length buffer.old }
        ensures some { (0 < result) × (result ≤ length buffer.new) }
        ensures long { length buffer.new ≡ length buffer.old }
        ensures client { (self.new.number ≡ self.old.number) × (self.new.rounds ≡ self.old.rounds) }
        ensures told { Follows (λ l told. HasTold l.number l.rounds l.stage l.given l.played l.grants told) self.old self.new (Heard (take result buffer.new) ∷ []) }
    {
        let rest = &self.line(call)[self.given..];
        let count = put(rest, buffer);
        if count < rest.len() {
            self.given += count;
        } else {
            self.given = 0;
            self.stage = Stage::Awaits(call);
        }
        count
    }

    /// Takes the reply to the line that it gave.
    fn hear(&mut self, call: Call, reply: &[u8])
        requires { self.old.stage ≡ Stage.Awaits call }
        ensures client { (self.new.number ≡ self.old.number) × (self.new.rounds ≡ self.old.rounds) × (self.new.grants ≡ self.old.grants) }
        ensures played { self.new.played ≡ played_after call self.old.played }
        ensures stage { self.new.stage ≡ stage_after call reply.now (nat_lt (played_after call self.old.played) self.old.rounds) }
        ensures given { self.new.given ≡ 0 }
    {
        if matches!(call, Call::Checkin) {
            self.played += 1;
        }
        self.stage = stage_after(call, reply, self.played < self.rounds);
        self.given = 0;
    }
}

/// Puts as many of these bytes into the buffer as it takes, and tells how many they are.
fn put(bytes: &[u8], buffer: &mut [u8]) -> usize
    ensures count { result ≡ min (length bytes.now) (length buffer.old) }
    ensures long { length buffer.new ≡ length buffer.old }
    ensures bytes { take result buffer.new ≡ take result bytes.now }
{
    let count = bytes.len().min(buffer.len());
    buffer[..count].copy_from_slice(&bytes[..count]);
    count
}

/// How many pieces that begin with GRANTED were written, where this one was written too.
fn count_after(grants: u64, piece: &[u8]) -> u64
    ensures { (talk : List Event) → grants ≡ min (granted_in talk) (2 ^ 64 - 1) → result ≡ min (granted_in (talk ++ Wrote piece.now ∷ [])) (2 ^ 64 - 1) }
{
    if is_granted(piece) {
        grants.saturating_add(1)
    } else {
        grants
    }
}

impl Link for TrialLink {
    ghost tells = { λ l told. Noted l.number l.rounds (HasTold l.number l.rounds l.stage l.given l.played l.grants) told };

    ghost faults = { λ _. 0 };

    ghost quiets = { λ _. 0 };

    fn read(&mut self, buffer: &mut [u8]) -> Got {
        let Stage::Gives(call) = self.stage else {
            self.stage = Stage::Over;
            return Got::End;
        };
        Got::Bytes(self.give(call, buffer))
    }

    fn write(&mut self, piece: &[u8]) -> Result<(), LinkFailed> {
        let stage = self.stage;
        self.grants = count_after(self.grants, piece);
        match stage {
            Stage::Awaits(call) => self.hear(call, piece),
            Stage::Gives(_) | Stage::Over => self.stage = Stage::Over,
        }
        Ok(())
    }
}
