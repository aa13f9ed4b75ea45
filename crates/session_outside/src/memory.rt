//! The link, the clock and the bell in memory.
ghost use Rattle.std.specs.Prelude.{◌≡◌, ◌<◌, ◌≤◌, length, vec_len};
ghost use Rattle.session_outside.specs.Talk.{Follows};
ghost use Rattle.session_outside.specs.Memory.{KeepsTalk, Repeats};

use crate::bell::Bell;
use crate::clock::Clock;
use crate::link::{Got, Link, LinkFailed};
use crate::talk::{Mark, Talk};

/// A clock that gives a list of moments, its last one again and again.
#[derive(Debug, Drop)]
pub struct MemClock {
    /// The moments, in seconds since 1970-01-01 UTC.
    pub moments: Vec<u64>,
    /// The place of the next one.
    pub at: usize,
    ghost within: { at < length moments.items },
}

impl MemClock {
    /// A clock that gives these moments, and has given none yet.
    pub fn make(moments: Vec<u64>) -> MemClock
        requires { 0 < length moments.items }
        ensures moments { result.moments ≡ moments }
        ensures start { result.at ≡ 0 }
    {
        MemClock { moments, at: 0 }
    }
}

impl Clock for MemClock {
    ghost gave = { λ m told. Repeats m.moments.items m.at told };

    fn now(&mut self) -> u64 {
        let at = self.at;
        if at + 1 < self.moments.len() {
            self.at = at + 1;
        }
        self.moments[at]
    }
}

/// A bell that gives a list of answers, its last one again and again.
#[derive(Debug, Drop)]
pub struct MemBell {
    /// The answers.
    pub answers: Vec<bool>,
    /// The place of the next one.
    pub at: usize,
    /// How many of the answers were yes.
    pub tolls: u64,
    /// How often it was rung.
    pub rings: u64,
    ghost within: { at < length answers.items },
}

impl MemBell {
    /// A bell that gives these answers, and has given none yet.
    pub fn make(answers: Vec<bool>) -> MemBell
        requires { 0 < length answers.items }
        ensures answers { result.answers ≡ answers }
        ensures start { (result.at ≡ 0) × (result.tolls ≡ 0) × (result.rings ≡ 0) }
    {
        MemBell {
            answers,
            at: 0,
            tolls: 0,
            rings: 0,
        }
    }
}

impl Bell for MemBell {
    ghost answered = { λ m told. Repeats m.answers.items m.at told };

    ghost tolls = { λ m. m.tolls };

    ghost rings = { λ m. m.rings };

    fn ring(&mut self) {
        self.rings = self.rings.saturating_add(1);
    }

    fn rung(&mut self) -> bool {
        let at = self.at;
        if at + 1 < self.answers.len() {
            self.at = at + 1;
        }
        let answer = self.answers[at];
        if answer {
            self.tolls = self.tolls.saturating_add(1);
        }
        answer
    }
}

/// What a link in memory feeds to its reader.
#[derive(Debug, Drop)]
pub enum Feed {
    /// These bytes; none at all are as Quiet.
    Piece(Vec<u8>),
    /// Nothing came for a while.
    Quiet,
}

/// A link in memory. It feeds a list, and then its end; the calls of some numbers fail, and it tells its talk.
#[derive(Debug, Drop)]
pub struct MemLink {
    /// What it feeds.
    pub feeds: Vec<Feed>,
    /// The place of the next one.
    pub at: usize,
    /// How many bytes of that one were read.
    pub read: usize,
    /// The calls that fail, counted from 0.
    pub failing: Vec<u64>,
    /// How many calls there were.
    pub calls: u64,
    /// How many of them failed.
    pub faults: u64,
    /// How many reads were Quiet.
    pub quiets: u64,
    /// The talk so far.
    pub talk: Talk,
}

impl MemLink {
    /// A link that feeds this, of which the calls of these numbers, counted from 0, fail, and which keeps its talk
    /// here.
    pub fn make(feeds: Vec<Feed>, failing: Vec<u64>, talk: Talk) -> MemLink
        ensures { result ≡ record { feeds = feeds; at = 0; read = 0; failing = failing; calls = 0; faults = 0; quiets = 0; talk = talk } }
    {
        MemLink {
            feeds,
            at: 0,
            read: 0,
            failing,
            calls: 0,
            faults: 0,
            quiets: 0,
            talk,
        }
    }

    /// Whether this call fails.
    fn fails(&mut self) -> bool
        ensures { (self.new.talk ≡ self.old.talk) × (self.new.faults ≡ self.old.faults) × (self.new.quiets ≡ self.old.quiets) }
    {
        let call = self.calls;
        self.calls = self.calls.wrapping_add(1);
        self.failing.contains(&call)
    }

    /// The next bytes, as many as there is room for, and how many they are; 0 at Quiet.
    fn next_bytes(&mut self, buffer: &mut [u8]) -> usize
        requires { self.old.at < vec_len self.old.feeds }
        ensures same { (self.new.talk ≡ self.old.talk) × (self.new.faults ≡ self.old.faults) × (self.new.quiets ≡ self.old.quiets) }
        ensures within { result ≤ length buffer.new }
        ensures long { length buffer.new ≡ length buffer.old }
    {
        let Feed::Piece(piece) = &self.feeds[self.at] else {
            self.at += 1;
            return 0;
        };
        let from = self.read.min(piece.len());
        let count = (piece.len() - from).min(buffer.len());
        buffer[..count].copy_from_slice(&piece[from..from + count]);
        if from + count == piece.len() {
            self.at += 1;
            self.read = 0;
        } else {
            self.read = from + count;
        }
        count
    }
}

impl Link for MemLink {
    ghost tells = { λ m told. KeepsTalk m.talk.lost m.talk.marks.items m.talk.bytes.items told };

    ghost faults = { λ m. m.faults };

    ghost quiets = { λ m. m.quiets };

    fn read(&mut self, buffer: &mut [u8]) -> Got {
        if self.fails() {
            self.faults = self.faults.saturating_add(1);
            self.talk.keep(Mark::ReadFault, &[]);
            return Got::Failed;
        }
        if self.at >= self.feeds.len() {
            self.talk.keep(Mark::Ended, &[]);
            return Got::End;
        }
        let count = self.next_bytes(buffer);
        if count == 0 {
            self.quiets = self.quiets.saturating_add(1);
            self.talk.keep(Mark::Silence, &[]);
            return Got::Quiet;
        }
        self.talk.keep(Mark::Heard(count), &buffer[..count]);
        Got::Bytes(count)
    }

    fn write(&mut self, piece: &[u8]) -> Result<(), LinkFailed> {
        if self.fails() {
            self.faults = self.faults.saturating_add(1);
            let taken = piece.len() / 2;
            self.talk.keep(Mark::WriteFault(taken), &piece[..taken]);
            return Err(LinkFailed);
        }
        self.talk.keep(Mark::Wrote(piece.len()), piece);
        Ok(())
    }
}
