//! A door at the socket of a site.
ghost use Rattle.std.specs.Prelude.{◌≡◌, ◌||◌, nat_lt, nat_le};
ghost use Rattle.daemon_outside.specs.Doors.{most_fails};

use crate::flag::BellFlag;
use crate::link::UnixLink;
use crate::socket::is_quiet;
use daemon_outside::{Came, Door, FAIL_LIMIT};
use std::alloc::Global;
use std::io::{self, ErrorKind};
use std::os::unix::net::UnixListener;
use std::sync::Arc;
use std::sync::atomic::AtomicU64;

/// A copy of the listener of a site. An accept that waits about a second for a connection is Quiet. Where the site
/// listened nowhere when the door was made, every accept fails. Once a bell of the site has rung, each accept is Quiet
/// at once, whatever connections wait, and so is each read of the door's links.
#[derive(Drop)]
pub struct UnixDoor {
    listener: Option<UnixListener>,
    /// The bell of the site.
    bell: BellFlag,
    /// How many accepts failed.
    faults: u64,
    /// How many accepts were Quiet.
    quiets: u64,
    /// How many accepts failed since the last link.
    fails: u64,
    /// How many links are given and not taken back.
    lent: u64,
}

fn accepted(listener: Option<&UnixListener>, bell: &BellFlag) -> io::Result<UnixLink> {
    let listener = listener.ok_or(ErrorKind::NotConnected)?;
    let (stream, _) = listener.accept()?;
    UnixLink::of_door(stream, bell.another()?)
}

impl UnixDoor {
    /// A door at which nothing has come yet, of a site whose bells have this flag: it is 0 as long as none was rung.
    pub fn of(listener: Option<UnixListener>, flag: Arc<AtomicU64, Global>) -> UnixDoor
        ensures parts { (result.listener ≡ listener) × (result.bell.word ≡ flag) }
        ensures counts { (result.faults ≡ 0) × (result.quiets ≡ 0) × (result.fails ≡ 0) × (result.lent ≡ 0) }
    {
        UnixDoor {
            listener,
            bell: BellFlag::of(flag),
            faults: 0,
            quiets: 0,
            fails: 0,
            lent: 0,
        }
    }

    /// Whether an accept was Quiet or failed, and so the bell looked for.
    pub fn was_idle(&self) -> bool
        ensures { result ≡ (nat_lt 0 self.now.quiets || nat_lt 0 self.now.faults) }
    {
        0 < self.quiets || 0 < self.faults
    }

    /// Whether so many accepts failed since the last link that the door is broken.
    pub fn is_broken(&self) -> bool
        ensures { result ≡ nat_le most_fails self.now.fails }
    {
        FAIL_LIMIT <= self.fails
    }
}

impl Door for UnixDoor {
    type Link = UnixLink;

    ghost talks = { λ _ _. Unit {0} };

    ghost faults = { λ d. d.faults };

    ghost quiets = { λ d. d.quiets };

    ghost fails = { λ d. d.fails };

    ghost lent = { λ d. d.lent };

    fn accept(&mut self) -> Came<UnixLink> {
        if self.bell.is_rung() {
            self.quiets = self.quiets.saturating_add(1);
            return Came::Quiet;
        }
        match accepted(self.listener.as_ref(), &self.bell) {
            Ok(link) if self.lent < u64::MAX => {
                self.fails = 0;
                self.lent += 1;
                Came::Link(link)
            }
            Err(error) if is_quiet(&error) => {
                self.quiets = self.quiets.saturating_add(1);
                Came::Quiet
            }
            _ => {
                self.faults = self.faults.saturating_add(1);
                self.fails = self.fails.saturating_add(1);
                Came::Failed
            }
        }
    }

    fn done(&mut self, link: UnixLink) {
        drop(link);
        self.lent -= 1;
    }
}
