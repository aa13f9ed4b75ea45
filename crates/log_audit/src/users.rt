//! How often each user of a log was granted a seat.
ghost use Rattle.std.specs.Prelude.{◌≡◌, ℕ, ◌+◌, ◌<◌, ◌^◌, List, IfOk, OnOk};
ghost use Rattle.std.specs.BTreeMap.{insert_entry};
ghost use Rattle.std.specs.List.{AllByRecursion};
ghost use Rattle.log_audit.specs.Grants.{CountsOne, counted_of, name_order};
ghost use Rattle.log_audit.specs.Replies.{is_grant};
ghost use Rattle.log_audit.specs.Summed.{AreUsers};

use crate::log::Numbered;
use lic_types::Name;
use no_memory::NoMemory;
use options_machine::{Entry, Reply};
use std::alloc::Global;
use std::collections::BTreeMap;

/// How often a user was granted a seat.
#[derive(Clone, Copy, Debug, PartialEq, Eq)]
pub struct UserSum {
    /// The user that the requests stated.
    pub user: Name,
    /// How many of its requests were answered Granted or Retaken.
    pub grants: u64,
}

/// Whether a reply gives a seat.
pub(crate) fn is_grant(reply: &Reply) -> bool
    ensures { result ≡ is_grant reply.now }
{
    matches!(reply, Reply::Granted(_) | Reply::Retaken(_))
}

/// How many grants of a user were counted.
fn counted(counts: &BTreeMap<Name, u64>, user: &Name) -> u64
    ensures { result ≡ counted_of user.now counts.now.entries }
{
    counts.get(user).copied().unwrap_or(0)
}

/// Counts one grant more of a user.
fn count_one(counts: &mut BTreeMap<Name, u64>, user: &Name) -> Result<(), NoMemory>
    requires room { counted_of user.now counts.old.entries + 1 < 2 ^ 64 }
    ensures { OnOk result (counts.new.entries ≡ insert_entry name_order counts.old.entries user.now (counted_of user.now counts.old.entries + 1)) }
{
    let grants = counted(counts, user) + 1;
    counts.insert(*user, grants)?;
    Ok(())
}

/// Counts the grant of an entry, where it is one.
fn count_entry(counts: &mut BTreeMap<Name, u64>, entry: &Entry) -> Result<(), NoMemory>
    requires room { (name : List ℕ) → counted_of name counts.old.entries + 1 < 2 ^ 64 }
    requires some { AllByRecursion (λ (listed : List ℕ × ℕ). 0 < listed.1) counts.old.entries }
    ensures { OnOk result (CountsOne counts.old.entries counts.new.entries entry.now) }
{
    if is_grant(&entry.reply) {
        count_one(counts, &entry.request.client.user)?;
    }
    Ok(())
}

/// The users that were granted a seat, in the order of the bytes of their names.
pub(crate) fn users_of(alloc: Global, log: &[Numbered]) -> Result<Vec<UserSum>, NoMemory>
    ensures { IfOk result (λ users. AreUsers log.now users.items) }
{
    let mut counts = BTreeMap::new(alloc);
    for entry in log {
        count_entry(&mut counts, &entry.logged.entry)?;
    }
    let mut users = Vec::new(alloc);
    for (user, grants) in counts.iter() {
        users.push(UserSum {
            user: *user,
            grants: *grants,
        })?;
    }
    Ok(users)
}
