//! The log of the first entries.
ghost use Rattle.std.specs.Prelude.{◌≡◌, ◌++◌, ◌∷◌, [], List, length, nat_lt, take};
ghost use Rattle.options_machine.specs.declared.reply.Entry.{Entry};
ghost use Rattle.audit_log.specs.declared.queue.TheConstants.{ENTRY_LIMIT};

use audit_log::LogPush;
use options_machine::EntryRef;
use std::sync::Wait;

/// Logs one entry more of a history, if it is one of the first. `cut` and the answer say whether the history is longer
/// than the log, before it and with it.
pub(crate) fn log_entry<R: Wait>(rt: &R, log: &mut LogPush, entry: &EntryRef<'_>, cut: bool) -> bool
    ensures logged { (h : List Entry) → log.old.pushed ≡ take ENTRY_LIMIT h → cut ≡ nat_lt ENTRY_LIMIT (length h) → log.new.pushed ≡ take ENTRY_LIMIT (h ++ entry.now ∷ []) }
    ensures cut { (h : List Entry) → log.old.pushed ≡ take ENTRY_LIMIT h → cut ≡ nat_lt ENTRY_LIMIT (length h) → result ≡ nat_lt ENTRY_LIMIT (length (h ++ entry.now ∷ [])) }
    ensures same { log.new.queue ≡ log.old.queue }
{
    cut || !log.push(rt, &entry.entry())
}
