//! The queue that the entries of a log go through, as its two ends.
ghost use Rattle.std.specs.Prelude.{◌≡◌, ◌<◌, List, ◌++◌, ◌∷◌, [], IfOk, MatchBool, length};
ghost use Rattle.options_machine.specs.declared.reply.Entry.{Entry};

use crate::ends::{Apart, End, LogQueue, Push, Take, TakeLeft, Together};
use lic_types::NoMemory;
use options_machine::Entry;
use std::alloc::Global;
use std::marker::Model;
use std::sync::{Arc, Wait};

/// The most entries that a log keeps.
pub const ENTRY_LIMIT: usize = 4096;

/// The end of a log's queue at which entries go in. One thread at a time has it.
///
/// Contracts see it as a `Pusher`: `queue` tells its queue from others, and `pushed` is the list of all entries that
/// were pushed.
#[derive(Drop)]
pub struct LogPush {
    queue: Arc<LogQueue, Global>,
    end: End,
    count: usize,
}

impl Model for LogPush {
    ghost use Rattle.std.specs.Arc.{arc_value};
    ghost use Rattle.audit_log.specs.Log.{Pusher};
    ghost use Rattle.audit_log.specs.Kept.{Pushes, pusher_at};

    ghost Value = { Pusher };

    ghost view = { λ p. pusher_at p.end };

    ghost invariant = { λ p. Pushes (arc_value p.queue) p.end p.count };
}

/// Which queue a log has, for the law of who keeps a `LogPush` under a lock: the lock tells its callers the law and not
/// what it keeps, so a `LogTake` is known to be the other end of that very queue where the law names it. No value of it
/// is made.
///
/// Contracts see it as the `queue` of the two ends.
pub struct QueueId {
    push: LogPush,
}

impl Model for QueueId {
    ghost use Rattle.atomic_table.specs.Seated.{TableId};

    ghost Value = { TableId };

    ghost view = { λ q. q.push.queue };
}

/// The end of a log's queue at which entries come out. One thread at a time has it.
///
/// Contracts see it as a `Taker`: `queue` tells its queue from others, and `taken` is the list of all entries that were
/// taken.
#[derive(Drop)]
pub struct LogTake {
    queue: Arc<LogQueue, Global>,
    end: End,
    entries: Vec<Entry>,
}

impl Model for LogTake {
    ghost use Rattle.std.specs.Prelude.{vec_capacity};
    ghost use Rattle.std.specs.Arc.{arc_value};
    ghost use Rattle.audit_log.specs.Log.{Taker};
    ghost use Rattle.audit_log.specs.Kept.{Takes};

    ghost Value = { Taker };

    ghost view = { λ t. record { queue = t.end.table_id; taken = t.entries.items } };

    ghost invariant = { λ t. Takes (arc_value t.queue) t.end t.entries.items (vec_capacity t.entries) };
}

/// A queue for the first 4,096 entries of a desk, as its two ends. All memory that the log ever needs is taken here.
pub fn log_queue(alloc: Global) -> Result<(LogPush, LogTake), NoMemory>
    ensures one { IfOk result (λ ends. ends.0.queue ≡ ends.1.queue) }
    ensures empty { IfOk result (λ ends. (ends.0.pushed ≡ []) × (ends.1.taken ≡ [])) }
{
    let entries = Vec::with_capacity(alloc, ENTRY_LIMIT)?;
    let (queue, mut end) = LogQueue::ruled(alloc, ENTRY_LIMIT)?;
    let pushing = queue.another::<Apart>(&mut end);
    let queue = Arc::new(alloc, queue)?;
    let push = LogPush {
        queue: Arc::try_clone(&queue)?,
        end: pushing,
        count: 0,
    };
    let take = LogTake {
        queue,
        end,
        entries,
    };
    Ok((push, take))
}

impl LogPush {
    /// Pushes an entry, unless 4,096 were pushed before: then it says false, and pushes none. It never meets a full
    /// queue, and takes no memory.
    pub fn push<R: Wait>(&mut self, rt: &R, entry: &Entry) -> bool
        ensures pushed { MatchBool result ((length self.old.pushed < ENTRY_LIMIT) × (self.new.pushed ≡ self.old.pushed ++ entry.now ∷ []))
            ((length self.old.pushed ≡ ENTRY_LIMIT) × (self.new.pushed ≡ self.old.pushed)) }
        ensures same { self.new.queue ≡ self.old.queue }
    {
        if self.count >= ENTRY_LIMIT {
            return false;
        }
        let Ok(()) = self.queue.push_as::<Push, R>(rt, &mut self.end, *entry) else {
            unreachable!()
        };
        self.count += 1;
        true
    }
}

impl LogTake {
    /// Takes the next entry out, and says whether there was one. It takes no memory.
    pub fn take<R: Wait>(&mut self, rt: &R) -> bool
        ensures taken { MatchBool result ((x : Entry) × (self.new.taken ≡ self.old.taken ++ x ∷ [])) (self.new.taken ≡ self.old.taken) }
        ensures same { self.new.queue ≡ self.old.queue }
    {
        match self.queue.pop_as::<Take, R>(rt, &mut self.end) {
            Some(entry) => {
                self.entries.push_reserved(entry);
                true
            }
            None => false,
        }
    }

    /// Takes the other end of the queue in, and all entries out that are left. It takes no memory.
    pub fn finish<R: Wait>(&mut self, rt: &R, push: LogPush)
        requires queue { push.queue ≡ self.old.queue }
        ensures all { self.new.taken ≡ push.pushed }
        ensures prefix { (rest : List Entry) × (push.pushed ≡ self.old.taken ++ rest) }
        ensures same { self.new.queue ≡ self.old.queue }
    {
        let LogPush {
            queue: _,
            end,
            count,
        } = push;
        self.queue.absorb::<Together>(&mut self.end, end);
        self.queue.learn_as::<TakeLeft>(&mut self.end);
        for _ in self.entries.len()..count {
            let Some(entry) = self.queue.pop_as::<TakeLeft, R>(rt, &mut self.end) else {
                unreachable!()
            };
            self.entries.push_reserved(entry);
        }
    }

    /// The entries that were taken, in the order in which they were pushed.
    pub fn taken(&self) -> &[Entry]
        ensures { result.now ≡ self.now.taken }
    {
        self.entries.as_slice()
    }

    /// The entries that were taken, as a list of their own.
    pub fn into_entries(self) -> Vec<Entry>
        ensures { result.items ≡ self.taken }
    {
        let LogTake {
            queue: _,
            end: _,
            entries,
        } = self;
        entries
    }
}
