//! What a trial writes.
ghost use Rattle.std.specs.Prelude.{◌≡◌, ◌≤◌, ◌++◌, IfOk, OnOk};
ghost use Rattle.options_machine.specs.Run.{IsRun};
ghost use Rattle.trial_replay.specs.Counts.{count_line, counts_text};
ghost use Rattle.trial_replay.specs.Replayed.{run_of, trial_text};
ghost use Rattle.trial_replay.specs.Terms.{bench_sets};

use crate::counts::Counts;
use crate::replaying::replay_events;
use itoa::Buffer;
use no_memory::NoMemory;
use std::alloc::Global;

/// Writes a word and its number on a line.
fn put_count(text: &mut Vec<u8>, word: &[u8], number: u32) -> Result<(), NoMemory>
    ensures { OnOk result (text.new.items ≡ text.old.items ++ count_line word.now number) }
{
    text.extend_from_slice(word)?;
    let mut buffer = Buffer::new();
    text.extend_from_slice(buffer.format(u64::from(number)).as_bytes())?;
    text.push(b'\n')?;
    Ok(())
}

/// Writes the lines of counts.
fn put_counts(text: &mut Vec<u8>, counts: &Counts) -> Result<(), NoMemory>
    ensures { OnOk result (text.new.items ≡ text.old.items ++ counts_text counts.now) }
{
    put_count(text, b"GRANTED ", counts.granted)?;
    put_count(text, b"RETAKEN ", counts.retaken)?;
    put_count(text, b"DENIED ", counts.denied)?;
    put_count(text, b"NOSEAT ", counts.no_seat)?;
    put_count(text, b"ALREADYHELD ", counts.already_held)?;
    put_count(text, b"RETURNED ", counts.returned)?;
    put_count(text, b"LINGERING ", counts.lingering)?;
    put_count(text, b"NOTHELD ", counts.not_held)?;
    put_count(text, b"BEATEN ", counts.beaten)?;
    put_count(text, b"HELD ", counts.held)
}

/// The text that tells of the first so many events, 1,000,000 at most: how many there are, and how often each reply
/// came, each on a line. The one error is want of memory.
pub fn trial_text(alloc: Global, events: u32) -> Result<Vec<u8>, NoMemory>
    requires { events ≤ 1000000 }
    ensures text { IfOk result (λ text. text.items ≡ trial_text events) }
    ensures run { IsRun bench_sets (run_of events) }
{
    let counts = replay_events(alloc, events)?;
    let mut text = Vec::new(alloc);
    put_count(&mut text, b"EVENTS ", events)?;
    put_counts(&mut text, &counts)?;
    Ok(text)
}
