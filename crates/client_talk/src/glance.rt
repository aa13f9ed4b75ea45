//! The numbers that a reply to GLANCE tells.
ghost use Rattle.std.specs.Prelude.{◌≡◌, IfSome, MatchOption, None, Some};
ghost use Rattle.counter.specs.declared.glance.Glance.{Glance};
ghost use Rattle.lic_text.specs.Left.{words_left};
ghost use Rattle.lic_text.specs.Lines.{words_of};
ghost use Rattle.line_protocol.specs.Replies.{glance_text};
ghost use Rattle.client_talk.specs.Numbers.{IsGlance, count_behind, glance_in, number_behind};

use counter::Glance;
use lic_text::{Words, number, words_in};
use line_protocol::{Told, write_reply};

/// The number that stands behind the next word. It is below 2^64.
fn next_number(words: &mut Words<'_>) -> Option<u64>
    ensures { MatchOption result (number_behind (words_left words.old) ≡ None) (λ n. number_behind (words_left words.old) ≡ Some (record { value = n; rest = words_left words.new })) }
{
    let _ = words.next()?;
    number(words.next()?)
}

/// The same of a number below 2^32.
fn next_count(words: &mut Words<'_>) -> Option<u32>
    ensures { MatchOption result (count_behind (words_left words.old) ≡ None) (λ n. count_behind (words_left words.old) ≡ Some (record { value = n; rest = words_left words.new })) }
{
    u32::try_from(next_number(words)?).ok()
}

/// The numbers that stand where a reply to GLANCE has them.
fn numbers_in(reply: &[u8]) -> Option<Glance>
    ensures { result ≡ glance_in (words_of reply.now) }
{
    let mut words = words_in(reply);
    let _ = words.next()?;
    let front = next_number(&mut words)?;
    let held = next_count(&mut words)?;
    let lingering = next_count(&mut words)?;
    let taken = next_count(&mut words)?;
    let free = next_count(&mut words)?;
    let queued = next_count(&mut words)?;
    Some(Glance {
        front,
        held,
        lingering,
        taken,
        free,
        queued,
    })
}

/// The numbers whose reply line this is, without its LF; `None` comes exactly of every other line.
pub fn read_glance(reply: &[u8]) -> Option<Glance>
    ensures read { IfSome result (λ g. glance_text g ≡ reply.now) }
    ensures all { (g : Glance) → IsGlance g → glance_text g ≡ reply.now → result ≡ Some g }
{
    let glance = numbers_in(reply)?;
    let mut room = [0; 160];
    let end = write_reply(&Told::Glance(glance), &mut room);
    if 0 < end && &room[..end - 1] == reply {
        Some(glance)
    } else {
        None
    }
}
