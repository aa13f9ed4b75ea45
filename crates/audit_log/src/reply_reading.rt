//! The words of a reply, read.
ghost use Rattle.std.specs.Prelude.{◌≡◌, ◌≤◌, ◌^◌, List, ℕ, Bool, Ok, Err, IfOk, MatchResult};
ghost use Rattle.lic_text.specs.Left.{words_left};
ghost use Rattle.lic_text.specs.Number.{number_of};
ghost use Rattle.audit_log.specs.Replies.{alone, bare_of, behind, charge_of, counts_of, exact, no_seat_of, number_behind_word, own_and_words, printed_number, reply_by, reply_of};

use itoa::Buffer;
use lic_text::{Words, number};
use options_machine::{Charge, Reply};
use script_words::ScriptWord;

/// The last number of a field of 32 bits.
const LAST_32: u64 = (1 << 32) - 1;

/// Reads the next word of a reply, which is to be this one.
fn read_tag(words: &mut Words<'_>, tag: &[u8]) -> Result<(), ScriptWord>
    ensures { MatchResult result (λ _. behind tag.now (words_left words.old) ≡ Ok (words_left words.new)) (λ fault. behind tag.now (words_left words.old) ≡ Err fault) }
{
    match words.next() {
        Some(word) if word == tag => Ok(()),
        _ => Err(ScriptWord::UnknownWord),
    }
}

/// The number up to the last one of which a word is the printed text.
fn read_printed(word: &[u8], last: u64) -> Result<u64, ScriptWord>
    ensures value { result ≡ printed_number last word.now (number_of word.now) }
    ensures small { IfOk result (λ n. n ≤ last) }
{
    let mut buffer = Buffer::new();
    match number(word) {
        Some(value) if value <= last && word == buffer.format(value).as_bytes() => Ok(value),
        _ => Err(ScriptWord::UnknownWord),
    }
}

/// Reads the next word of a reply, which is to be a number up to the last one.
fn read_exact(words: &mut Words<'_>, last: u64) -> Result<u64, ScriptWord>
    ensures read { MatchResult result (λ n. exact last (words_left words.old) ≡ Ok (n, words_left words.new)) (λ fault. exact last (words_left words.old) ≡ Err fault) }
    ensures small { IfOk result (λ n. n ≤ last) }
{
    let word = words.next().ok_or(ScriptWord::UnknownWord)?;
    read_printed(word, last)
}

/// Reads a word of a reply, which is to be this one, and a number behind it.
fn read_tagged(words: &mut Words<'_>, tag: &[u8], last: u64) -> Result<u64, ScriptWord>
    ensures read { MatchResult result (λ n. number_behind_word last tag.now (words_left words.old) ≡ Ok (n, words_left words.new)) (λ fault. number_behind_word last tag.now (words_left words.old) ≡ Err fault) }
    ensures small { IfOk result (λ n. n ≤ last) }
{
    read_tag(words, tag)?;
    read_exact(words, last)
}

/// What was read, where no word is left.
fn read_end<T: Copy>(value: T, words: Words<'_>) -> Result<T, ScriptWord>
    ensures { result ≡ alone value (words_left words.entry) }
{
    let mut words = words;
    match words.next() {
        None => Ok(value),
        Some(_) => Err(ScriptWord::UnknownWord),
    }
}

/// The charge that these words are.
fn read_charge(words: Words<'_>) -> Result<Charge, ScriptWord>
    ensures { result ≡ charge_of (words_left words.entry) }
{
    let mut words = words;
    let word = words.next().ok_or(ScriptWord::UnknownWord)?;
    if word == b"OPEN".as_slice() {
        read_end(Charge::Open, words)
    } else if word == b"RESERVE".as_slice() {
        let line = read_exact(&mut words, LAST_32)?;
        read_end(Charge::Reserve(line as u32), words)
    } else {
        Err(ScriptWord::UnknownWord)
    }
}

/// What a party has, by the word behind OWN: whether it is a told holder, and whether it waits or wasn't told.
fn read_own(words: &mut Words<'_>) -> Result<(bool, bool), ScriptWord>
    ensures { MatchResult result (λ own. own_and_words (words_left words.old) ≡ Ok (own, words_left words.new)) (λ fault. own_and_words (words_left words.old) ≡ Err fault) }
{
    let word = words.next().ok_or(ScriptWord::UnknownWord)?;
    if word == b"1".as_slice() {
        Ok((true, false))
    } else if word == b"2".as_slice() {
        Ok((false, true))
    } else if word == b"0".as_slice() {
        Ok((false, false))
    } else {
        Err(ScriptWord::UnknownWord)
    }
}

/// The numbers of a desk, by the words behind COUNTS.
fn read_counts(words: Words<'_>) -> Result<Reply, ScriptWord>
    ensures { result ≡ counts_of (words_left words.entry) }
{
    let mut words = words;
    let held = read_tagged(&mut words, b"HELD", LAST_32)?;
    let lingering = read_tagged(&mut words, b"LINGERING", LAST_32)?;
    let taken = read_tagged(&mut words, b"OPEN", LAST_32)?;
    let free = read_tagged(&mut words, b"OF", LAST_32)?;
    read_tag(&mut words, b"OWN")?;
    let (own, queued) = read_own(&mut words)?;
    let counts = Reply::Counts {
        held: held as u32,
        lingering: lingering as u32,
        taken: taken as u32,
        free: free as u32,
        own,
        queued,
    };
    read_end(counts, words)
}

/// The numbers of a desk without a seat, by the words behind NOSEAT.
fn read_no_seat(words: Words<'_>) -> Result<Reply, ScriptWord>
    ensures { result ≡ no_seat_of (words_left words.entry) }
{
    let mut words = words;
    let taken = read_tagged(&mut words, b"TAKEN", LAST_32)?;
    let free = read_tagged(&mut words, b"OF", LAST_32)?;
    read_end(Reply::NoSeat(taken as u32, free as u32), words)
}

/// A reply of one word.
fn read_bare(word: &[u8]) -> Result<Reply, ScriptWord>
    ensures { result ≡ bare_of word.now }
{
    if word == b"ALREADYHELD".as_slice() {
        Ok(Reply::AlreadyHeld)
    } else if word == b"RETURNED".as_slice() {
        Ok(Reply::Returned)
    } else if word == b"NOTHELD".as_slice() {
        Ok(Reply::NotHeld)
    } else if word == b"BEATEN".as_slice() {
        Ok(Reply::Beaten)
    } else if word == b"HELD".as_slice() {
        Ok(Reply::Held)
    } else if word == b"UNQUEUED".as_slice() {
        Ok(Reply::Unqueued)
    } else {
        Err(ScriptWord::UnknownWord)
    }
}

/// The reply that these words are, the first of them apart.
pub(crate) fn read_reply(word: &[u8], words: Words<'_>) -> Result<Reply, ScriptWord>
    ensures { result ≡ reply_by word.now (words_left words.entry) }
{
    let mut words = words;
    if word == b"GRANTED".as_slice() {
        Ok(Reply::Granted(read_charge(words)?))
    } else if word == b"RETAKEN".as_slice() {
        Ok(Reply::Retaken(read_charge(words)?))
    } else if word == b"DENIED".as_slice() {
        let line = read_tagged(&mut words, b"LINE", LAST_32)?;
        read_end(Reply::Denied(line as u32), words)
    } else if word == b"NOSEAT".as_slice() {
        read_no_seat(words)
    } else if word == b"LINGERING".as_slice() {
        let until = read_tagged(&mut words, b"UNTIL", u64::MAX)?;
        read_end(Reply::Lingering(until), words)
    } else if word == b"COUNTS".as_slice() {
        read_counts(words)
    } else if word == b"QUEUED".as_slice() {
        let position = read_exact(&mut words, LAST_32)?;
        read_end(Reply::Queued(position as u32), words)
    } else if word == b"REREAD".as_slice() {
        let set = read_exact(&mut words, LAST_32)?;
        read_end(Reply::Reread(set as u32), words)
    } else {
        let reply = read_bare(word)?;
        read_end(reply, words)
    }
}
