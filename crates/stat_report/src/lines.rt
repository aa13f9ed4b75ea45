//! The lines of a report.
ghost use Rattle.std.specs.Prelude.{◌≡◌, ◌∷◌, ◌++◌, OnOk, decimal};
ghost use Rattle.std.specs.List.{flat_map};
ghost use Rattle.reply_words.specs.Words.{charge_text};
ghost use Rattle.stat_report.specs.Report.{held_line, lingering_line, pool_line, pool_named, pool_open, pool_used, queued_line, queued_lines};

use counter::Glance;
use feature_lines::Pool;
use itoa::Buffer;
use lic_types::{Name, NoMemory};
use options_machine::{Charge, Holder, Lingerer, Queuer};
use reply_words::put_charge;
use seat_book::Book;

/// How long the words of a charge can be, in bytes.
const CHARGE_ROOM: usize = 28;

/// Writes a text and a number behind it.
fn put_numbered(text: &mut Vec<u8>, front: &[u8], number: u64) -> Result<(), NoMemory>
    ensures { OnOk result (text.new.items ≡ text.old.items ++ front.now ++ decimal number) }
{
    text.extend_from_slice(front)?;
    let mut buffer = Buffer::new();
    text.extend_from_slice(buffer.format(number).as_bytes())?;
    Ok(())
}

/// Writes a name behind a space.
fn put_name(text: &mut Vec<u8>, name: &Name) -> Result<(), NoMemory>
    ensures { OnOk result (text.new.items ≡ text.old.items ++ 32 ∷ name.now) }
{
    text.push(b' ')?;
    text.extend_from_slice(name.bytes())?;
    Ok(())
}

/// Writes the words of a charge behind a space.
fn put_charged(text: &mut Vec<u8>, charge: &Charge) -> Result<(), NoMemory>
    ensures { OnOk result (text.new.items ≡ text.old.items ++ 32 ∷ charge_text charge.now) }
{
    let mut room = [0; CHARGE_ROOM];
    let end = put_charge(&mut room, 0, charge);
    text.push(b' ')?;
    text.extend_from_slice(&room[..end])?;
    Ok(())
}

/// Writes which pool it is.
fn put_named(text: &mut Vec<u8>, at: u32, pool: &Pool) -> Result<(), NoMemory>
    ensures { OnOk result (text.new.items ≡ text.old.items ++ pool_named at pool.now) }
{
    put_numbered(text, b"POOL ", u64::from(at))?;
    put_name(text, &pool.name)?;
    put_name(text, &pool.version_text)
}

/// Writes how many seats of a pool are in use.
fn put_used(text: &mut Vec<u8>, numbers: &Glance) -> Result<(), NoMemory>
    ensures { OnOk result (text.new.items ≡ text.old.items ++ pool_used numbers.now) }
{
    put_numbered(text, b" HELD ", u64::from(numbers.held))?;
    put_numbered(text, b" LINGERING ", u64::from(numbers.lingering))
}

/// Writes how many seats are charged to no RESERVE line, and how many may be, and ends the line.
fn put_open(text: &mut Vec<u8>, numbers: &Glance) -> Result<(), NoMemory>
    ensures { OnOk result (text.new.items ≡ text.old.items ++ pool_open numbers.now) }
{
    put_numbered(text, b" OPEN ", u64::from(numbers.taken))?;
    put_numbered(text, b" OF ", u64::from(numbers.free))?;
    text.push(b'\n')?;
    Ok(())
}

/// Writes the line of the pool of this number, with its numbers.
pub(crate) fn put_pool(
    text: &mut Vec<u8>,
    at: u32,
    pool: &Pool,
    numbers: &Glance,
) -> Result<(), NoMemory>
    ensures { OnOk result (text.new.items ≡ text.old.items ++ pool_line at pool.now numbers.now) }
{
    put_named(text, at, pool)?;
    put_used(text, numbers)?;
    put_open(text, numbers)
}

/// Writes the line of a seat that is held.
fn put_holder(text: &mut Vec<u8>, holder: &Holder) -> Result<(), NoMemory>
    ensures { OnOk result (text.new.items ≡ text.old.items ++ held_line holder.now) }
{
    put_numbered(text, b"HELD ", u64::from(holder.party))?;
    put_name(text, &holder.client.user)?;
    put_name(text, &holder.client.host)?;
    put_name(text, &holder.client.display)?;
    put_name(text, &holder.client.project)?;
    put_charged(text, &holder.charge)?;
    put_numbered(text, b" BEAT ", holder.beat)?;
    text.push(b'\n')?;
    Ok(())
}

/// Writes the lines of seats that are held.
pub(crate) fn put_holders(text: &mut Vec<u8>, holders: &[Holder]) -> Result<(), NoMemory>
    ensures { OnOk result (text.new.items ≡ text.old.items ++ flat_map held_line holders.now) }
{
    for holder in holders {
        put_holder(text, holder)?;
    }
    Ok(())
}

/// Writes the line of a seat that lingers.
fn put_lingerer(text: &mut Vec<u8>, entry: &Lingerer) -> Result<(), NoMemory>
    ensures { OnOk result (text.new.items ≡ text.old.items ++ lingering_line entry.now) }
{
    text.extend_from_slice(b"LINGERING")?;
    put_name(text, &entry.client.user)?;
    put_name(text, &entry.client.host)?;
    put_name(text, &entry.client.display)?;
    put_name(text, &entry.client.project)?;
    put_charged(text, &entry.charge)?;
    put_numbered(text, b" UNTIL ", entry.until)?;
    text.push(b'\n')?;
    Ok(())
}

/// Writes the lines of the seats of a book that linger.
pub(crate) fn put_lingerers(text: &mut Vec<u8>, book: &Book) -> Result<(), NoMemory>
    ensures { OnOk result (text.new.items ≡ text.old.items ++ flat_map lingering_line book.now.state.lingering) }
{
    for at in 0..book.lingering() {
        if let Some(entry) = book.linger_at(at) {
            put_lingerer(text, &entry)?;
        }
    }
    Ok(())
}

/// Writes the line of a party that waits, at a position of the queue from 1.
fn put_queuer(text: &mut Vec<u8>, position: u64, queuer: &Queuer) -> Result<(), NoMemory>
    ensures { OnOk result (text.new.items ≡ text.old.items ++ queued_line position queuer.now) }
{
    put_numbered(text, b"QUEUED ", position)?;
    put_numbered(text, b" ", u64::from(queuer.party))?;
    put_name(text, &queuer.client.user)?;
    put_name(text, &queuer.client.host)?;
    put_name(text, &queuer.client.display)?;
    put_name(text, &queuer.client.project)?;
    text.push(b'\n')?;
    Ok(())
}

/// Writes the lines of a queue.
pub(crate) fn put_queue(text: &mut Vec<u8>, queue: &[Queuer]) -> Result<(), NoMemory>
    ensures { OnOk result (text.new.items ≡ text.old.items ++ queued_lines 0 queue.now) }
{
    for (at, queuer) in queue.iter().enumerate() {
        put_queuer(text, at as u64 + 1, queuer)?;
    }
    Ok(())
}
