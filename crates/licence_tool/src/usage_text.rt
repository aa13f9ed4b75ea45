//! What a usage tells of a log.
ghost use Rattle.std.specs.Prelude.{◌≡◌, ◌≤◌, ◌++◌, IfOk, OnOk, length};
ghost use Rattle.std.specs.List.{flat_map};
ghost use Rattle.licence_tool.specs.UsageText.{IsUsageText, date_text, day_line, own_line, pool_line, usage_lines};

use crate::audit_text::put_numbered;
use crate::dates::{DatedSum, date_days};
use feature_lines::Pool;
use lic_types::{Day, NoMemory};
use log_audit::DaySum;
use std::alloc::Global;

/// Writes the date of a day.
fn put_date(text: &mut Vec<u8>, date: &Option<Day>) -> Result<(), NoMemory>
    ensures { OnOk result (text.new.items ≡ text.old.items ++ date_text date.now) }
{
    match date {
        None => text.extend_from_slice(b"after-31-dec-9999")?,
        Some(date) => {
            let mut room = [0; 16];
            let end = date.put(&mut room);
            text.extend_from_slice(&room[..end])?;
        }
    }
    Ok(())
}

/// Writes the line of a day.
fn put_day(text: &mut Vec<u8>, day: &DatedSum) -> Result<(), NoMemory>
    ensures { OnOk result (text.new.items ≡ text.old.items ++ day_line day.now) }
{
    text.extend_from_slice(b"DAY ")?;
    put_date(text, &day.date)?;
    put_numbered(text, b" PEAK ", u64::from(day.sum.peak))?;
    put_numbered(text, b" SECONDS ", day.sum.seconds)?;
    put_numbered(text, b" DENIED ", day.sum.denied)?;
    put_numbered(text, b" NOSEAT ", day.sum.noseat)?;
    put_numbered(text, b" GRANTS ", day.sum.grants)?;
    text.push(b'\n')?;
    Ok(())
}

/// Writes the line of a day, where it is one of the pool of this number.
fn put_own_day(text: &mut Vec<u8>, pool: usize, day: &DatedSum) -> Result<(), NoMemory>
    ensures { OnOk result (text.new.items ≡ text.old.items ++ own_line pool day.now) }
{
    if day.sum.pool as usize == pool {
        put_day(text, day)?;
    }
    Ok(())
}

/// Writes the lines of the days of the pool of this number.
fn put_days(text: &mut Vec<u8>, pool: usize, days: &[DatedSum]) -> Result<(), NoMemory>
    ensures { OnOk result (text.new.items ≡ text.old.items ++ flat_map (own_line pool) days.now) }
{
    for day in days {
        put_own_day(text, pool, day)?;
    }
    Ok(())
}

/// Writes the line of the pool of this number.
fn put_pool(text: &mut Vec<u8>, at: usize, pool: &Pool) -> Result<(), NoMemory>
    ensures { OnOk result (text.new.items ≡ text.old.items ++ pool_line at pool.now) }
{
    put_numbered(text, b"USAGE ", at as u64)?;
    text.push(b' ')?;
    text.extend_from_slice(pool.name.bytes())?;
    text.push(b' ')?;
    text.extend_from_slice(pool.version_text.bytes())?;
    text.push(b'\n')?;
    Ok(())
}

/// Writes the lines of pools, which are numbered from 0, each followed by those of its days.
fn put_pools(text: &mut Vec<u8>, pools: &[Pool], days: &[DatedSum]) -> Result<(), NoMemory>
    ensures { OnOk result (text.new.items ≡ text.old.items ++ usage_lines 0 pools.now days.now) }
{
    for (at, pool) in pools.iter().enumerate() {
        put_pool(text, at, pool)?;
        put_days(text, at, days)?;
    }
    Ok(())
}

/// The text that tells of pools and their days: a line for each pool with its number from 0, its name and its version
/// as the licence writes it, and behind it a line for each of its days. The one error is want of memory.
pub fn usage_text(alloc: Global, pools: &[Pool], days: &[DaySum]) -> Result<Vec<u8>, NoMemory>
    ensures { IfOk result (λ text. IsUsageText pools.now days.now text.items) }
{
    let dated = date_days(alloc, days)?;
    let mut text = Vec::new(alloc);
    put_pools(&mut text, pools, dated.as_slice())?;
    Ok(text)
}
