//! The table of the desks of features.
ghost use Rattle.std.specs.Prelude.{◌≡◌, ◌≤◌, ◌++◌, decimal, IfOk, OnOk};
ghost use Rattle.client_talk.specs.Table.{cell, head_text, row_text};

use counter::Glance;
use itoa::Buffer;
use std::alloc::{AllocError, Global};

/// How wide the column of the features is.
const FEATURE_WIDTH: usize = 24;

/// How wide a column of numbers is.
const NUMBER_WIDTH: usize = 10;

/// Puts a cell behind the others: a text, blanks up to this width, and one blank more.
fn put_cell(text: &mut Vec<u8>, width: usize, piece: &[u8]) -> Result<(), AllocError>
    requires { width ≤ 24 }
    ensures { OnOk result (text.new.items ≡ text.old.items ++ cell width piece.now) }
{
    let blanks = [b' '; FEATURE_WIDTH];
    text.extend_from_slice(piece)?;
    text.extend_from_slice(&blanks[..width.saturating_sub(piece.len())])?;
    text.extend_from_slice(b" ")?;
    Ok(())
}

/// Puts a number as a cell.
fn put_count(text: &mut Vec<u8>, count: u32) -> Result<(), AllocError>
    ensures { OnOk result (text.new.items ≡ text.old.items ++ cell 10 (decimal count)) }
{
    let mut buffer = Buffer::new();
    put_cell(text, NUMBER_WIDTH, buffer.format(count).as_bytes())
}

/// The first line of the table. It fails where memory ran out.
pub(crate) fn head(alloc: Global) -> Result<Vec<u8>, AllocError>
    ensures { IfOk result (λ text. text.items ≡ head_text) }
{
    let mut text = Vec::new(alloc);
    put_cell(&mut text, FEATURE_WIDTH, b"FEATURE")?;
    put_cell(&mut text, NUMBER_WIDTH, b"IN USE")?;
    put_cell(&mut text, NUMBER_WIDTH, b"LINGERING")?;
    put_cell(&mut text, NUMBER_WIDTH, b"FREE")?;
    text.extend_from_slice(b"WAITING\n")?;
    Ok(text)
}

/// Puts the row of a feature behind the others. An error is want of memory.
pub(crate) fn put_row(text: &mut Vec<u8>, feature: &str, glance: &Glance) -> Result<(), AllocError>
    ensures { OnOk result (text.new.items ≡ text.old.items ++ row_text feature.now glance.now) }
{
    put_cell(text, FEATURE_WIDTH, feature.as_bytes())?;
    put_count(text, glance.held)?;
    put_count(text, glance.lingering)?;
    put_count(text, glance.free.saturating_sub(glance.taken))?;
    let mut buffer = Buffer::new();
    text.extend_from_slice(buffer.format(glance.queued).as_bytes())?;
    text.extend_from_slice(b"\n")?;
    Ok(())
}
