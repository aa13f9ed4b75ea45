ghost use Rattle.std.specs.Prelude.{◌≡◌, ◌+◌, ◌<◌, ◌^◌, ◌∷◌, length, MatchOption};

use crate::extent::measure;
use crate::fault::TextFault;
use crate::judge::fault_of;
use crate::line::Line;
use crate::physical::{cut_line, is_comment};
use crate::words::Words;

/// The logical lines of a file, each with its number and words. They end after the first fault.
#[derive(Drop)]
pub struct Lines<'a> {
    pub(crate) rest: &'a [u8],
    // How many physical lines stand before the rest.
    pub(crate) passed: u32,
    ghost fits: { passed + length rest.now < 2 ^ 32 },
}

impl<'a> Lines<'a> {
    ghost use Rattle.lic_text.specs.LinesLeft.{lines_left, item_view};

    /// Reads one comment or one logical line.
    fn step(&mut self) -> Option<Result<Line<'a>, TextFault>>
        requires { 0 < length self.old.rest.now }
        ensures told { MatchOption result (lines_left self.old ≡ lines_left self.new)
            (λ told. lines_left self.old ≡ item_view told ∷ lines_left self.new) }
        ensures nearer { length self.new.rest.now < length self.old.rest.now }
    {
        let first = self.passed + 1;
        let (text, behind) = cut_line(self.rest);
        if is_comment(text) {
            self.rest = behind;
            self.passed = first;
            return None;
        }
        let extent = measure(text, behind);
        if let Some(fault) = fault_of(first, &extent) {
            self.rest = &[];
            return Some(Err(fault));
        }
        self.rest = extent.rest;
        self.passed += extent.count;
        let words = Words::beginning(text, behind);
        let line = Line { first, words };
        if line.has_words() {
            Some(Ok(line))
        } else {
            None
        }
    }
}

impl<'a> Iterator for Lines<'a> {
    ghost use Rattle.std.specs.Iterator.{YieldsFirstBy, item_count};
    ghost use Rattle.lic_text.specs.LinesLeft.{lines_left, item_view};

    type Item = Result<Line<'a>, TextFault>;

    ghost next_gives = { YieldsFirstBy item_view lines_left };

    ghost remaining = { item_count lines_left };

    fn next(&mut self) -> Option<Result<Line<'a>, TextFault>> {
        while !self.rest.is_empty() {
            if let Some(told) = self.step() {
                return Some(told);
            }
        }
        None
    }
}
