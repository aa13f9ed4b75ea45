//! The MAX and RESERVE lines of a pool with their numbers, by their places in its options file.
ghost use Rattle.std.specs.Prelude.{◌≡◌, ◌<◌, IfOk, Some, length, slice_get};
ghost use Rattle.std.specs.List.{filter_map};
ghost use Rattle.options_machine.specs.Rules.{cut_at, cut_limits, left_of, max_of, reserve_of};

use crate::selection::{cut_at, max_of, reserve_of};
use lic_types::{Name, NoMemory, RuleLine};
use options_machine::Cut;
use options_text::RuleLines;
use std::alloc::{AllocError, Global};
use std::marker::Model;

/// The place of a line among those of an options file, from 0, with a number of licences.
#[derive(Clone, Copy)]
struct PlacedLimit {
    place: usize,
    number: u32,
}

/// A MAX line with its number, or a RESERVE line with the number to which it was cut, which a clause sees as an
/// `options_machine::Limit`.
#[derive(Drop)]
pub struct LentLimit<'a> {
    /// The line.
    pub line: &'a RuleLine,
    /// How many seats: at a MAX line those that its clients may have, at a RESERVE line those that it keeps.
    pub number: u32,
}

impl<'a> Model for LentLimit<'a> {
    ghost use Rattle.options_machine.specs.declared.limits.Limit.{Limit};

    ghost Value = { Limit };

    ghost view = { λ m. record { line = m.line.now; number = m.number } };
}

/// Lines of an options file with their numbers, which a clause sees as their list. It keeps their places in the file's
/// lines and shares those lines, so that a line takes no more room for each pool than two numbers.
#[derive(Drop)]
pub struct Limits {
    all: RuleLines,
    limits: Vec<PlacedLimit>,
}

impl Model for Limits {
    ghost use Rattle.std.specs.Prelude.{List};
    ghost use Rattle.options_machine.specs.declared.limits.Limit.{Limit};
    ghost use Rattle.policy.specs.Limits.{HaveLines, limits_at};

    ghost Value = { List Limit };

    ghost view = { λ r. limits_at r.all r.limits.items };

    ghost invariant = { λ r. HaveLines r.all r.limits.items };
}

impl Limits {
    /// The MAX lines of the feature, in their order.
    pub(crate) fn maxes(alloc: Global, all: &RuleLines, feature: &Name) -> Result<Limits, NoMemory>
        ensures { IfOk result (λ found. found ≡ filter_map (max_of feature.now) all.now) }
    {
        let mut limits = Vec::new(alloc);
        let lines = all.as_slice();
        for place in 0..lines.len() {
            if let Some(number) = max_of(feature, &lines[place]) {
                limits.push(PlacedLimit { place, number })?;
            }
        }
        Ok(Limits {
            all: all.share()?,
            limits,
        })
    }

    /// The RESERVE lines of the feature, in their order, each number cut to what is left of the count; and what is
    /// left after all.
    pub(crate) fn reserves(
        alloc: Global,
        all: &RuleLines,
        feature: &Name,
        count: u32,
    ) -> Result<(Limits, u32), NoMemory>
        ensures cut { IfOk result (λ found. found.0 ≡ cut_limits count (filter_map (reserve_of feature.now) all.now)) }
        ensures left { IfOk result (λ found. found.1 ≡ left_of count (filter_map (reserve_of feature.now) all.now)) }
    {
        let mut limits = Vec::new(alloc);
        let mut left = count;
        let lines = all.as_slice();
        for place in 0..lines.len() {
            if let Some(asked) = reserve_of(feature, &lines[place]) {
                let number = asked.min(left);
                limits.push(PlacedLimit { place, number })?;
                left = left.saturating_sub(asked);
            }
        }
        let all = all.share()?;
        Ok((Limits { all, limits }, left))
    }

    /// How many lines they are.
    pub fn len(&self) -> usize
        ensures { result ≡ length self.now }
    {
        self.limits.len()
    }

    /// The line at a place among them, with its number.
    pub fn at(&self, i: usize) -> LentLimit<'_>
        requires { i < length self.now }
        ensures { slice_get self.now i ≡ Some result }
    {
        let lines = self.all.as_slice();
        let limit = self.limits[i];
        LentLimit {
            line: &lines[limit.place],
            number: limit.number,
        }
    }

    /// The RESERVE lines among them whose numbers were cut, in their order.
    pub(crate) fn cuts(&self, alloc: Global) -> Result<Vec<Cut>, AllocError>
        ensures { IfOk result (λ found. found.items ≡ filter_map cut_at self.now) }
    {
        let mut cuts = Vec::new(alloc);
        for i in 0..self.len() {
            if let Some(cut) = cut_at(&self.at(i)) {
                cuts.push(cut)?;
            }
        }
        Ok(cuts)
    }
}
