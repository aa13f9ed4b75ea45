//! What is advised of the lines of an options file, in their order.
ghost use Rattle.std.specs.Prelude.{◌≡◌, ◌++◌, [], OnOk, IfOk, false, map, true};
ghost use Rattle.std.specs.Bool.{MatchBool};
ghost use Rattle.std.specs.List.{flat_map};
ghost use Rattle.options_text.specs.Rises.{AreRising};
ghost use Rattle.lint_advice.specs.Advice.{entry_advice, rule_advice};
ghost use Rattle.lint_advice.specs.Cuts.{cut_advice};
ghost use Rattle.lint_advice.specs.Order.{Advises, is_group_next, in_order};

use crate::advice::Advice;
use crate::cuts::PoolCut;
use crate::finds::{idle_max, never_read, no_pool, no_rule, short_timeout, shut_out};
use crate::pools::put;
use feature_lines::Pool;
use lic_types::{Group, NoMemory, RuleLine};

/// What the advice on a line rests on.
#[derive(Clone, Copy)]
pub struct Known<'a> {
    /// The pools of the licence.
    pub pools: &'a [Pool],
    /// The rules of the options file.
    pub lines: &'a [RuleLine],
    /// The RESERVE lines that the pools cut.
    pub cuts: &'a [PoolCut],
}

/// The lines that are left to look at.
#[derive(Clone, Copy)]
pub struct Left<'a> {
    pub groups: &'a [Group],
    pub rules: &'a [RuleLine],
}

/// Puts the cuts of a line behind the other advice.
fn put_cuts(advice: &mut Vec<Advice>, cuts: &[PoolCut], line: &RuleLine) -> Result<(), NoMemory>
    ensures { OnOk result (advice.new.items ≡ advice.old.items ++ cut_advice cuts.now line.now) }
{
    for found in cuts {
        if found.cut.line == line.line {
            advice.push(Advice::Cut {
                line: line.line,
                pool: found.pool,
                to: found.cut.to,
            })?;
        }
    }
    Ok(())
}

/// Puts what is advised of a rule behind the other advice.
fn advise_rule(advice: &mut Vec<Advice>, known: &Known<'_>, line: &RuleLine) -> Result<(), NoMemory>
    ensures { OnOk result (advice.new.items ≡ advice.old.items ++ rule_advice known.now.pools.now known.now.lines.now known.now.cuts.now line.now) }
{
    put(advice, no_pool(known.pools, line))?;
    put_cuts(advice, known.cuts, line)?;
    put(advice, idle_max(known.pools, line))?;
    put(advice, shut_out(known.lines, line))?;
    put(advice, never_read(known.lines, line))?;
    put(advice, short_timeout(line))
}

/// Whether the next line is of a group.
fn is_group_next(groups: &[Group], rules: &[RuleLine]) -> bool
    ensures { result ≡ is_group_next groups.now rules.now }
{
    match (groups, rules) {
        ([], _) => false,
        ([_, ..], []) => true,
        ([group, ..], [rule, ..]) => group.line() <= rule.line,
    }
}

/// Puts what is advised of the next line, which is of a group, behind the other advice.
fn advise_next_group(
    advice: &mut Vec<Advice>,
    known: &Known<'_>,
    left: &mut Left<'_>,
) -> Result<(), NoMemory>
    requires next { is_group_next left.old.groups.now left.old.rules.now ≡ true }
    requires groups { AreRising (map (λ g. g.line) left.old.groups.now) }
    requires rules { AreRising (map (λ l. l.line) left.old.rules.now) }
    ensures { OnOk result (Advises (entry_advice known.now.pools.now known.now.lines.now known.now.cuts.now) advice.old.items advice.new.items
        left.old.groups.now left.new.groups.now left.old.rules.now left.new.rules.now) }
{
    let Some((group, others)) = left.groups.split_first() else {
        unreachable!()
    };
    put(advice, no_rule(known.lines, group))?;
    left.groups = others;
    Ok(())
}

/// Puts what is advised of the next line, which is a rule, behind the other advice; `false` comes exactly where none is
/// left.
fn advise_next_rule(
    advice: &mut Vec<Advice>,
    known: &Known<'_>,
    left: &mut Left<'_>,
) -> Result<bool, NoMemory>
    requires next { is_group_next left.old.groups.now left.old.rules.now ≡ false }
    requires groups { AreRising (map (λ g. g.line) left.old.groups.now) }
    requires rules { AreRising (map (λ l. l.line) left.old.rules.now) }
    ensures { IfOk result (λ more. MatchBool more
        (Advises (entry_advice known.now.pools.now known.now.lines.now known.now.cuts.now) advice.old.items advice.new.items
        left.old.groups.now left.new.groups.now left.old.rules.now left.new.rules.now)
        ((in_order left.old.groups.now left.old.rules.now ≡ []) × (advice.new.items ≡ advice.old.items))) }
{
    let Some((rule, others)) = left.rules.split_first() else {
        return Ok(false);
    };
    advise_rule(advice, known, rule)?;
    left.rules = others;
    Ok(true)
}

/// Puts what is advised of the next line behind the other advice; `false` comes exactly where none is left.
fn advise_next(
    advice: &mut Vec<Advice>,
    known: &Known<'_>,
    left: &mut Left<'_>,
) -> Result<bool, NoMemory>
    requires groups { AreRising (map (λ g. g.line) left.old.groups.now) }
    requires rules { AreRising (map (λ l. l.line) left.old.rules.now) }
    ensures { IfOk result (λ more. MatchBool more
        (Advises (entry_advice known.now.pools.now known.now.lines.now known.now.cuts.now) advice.old.items advice.new.items
        left.old.groups.now left.new.groups.now left.old.rules.now left.new.rules.now)
        ((in_order left.old.groups.now left.old.rules.now ≡ []) × (advice.new.items ≡ advice.old.items))) }
{
    if is_group_next(left.groups, left.rules) {
        advise_next_group(advice, known, left)?;
        Ok(true)
    } else {
        advise_next_rule(advice, known, left)
    }
}

/// Puts what is advised of the lines of these groups and of the known rules behind the other advice, in the order of
/// the lines.
pub fn advise_lines(
    advice: &mut Vec<Advice>,
    known: &Known<'_>,
    groups: &[Group],
) -> Result<(), NoMemory>
    requires groups { AreRising (map (λ g. g.line) groups.now) }
    requires rules { AreRising (map (λ l. l.line) known.now.lines.now) }
    ensures { OnOk result (advice.new.items
        ≡ advice.old.items ++ flat_map (entry_advice known.now.pools.now known.now.lines.now known.now.cuts.now) (in_order groups.now known.now.lines.now)) }
{
    let mut left = Left {
        groups,
        rules: known.lines,
    };
    while advise_next(advice, known, &mut left)? {}
    Ok(())
}
