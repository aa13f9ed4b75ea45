//! All charges given anew.
ghost use Rattle.std.specs.Prelude.{◌≡◌, ◌++◌, ◌&&◌, count_by, [], nat_lt, find, map};
ghost use Rattle.std.specs.Option.{option_map};
ghost use Rattle.policy.specs.Kept.{HasSameRoom, state_of};
ghost use Rattle.options_machine.specs.Rules.{applies};
ghost use Rattle.options_machine.specs.State.{same_charge};
ghost use Rattle.options_machine.specs.Decide.{number_of_limit};
ghost use Rattle.options_machine.specs.Step.{holders_anew, lingering_anew, next_charge, times, with_charges_anew};

use crate::limits::LentLimit;
use crate::lists::{Lists, holders_charged, lingering_charged};
use crate::rules::DeskRules;
use lic_types::Client;
use options_machine::{Charge, Holder, Lingerer};

/// How many of these entries have the charge.
fn given(holders: &[Holder], lingering: &[Lingerer], charge: &Charge) -> usize
    ensures { result ≡ count_by (λ c. same_charge c charge.now) (map (λ h. h.charge) holders.now ++ map (λ l. l.charge) lingering.now) }
{
    holders_charged(holders, charge) + lingering_charged(lingering, charge)
}

/// Whether a RESERVE line speaks of the client and was given fewer times than its cut number, where these entries were
/// charged before.
fn is_next(
    rules: &DeskRules,
    holders: &[Holder],
    lingering: &[Lingerer],
    client: &Client,
    limit: &LentLimit<'_>,
) -> bool
    ensures { result ≡ (applies rules.now.groups client.now limit.now.line && nat_lt (times (map (λ h. h.charge) holders.now ++ map (λ l. l.charge) lingering.now) limit.now.line.line) limit.now.number) }
{
    rules.applies(client, limit.line)
        && given(holders, lingering, &Charge::Reserve(limit.line.line)) < limit.number as usize
}

/// The first RESERVE line that speaks of the client and was given fewer times than its cut number, where these entries
/// were charged before.
#[tactic(auto, using(crate::proofs::Finds::next_item))]
fn next_line(
    rules: &DeskRules,
    holders: &[Holder],
    lingering: &[Lingerer],
    client: &Client,
) -> Option<u32>
    ensures { result ≡ option_map number_of_limit (find (λ m. applies rules.now.groups client.now m.line && nat_lt (times (map (λ h. h.charge) holders.now ++ map (λ l. l.charge) lingering.now) m.line.line) m.number) rules.now.reserves) }
{
    let limits = rules.reserves();
    for i in 0..limits.len() {
        let limit = limits.at(i);
        if is_next(rules, holders, lingering, client, &limit) {
            return Some(limit.line.line);
        }
    }
    None
}

/// The charge that comes next, where these entries were charged before.
fn next_charge(
    rules: &DeskRules,
    holders: &[Holder],
    lingering: &[Lingerer],
    client: &Client,
) -> Charge
    ensures { result ≡ next_charge rules.now (map (λ h. h.charge) holders.now ++ map (λ l. l.charge) lingering.now) client.now }
{
    match next_line(rules, holders, lingering, client) {
        Some(line) => Charge::Reserve(line),
        None => Charge::Open,
    }
}

/// Charges the holders anew.
fn charge_holders(rules: &DeskRules, holders: &mut [Holder])
    ensures { holders.new ≡ holders_anew rules.now [] holders.old }
{
    for i in 0..holders.len() {
        let all = &holders[..];
        let charge = next_charge(rules, &all[..i], &[], &all[i].client);
        holders[i].charge = charge;
    }
}

/// Charges what lingers anew, after the holders.
fn charge_lingering(rules: &DeskRules, holders: &[Holder], lingering: &mut [Lingerer])
    ensures { lingering.new ≡ lingering_anew rules.now (map (λ h. h.charge) holders.now) lingering.old }
{
    for i in 0..lingering.len() {
        let all = &lingering[..];
        let charge = next_charge(rules, holders, &all[..i], &all[i].client);
        lingering[i].charge = charge;
    }
}

/// Gives all charges anew.
pub(crate) fn charge_anew(rules: &DeskRules, lists: &mut Lists)
    ensures state { state_of lists.new ≡ with_charges_anew rules.now (state_of lists.old) }
    ensures room { HasSameRoom lists.old lists.new }
{
    charge_holders(rules, lists.holders.as_mut_slice());
    charge_lingering(
        rules,
        lists.holders.as_slice(),
        lists.lingering.as_mut_slice(),
    );
}
