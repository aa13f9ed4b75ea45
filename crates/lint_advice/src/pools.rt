//! What is advised of the pools of a licence.
ghost use Rattle.std.specs.Prelude.{◌≡◌, ◌++◌, OnOk};
ghost use Rattle.std.specs.List.{filter_map};
ghost use Rattle.std.specs.Option.{option_to_list};
ghost use Rattle.lint_advice.specs.Pools.{expires_by, expiring, expiring_on};

use crate::advice::{Advice, Horizon};
use feature_lines::Pool;
use lic_types::{Day, Expiry, NoMemory};

/// Puts a piece of advice behind the others, if there is one.
pub fn put(advice: &mut Vec<Advice>, found: Option<Advice>) -> Result<(), NoMemory>
    ensures { OnOk result (advice.new.items ≡ advice.old.items ++ option_to_list found) }
{
    match found {
        None => Ok(()),
        Some(piece) => Ok(advice.push(piece)?),
    }
}

/// Whether a day isn't behind a horizon.
fn expires_by(horizon: Horizon, day: &Day) -> bool
    ensures { result ≡ expires_by horizon day.now }
{
    i64::from(day.number) <= i64::from(horizon.on.number) + i64::from(horizon.days)
}

/// Where an expiry of a pool is by a horizon.
fn expiring_on(horizon: Horizon, pool: &Pool, expiry: &Expiry) -> Option<Advice>
    ensures { result ≡ expiring_on horizon pool.now expiry.now }
{
    match expiry {
        Expiry::Never => None,
        Expiry::On(day) => {
            if expires_by(horizon, day) {
                Some(Advice::Expires {
                    line: pool.line,
                    name: pool.name,
                    day: *day,
                })
            } else {
                None
            }
        }
    }
}

/// Where a pool expires by a horizon.
fn expiring(horizon: Option<Horizon>, pool: &Pool) -> Option<Advice>
    ensures { result ≡ expiring horizon pool.now }
{
    expiring_on(horizon?, pool, &pool.expiry)
}

/// Puts what is advised of the pools behind the other advice.
pub fn advise_pools(
    advice: &mut Vec<Advice>,
    horizon: Option<Horizon>,
    pools: &[Pool],
) -> Result<(), NoMemory>
    ensures { OnOk result (advice.new.items ≡ advice.old.items ++ filter_map (expiring horizon) pools.now) }
{
    for pool in pools {
        put(advice, expiring(horizon, pool))?;
    }
    Ok(())
}
