ghost use Rattle.std.specs.Prelude.{◌≡◌, ◌+◌, ◌<◌, ◌^◌, ◌++◌, OnOk};
ghost use Rattle.kex_net.specs.Trees.{falling, leading};

use kex_core::NoMemory;

/// Adds the capacities of so many stages, which fall by one and end with m.
pub(crate) fn push_falling(caps: &mut Vec<u32>, m: u32, count: u32) -> Result<(), NoMemory>
    requires { m + count < 2 ^ 32 }
    ensures { OnOk result (caps.new.items ≡ caps.old.items ++ falling m count) }
{
    for i in 0..count {
        caps.push(m + (count - 1 - i))?;
    }
    Ok(())
}

/// Adds the next stages of so many from `first` on, each the one behind it, and the last one's `up`.
pub(crate) fn push_leading(
    next: &mut Vec<u32>,
    first: u32,
    count: u32,
    up: u32,
) -> Result<(), NoMemory>
    requires { first + count < 2 ^ 32 }
    ensures { OnOk result (next.new.items ≡ next.old.items ++ leading first count up) }
{
    if count == 0 {
        return Ok(());
    }
    for stage in first + 1..first + count {
        next.push(stage)?;
    }
    next.push(up)?;
    Ok(())
}
