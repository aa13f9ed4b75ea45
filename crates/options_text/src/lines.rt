//! The rule lines of an options file, kept once for all that look at them.
ghost use Rattle.std.specs.Prelude.{◌≡◌, IfOk};

use lic_types::{NoMemory, RuleLine};
use std::alloc::Global;
use std::marker::Model;
use std::sync::Arc;

/// The rule lines of an options file, which a clause sees as their list. What it keeps is shared by those that `share`
/// makes, so those cost next to nothing.
#[derive(Drop)]
pub struct RuleLines {
    lines: Arc<Vec<RuleLine>, Global>,
}

impl Model for RuleLines {
    ghost use Rattle.std.specs.Arc.{arc_value};
    ghost use Rattle.std.specs.Prelude.{List};
    ghost use Rattle.lic_types.specs.declared.client.RuleLine.{RuleLine};

    ghost Value = { List RuleLine };

    ghost view = { λ r. (arc_value r.lines).items };
}

impl RuleLines {
    /// These lines, in their order. The one error is want of memory.
    pub fn of(alloc: Global, lines: Vec<RuleLine>) -> Result<RuleLines, NoMemory>
        ensures { IfOk result (λ made. made ≡ lines.items) }
    {
        Ok(RuleLines {
            lines: Arc::new(alloc, lines)?,
        })
    }

    /// A further owner of the same lines. The one error is want of memory, which comes only at more owners than a
    /// memory has room for.
    pub fn share(&self) -> Result<RuleLines, NoMemory>
        ensures { IfOk result (λ other. other ≡ self.now) }
    {
        Ok(RuleLines {
            lines: Arc::try_clone(&self.lines)?,
        })
    }

    /// The lines, in their order.
    pub fn as_slice(&self) -> &[RuleLine]
        ensures { result.now ≡ self.now }
    {
        self.lines.as_slice()
    }
}
