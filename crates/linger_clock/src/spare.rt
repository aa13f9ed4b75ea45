ghost use Rattle.std.specs.Prelude.{◌≡◌, ◌≤◌, [], IfOk, vec_len, vec_capacity};

use crate::NoMemory;
use crate::tree::Tree;
use std::alloc::Global;

/// The memory of one deadline in a tree: the two sides of its node.
#[derive(Drop)]
pub struct Spare {
    pub left: Box<Tree>,
    pub right: Box<Tree>,
    ghost left_empty: { left.value ≡ ([], 0) },
    ghost right_empty: { right.value ≡ ([], 0) },
}

impl Spare {
    fn make(alloc: Global) -> Result<Spare, NoMemory> {
        Ok(Spare {
            left: Box::new(alloc, Tree::new())?,
            right: Box::new(alloc, Tree::new())?,
        })
    }
}

/// The memory of this many deadlines.
pub fn spares(alloc: Global, count: usize) -> Result<Vec<Spare>, NoMemory>
    ensures len { IfOk result (λ spares. vec_len spares ≡ count) }
    ensures capacity { IfOk result (λ spares. count ≤ vec_capacity spares) }
{
    let mut spares = Vec::with_capacity(alloc, count)?;
    for _ in 0..count {
        spares.push_reserved(Spare::make(alloc)?);
    }
    Ok(spares)
}
