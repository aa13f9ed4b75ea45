// A height-balanced search tree (after Adelson-Velsky and Landis, 1962) of deadlines, seen as their list and the tree's
// height. It takes no memory: what a new deadline needs is handed in, and handed back when one goes.
ghost use Rattle.std.specs.Prelude.{◌≡◌, ◌+◌, ◌^◌, ◌<◌, ◌≤◌, max, [], ◌∷◌, ◌++◌, length, find, filter, slice_get, not, IsSome, IfSome, IfNone};
ghost use Rattle.linger_clock.specs.Ranks.{comes_before, ties, IsRanked, ranked_in};
ghost use Rattle.linger_clock.specs.Tree.{content_of, IsEven, IsNearlyEven, RebalancesTo, DifferByAtMost};
ghost use Rattle.linger_clock.specs.declared.tree.Node.TheVariants.{Fork};

use crate::Deadline;
use crate::spare::Spare;
use std::marker::Model;
use std::mem;

/// By what a tree's deadlines are kept in order.
#[derive(Clone, Copy)]
pub enum Order {
    /// By the moment, and those of one moment by the owner.
    ByMoment,
    /// By the owner alone.
    ByOwner,
}

/// Whether `a` comes before `b` in the order.
pub fn comes_before(order: Order, a: Deadline, b: Deadline) -> bool
    ensures { result ≡ comes_before order a b }
{
    match order {
        Order::ByMoment => a.until < b.until || (a.until == b.until && a.owner < b.owner),
        Order::ByOwner => a.owner < b.owner,
    }
}

#[cycle(tree)]
#[derive(Drop)]
pub struct Tree {
    node: Node,
}

#[cycle(tree)]
#[derive(Drop)]
enum Node {
    Leaf,
    // Left, deadline, height, right.
    Fork(Box<Tree>, Deadline, u64, Box<Tree>),
}

impl Model for Tree {
    ghost use Rattle.std.specs.Prelude.{ℕ, List, length};
    ghost use Rattle.linger_clock.specs.declared.Deadline.{Deadline};

    ghost Value = { List Deadline × ℕ };

    ghost use Rattle.linger_clock.specs.Tree.{content_of, IsEven};

    ghost view = { λ t. content_of t.node };

    ghost invariant = { λ t. IsEven t.node };

    ghost size = { λ d. length d.0 };

    ghost use Rattle.std.proofs.Common.{arith, length-append};

    ghost size_decreases = { λ a h. Prim.grind (arith, length-append) };
}

impl Tree {
    pub fn new() -> Tree
        ensures empty { result ≡ ([], 0) }
    {
        Tree { node: Node::Leaf }
    }

    fn height(&self) -> u64
        ensures height { result ≡ self.now.1 }
        ensures low { self.now.1 ≤ length self.now.0 }
    {
        match self.node {
            Node::Leaf => 0,
            Node::Fork(_, _, h, _) => h,
        }
    }

    fn open(self) -> Node
        ensures same_view { content_of result ≡ self }
        ensures balanced { IsEven result }
    {
        self.node
    }

    fn close(node: Node) -> Tree
        requires { IsEven node }
        ensures same_view { result ≡ content_of node }
    {
        Tree { node }
    }

    /// The deadline that comes first.
    pub fn first(&self) -> Option<Deadline>
        ensures { result ≡ slice_get self.now.0 0 }
    {
        match &self.node {
            Node::Leaf => None,
            Node::Fork(l, d, _, _) => match l.first() {
                None => Some(*d),
                found => found,
            },
        }
    }

    /// The deadline that ties with this one.
    pub fn get(&self, order: Order, like: Deadline) -> Option<Deadline>
        requires { IsRanked order self.now.0 }
        ensures { result ≡ find (ties order like) self.now.0 }
    {
        match &self.node {
            Node::Leaf => None,
            Node::Fork(l, d, _, r) => {
                if comes_before(order, like, *d) {
                    l.get(order, like)
                } else if comes_before(order, *d, like) {
                    r.get(order, like)
                } else {
                    Some(*d)
                }
            }
        }
    }
}

fn fork(l: Box<Tree>, d: Deadline, r: Box<Tree>) -> Node
    requires { max l.value.1 r.value.1 + 1 < 2 ^ 64 }
    ensures same { result ≡ Fork l d (max l.value.1 r.value.1 + 1) r }
    ensures low { max l.value.1 r.value.1 + 1 ≤ length (l.value.0 ++ d ∷ r.value.0) }
{
    let h = l.height().max(r.height()) + 1;
    Node::Fork(l, d, h, r)
}

fn rebalance(node: &mut Node)
    requires { IsNearlyEven node.old }
    ensures { RebalancesTo node.old node.new }
{
    *node = match mem::replace(node, Node::Leaf) {
        Node::Leaf => Node::Leaf,
        Node::Fork(l, d, _, r) => {
            let (hl, hr) = (l.height(), r.height());
            if hl > hr + 1 {
                lean_left(l, d, r)
            } else if hr > hl + 1 {
                lean_right(l, d, r)
            } else {
                fork(l, d, r)
            }
        }
    };
}

fn lean_left(mut l: Box<Tree>, k: Deadline, z: Box<Tree>) -> Node
    requires two_higher { l.value.1 ≡ z.value.1 + 2 }
    requires height_fits { l.value.1 ≤ 2 ^ 32 }
    ensures even { IsEven result }
    ensures content { (content_of result).0 ≡ l.value.0 ++ k ∷ z.value.0 }
    ensures not_lower { l.value.1 ≤ (content_of result).1 }
    ensures at_most_one_higher { (content_of result).1 ≤ l.value.1 + 1 }
{
    let Node::Fork(x, j, _, mut y) = mem::replace(&mut *l, Tree::new()).open() else {
        unreachable!()
    };
    if x.height() >= y.height() {
        *l = Tree::close(fork(y, k, z));
        return fork(x, j, l);
    }
    let Node::Fork(u, i, _, v) = mem::replace(&mut *y, Tree::new()).open() else {
        unreachable!()
    };
    *y = Tree::close(fork(x, j, u));
    *l = Tree::close(fork(v, k, z));
    fork(y, i, l)
}

fn lean_right(a: Box<Tree>, k: Deadline, mut r: Box<Tree>) -> Node
    requires two_higher { r.value.1 ≡ a.value.1 + 2 }
    requires height_fits { r.value.1 ≤ 2 ^ 32 }
    ensures even { IsEven result }
    ensures content { (content_of result).0 ≡ a.value.0 ++ k ∷ r.value.0 }
    ensures not_lower { r.value.1 ≤ (content_of result).1 }
    ensures at_most_one_higher { (content_of result).1 ≤ r.value.1 + 1 }
{
    let Node::Fork(mut y, j, _, x) = mem::replace(&mut *r, Tree::new()).open() else {
        unreachable!()
    };
    if x.height() >= y.height() {
        *r = Tree::close(fork(a, k, y));
        return fork(r, j, x);
    }
    let Node::Fork(u, i, _, v) = mem::replace(&mut *y, Tree::new()).open() else {
        unreachable!()
    };
    *r = Tree::close(fork(a, k, u));
    *y = Tree::close(fork(v, j, x));
    fork(r, i, y)
}

/// A deadline that was taken out, with the memory that it had.
#[derive(Drop)]
pub struct Taken {
    pub deadline: Deadline,
    pub spare: Spare,
}

impl Tree {
    /// Puts a deadline that ties with none at its place.
    pub fn insert(&mut self, order: Order, deadline: Deadline, spare: Spare)
        requires ranked { IsRanked order self.old.0 }
        requires few { length self.old.0 < 2 ^ 32 }
        ensures content { self.new.0 ≡ ranked_in order deadline self.old.0 }
        ensures not_lower { self.old.1 ≤ self.new.1 }
        ensures at_most_one_higher { self.new.1 ≤ self.old.1 + 1 }
    {
        match &mut self.node {
            Node::Leaf => {
                let Spare { left, right } = spare;
                self.node = Node::Fork(left, deadline, 1, right);
                return;
            }
            Node::Fork(l, d, _, r) => {
                if comes_before(order, deadline, *d) {
                    l.insert(order, deadline, spare);
                } else {
                    r.insert(order, deadline, spare);
                }
            }
        }
        rebalance(&mut self.node);
    }

    /// Takes out the deadline that comes first, where there is one.
    fn take_first(&mut self) -> Option<Taken>
        requires few { length self.old.0 < 2 ^ 32 }
        ensures first { IfSome result (λ t. self.old.0 ≡ t.deadline ∷ self.new.0) }
        ensures none { IfNone result (self.old ≡ ([], 0)) }
        ensures empty { IfNone result (self.new ≡ ([], 0)) }
        ensures not_higher { self.new.1 ≤ self.old.1 }
        ensures at_most_one_lower { self.old.1 ≤ self.new.1 + 1 }
    {
        match mem::replace(&mut self.node, Node::Leaf) {
            Node::Leaf => None,
            Node::Fork(mut l, deadline, _, mut r) => match l.take_first() {
                Some(taken) => {
                    self.node = fork(l, deadline, r);
                    rebalance(&mut self.node);
                    Some(taken)
                }
                None => {
                    self.node = mem::replace(&mut *r, Tree::new()).open();
                    let spare = Spare { left: l, right: r };
                    Some(Taken { deadline, spare })
                }
            },
        }
    }

    /// Takes out the deadline that ties with this one, and gives its memory.
    pub fn remove(&mut self, order: Order, like: Deadline) -> Spare
        requires ranked { IsRanked order self.old.0 }
        requires few { length self.old.0 < 2 ^ 32 }
        requires there { IsSome (find (ties order like) self.old.0) }
        ensures content { self.new.0 ≡ filter (λ d. not (ties order like d)) self.old.0 }
        ensures not_higher { self.new.1 ≤ self.old.1 }
        ensures at_most_one_lower { self.old.1 ≤ self.new.1 + 1 }
    {
        match mem::replace(&mut self.node, Node::Leaf) {
            Node::Leaf => unreachable!(),
            Node::Fork(mut l, d, _, mut r) => {
                if comes_before(order, like, d) {
                    let spare = l.remove(order, like);
                    self.node = fork(l, d, r);
                    rebalance(&mut self.node);
                    return spare;
                }
                if comes_before(order, d, like) {
                    let spare = r.remove(order, like);
                    self.node = fork(l, d, r);
                    rebalance(&mut self.node);
                    return spare;
                }
                let (node, spare) = joined(l, r);
                self.node = node;
                spare
            }
        }
    }
}

/// The deadlines of both sides in one tree, and the memory of the deadline between them.
fn joined(mut l: Box<Tree>, mut r: Box<Tree>) -> (Node, Spare)
    requires close { DifferByAtMost 1 l.value.1 r.value.1 }
    requires few { length l.value.0 + length r.value.0 < 2 ^ 32 }
    requires low { max l.value.1 r.value.1 ≤ 2 ^ 32 }
    ensures even { IsEven result.0 }
    ensures content { (content_of result.0).0 ≡ l.value.0 ++ r.value.0 }
    ensures not_lower { max l.value.1 r.value.1 ≤ (content_of result.0).1 }
    ensures at_most_one_higher { (content_of result.0).1 ≤ max l.value.1 r.value.1 + 1 }
{
    match r.take_first() {
        None => {
            let node = mem::replace(&mut *l, Tree::new()).open();
            (node, Spare { left: l, right: r })
        }
        Some(Taken { deadline, spare }) => {
            let mut node = fork(l, deadline, r);
            rebalance(&mut node);
            (node, spare)
        }
    }
}
