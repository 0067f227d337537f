// Groups of cells in lent slices: the Rust's `UnionFind`. A place's parent leads to its group's root.
#![tactic(auto)]

ghost use Rattle.std.specs.Prelude.{◌≡◌, ℕ, ◌+◌, ◌<◌, ◌≤◌, ◌^◌};
ghost use Rattle.scope.specs.UnionFind.{root_of};
ghost use Rattle.scope.proofs.Halving.{Forest};
ghost use Rattle.union_find.specs.Asked.{Found, HangAsks, Hung, UnionAsks, Joined, AddAsks, Added};

use slices::{get32, put32};

// A new place `n`, a group of its own.
pub fn add(parent: &mut [u32], rank: &mut [u32], n: usize)
    requires { AddAsks parent.old rank.old n }
    ensures { Added parent.old rank.old n parent.new rank.new }
{
    put32(parent, n, n);
    put32(rank, n, 0);
}

// The root of `a`. Each turn sets the parent of the place it stands at to its parent's parent.
// `rank` and `n` serve the proof alone: ranks rise along parents, so the walk ends.
pub fn find(parent: &mut [u32], rank: &[u32], n: usize, a: usize) -> usize
    requires { Forest parent.old rank.now n × (a < n) }
    ensures { Found parent.old rank.now n a result parent.new }
{
    let mut x = a;
    while get32(parent, x) != x {
        let p = get32(parent, x);
        let g = get32(parent, p);
        put32(parent, x, g);
        x = get32(parent, x);
    }
    x
}

// The root `low` goes under the root `top`, whose rank `k` grows.
fn hang(parent: &mut [u32], rank: &mut [u32], low: usize, top: usize, k: usize)
    requires { HangAsks parent.old rank.old low top k }
    ensures { Hung parent.old rank.old low top parent.new rank.new }
{
    put32(parent, low, top);
    put32(rank, top, k + 1);
}

// Unites the groups of `a` and `b`: the root of the lower rank goes under the other, at equal
// ranks `b`'s under `a`'s. The rank grows at every union, as in the Rust.
pub fn union(parent: &mut [u32], rank: &mut [u32], n: usize, a: usize, b: usize)
    requires { UnionAsks parent.old rank.old n a b }
    ensures { Joined parent.old rank.old n a b parent.new rank.new }
{
    let root_a = find(parent, rank, n, a);
    let root_b = find(parent, rank, n, b);
    if root_a == root_b {
        return;
    }
    let rank_a = get32(rank, root_a);
    let rank_b = get32(rank, root_b);
    if rank_a < rank_b {
        hang(parent, rank, root_a, root_b, rank_b);
    } else {
        hang(parent, rank, root_b, root_a, rank_a);
    }
}

// The root of `a`, with nothing written: what `find` would answer.
pub fn root(parent: &[u32], rank: &[u32], n: usize, a: usize) -> usize
    requires { Forest parent.now rank.now n × (a < n) }
    ensures { (result ≡ root_of parent.now a) × (result < n) }
{
    let mut x = a;
    let mut p = get32(parent, x);
    while p != x {
        x = p;
        p = get32(parent, x);
    }
    x
}
