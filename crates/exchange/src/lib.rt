// The first placement and the next one, found by exchange: where all floaters stand is kept in hand, and a floater takes a position from
// another only where the others can move. No search through all placements is made. Each floater has a least position that it may take. The next placement is the
// least one in which a floater and the further copies of its bracket behind it all stand above where that floater stands now: in the least one, the copies of a bracket
// stand in ascending order without being asked to.
#![tactic(auto)]

ghost use Rattle.std.specs.Prelude.{◌≡◌, true, length, set, ◌+◌, ◌≤◌, ◌<◌};
ghost use Rattle.scope.specs.Limits.{copy_limit, row_limit, position_limit};
ghost use Rattle.areas.specs.Floats.{Sized};
ghost use Rattle.placement_laws.specs.Standing.{place, Full};
ghost use Rattle.exchange.specs.Order.{Tried, Sought, Lowered, Settled, Next, IsFirst};
ghost use Rattle.exchange.specs.Table.{may_in, may_from, mark_in, Owned, Open, Spare, Listed, Growing, Grew, Walkable, Shifted, Augmentable, Augmented, ReadyFrom, FirstOf, Lowest, Raised, Continuing};

use scope::answers::{Ledger, Placement};

// Where each floater stands.
#[derive(Clone, Copy, Debug, PartialEq, Eq)]
pub struct Standing {
    pub at: [usize; Placement::COPIES],
}

// The floaters that may have to move, in the order found: each but the first with the index of the one that wants its position.
// Of both arrays the first n entries count: nothing is allocated.
#[derive(Clone, Copy, Debug, PartialEq, Eq)]
struct Tree {
    n: usize,
    order: [usize; Placement::COPIES],
    parent: [usize; Placement::COPIES],
}

// The table of where floaters may stand, the least position that each may take, and how many there are.
#[derive(Clone, Copy)]
struct Search<'a> {
    tab: &'a [u8],
    lows: [usize; Placement::COPIES],
    k: usize,
}

// May floater s stand at x?
pub fn may(tab: &[u8], s: usize, x: usize) -> bool
    requires { (row_limit ≤ length tab.now) × (s < copy_limit) × (x < position_limit) }
    ensures { result ≡ may_in tab.now s x }
{
    tab[s * Ledger::POSITIONS + x] == 1
}

// The first floater other than `but` that stands at x.
fn owner(w: &Standing, k: usize, but: usize, x: usize) -> Option<usize>
    requires { k ≤ copy_limit }
    ensures { Owned w.now.at k but x result }
{
    for t in 0..k {
        if w.at[t] == x && t != but {
            return Some(t);
        }
    }
    None
}

// May s stand at x, and nobody but `but` does?
pub fn open_at(tab: &[u8], w: &Standing, k: usize, but: usize, s: usize, x: usize) -> bool
    requires { Sized tab.now k × (s < copy_limit) × (x < position_limit) }
    ensures { Open tab.now w.now.at k but s x result }
{
    may(tab, s, x) && owner(w, k, but, x).is_none()
}

impl Tree {
    // The tree with t, which stands where the h-th may.
    fn push(&mut self, h: usize, t: usize)
        requires { self.old.n < copy_limit }
        ensures { (self.new.n ≡ self.old.n + 1) × (self.new.order ≡ set self.old.order self.old.n t) × (self.new.parent ≡ set self.old.parent self.old.n h) }
    {
        let n = self.n;
        self.order[n] = t;
        self.parent[n] = h;
        self.n = n + 1;
    }

    // Is t in it?
    fn lists(&self, t: usize) -> bool
        requires { self.now.n ≤ copy_limit }
        ensures { Listed self.now.order self.now.n t result }
    {
        self.order[..self.n].contains(&t)
    }

    // The h-th takes x, the one that wanted its place takes that, and so on up to the first.
    fn shift(&self, p: &Standing, h: usize, x0: usize) -> Standing
        requires { Walkable self.now.n h self.now.order self.now.parent }
        ensures { Shifted p.now.at self.now.n self.now.order self.now.parent h x0 result.at }
    {
        let mut w = *p;
        let mut a = h;
        let mut x = x0;
        // a `while`: the way leads from each to its parent, no step of one
        while 0 < a {
            let s = self.order[a];
            let old = w.at[s];
            w.at[s] = x;
            x = old;
            a = self.parent[a];
        }
        let j = self.order[0];
        w.at[j] = x;
        w
    }
}

impl<'a> Search<'a> {
    // May floater s stand at x, no lower than its least position?
    fn may_from(&self, s: usize, x: usize) -> bool
        requires { (row_limit ≤ length self.now.tab.now) × (s < copy_limit) × (x < position_limit) }
        ensures { result ≡ may_from self.now.tab.now self.now.lows s x }
    {
        self.lows[s] <= x && may(self.tab, s, x)
    }

    // The first position of floater s, from its least on, at which nobody but `but` stands.
    fn spare(&self, w: &Standing, but: usize, s: usize) -> Option<usize>
        requires { Sized self.now.tab.now self.now.k × (s < copy_limit) }
        ensures { Spare self.now.tab.now self.now.lows w.now.at self.now.k but s result }
    {
        for x in self.lows[s]..Ledger::POSITIONS {
            if open_at(self.tab, w, self.k, but, s, x) {
                return Some(x);
            }
        }
        None
    }

    // Every floater from f on that is new to the tree and stands where the h-th may is added.
    fn grow(&self, w: &Standing, f: usize, h: usize, tree: &mut Tree)
        requires { Growing self.now.tab.now self.now.lows self.now.k f h w.now.at tree.old.n tree.old.order tree.old.parent }
        ensures { Grew self.now.tab.now self.now.lows self.now.k f h w.now.at f self.now.k tree.old.n tree.old.order tree.new.n tree.new.order tree.new.parent }
    {
        let s = tree.order[h];
        for t in f..self.k {
            if !tree.lists(t) && self.may_from(s, w.at[t]) {
                tree.push(h, t);
            }
        }
    }

    // All but floater j stand: can j be placed too, when those below f stay?
    fn augment(&self, f: usize, j: usize, w: &Standing) -> Option<Standing>
        requires { Augmentable self.now.tab.now self.now.lows self.now.k f j w.now.at }
        ensures { Augmented self.now.tab.now self.now.lows self.now.k f w.now.at result }
    {
        let mut tree = Tree {
            n: 1,
            order: [j; Placement::COPIES],
            parent: [0; Placement::COPIES],
        };
        let mut h = 0;
        // a `while`: the tree grows while it is walked
        while h < tree.n {
            if let Some(x) = self.spare(w, j, tree.order[h]) {
                return Some(tree.shift(w, h, x));
            }
            self.grow(w, f, h, &mut tree);
            h += 1;
        }
        None
    }

    // Floater i at y, where it may stand, those below i unmoved?
    fn placed(&self, i: usize, y: usize, p: &Standing) -> Option<Standing>
        requires { ReadyFrom self.now.tab.now self.now.lows self.now.k i p.now.at × (may_from self.now.tab.now self.now.lows i y ≡ true) }
        ensures { Tried (may_from self.now.tab.now self.now.lows) self.now.k i y (place p.now.at) result }
    {
        let mut w = *p;
        w.at[i] = y;
        match owner(p, self.k, i, y) {
            None => Some(w),
            Some(t) => {
                if t < i {
                    None
                } else {
                    self.augment(i + 1, t, &w)
                }
            }
        }
    }

    // The least y below `to` that floater i can take, those below i unmoved.
    fn seek(&self, i: usize, to: usize, w: &Standing) -> Option<Standing>
        requires { ReadyFrom self.now.tab.now self.now.lows self.now.k i w.now.at × (to ≤ position_limit) }
        ensures { Sought (may_from self.now.tab.now self.now.lows) self.now.k i to (place w.now.at) result }
    {
        for y in self.lows[i]..to {
            if may(self.tab, i, y) {
                if let Some(v) = self.placed(i, y, w) {
                    return Some(v);
                }
            }
        }
        None
    }

    // Floater i at its least, those below i unmoved.
    fn lowered(&self, i: usize, w: &Standing) -> Standing
        requires { ReadyFrom self.now.tab.now self.now.lows self.now.k i w.now.at }
        ensures { Lowered (may_from self.now.tab.now self.now.lows) self.now.k i (place w.now.at) (place result.at) }
    {
        match self.seek(i, w.at[i], w) {
            Some(v) => v,
            None => *w,
        }
    }

    // The least placement that agrees with w below `from`.
    fn settle(&self, from: usize, p: Standing) -> Standing
        requires { Sized self.now.tab.now self.now.k × (from ≤ self.now.k) × Full (may_from self.now.tab.now self.now.lows) self.now.k (place p.at) }
        ensures { Settled (may_from self.now.tab.now self.now.lows) self.now.k from (place p.at) (place result.at) }
    {
        let mut w = p;
        for i in from..self.k {
            w = self.lowered(i, &w);
        }
        w
    }
}

// The first position of floater s, or the number of positions.
fn first_of(tab: &[u8], s: usize) -> usize
    requires { (row_limit ≤ length tab.now) × (s < copy_limit) }
    ensures { FirstOf tab.now s result }
{
    for x in 0..Ledger::POSITIONS {
        if may(tab, s, x) {
            return x;
        }
    }
    Ledger::POSITIONS
}

// The first position of each floater.
fn lowest(tab: &[u8], k: usize) -> [usize; Placement::COPIES]
    requires { Sized tab.now k }
    ensures { Lowest tab.now k result }
{
    let mut lows = [0; Placement::COPIES];
    for s in 0..k {
        lows[s] = first_of(tab, s);
    }
    lows
}

// Is s a further copy of its bracket?
pub fn is_further(copy: [u8; Placement::COPIES], s: usize) -> bool
    requires { s < copy_limit }
    ensures { result ≡ mark_in copy s }
{
    1 < copy[s]
}

// The least positions with `low` for i and the further copies directly behind it.
fn raised(
    old: [usize; Placement::COPIES],
    copy: [u8; Placement::COPIES],
    k: usize,
    i: usize,
    low: usize,
) -> [usize; Placement::COPIES]
    requires { (i < k) × (k ≤ copy_limit) }
    ensures { Raised (mark_in copy) k i low old result }
{
    let mut lows = old;
    lows[i] = low;
    for s in i + 1..k {
        if !is_further(copy, s) {
            return lows;
        }
        lows[s] = low;
    }
    lows
}

// The least placement after w with the copies of each bracket in ascending order, as w has them.
pub fn next(tab: &[u8], copy: [u8; Placement::COPIES], k: usize, w: &Standing) -> Option<Standing>
    requires { Continuing tab.now copy k w.now.at }
    ensures { Next (may_in tab.now) (mark_in copy) k (place w.now.at) result }
{
    let lows = lowest(tab, k);
    for i in (0..k).rev() {
        let above = Search {
            tab,
            lows: raised(lows, copy, k, i, w.at[i] + 1),
            k,
        };
        if let Some(v) = above.augment(i, i, w) {
            return Some(above.settle(i, v));
        }
    }
    None
}

// The least placement of all.
pub fn first(tab: &[u8], k: usize) -> Option<Standing>
    requires { Sized tab.now k }
    ensures { IsFirst (may_in tab.now) k result }
{
    let lows = lowest(tab, k);
    let mut w = Standing {
        at: [0; Placement::COPIES],
    };
    for m in 0..k {
        let some = Search {
            tab,
            lows,
            k: m + 1,
        };
        w = some.augment(0, m, &w)?;
    }
    let all = Search { tab, lows, k };
    Some(all.settle(0, w))
}
