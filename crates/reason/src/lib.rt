// Why there is no placement: the smallest set of floaters with fewer positions than members, among equals the first by floater order. Where all can stand there is no
// such set (Hall). Else floater by floater the set is tried with it and without it, and left where no set that can still come of it has too few positions and is smaller than the best one found.
#![tactic(auto)]

ghost use Rattle.std.specs.Prelude.{◌≡◌, length, ◌≤◌, ◌<◌};
ghost use Rattle.scope.specs.Limits.{copy_limit, row_limit, position_limit};
ghost use Rattle.areas.specs.Floats.{Sized};
ghost use Rattle.placement_laws.specs.Counts.{count};
ghost use Rattle.exchange.specs.Table.{may_in};
ghost use Rattle.reason.specs.Smallest.{marked_in, Told};
ghost use Rattle.reason.specs.Hunt.{Joined, Hunting, Hunted};
ghost use Rattle.reason.specs.Named.{numbers_of, Named, Competing};

use scope::answers::{Ledger, Placement, Why};

// A set of floaters: how many, and which. The number is kept, so that no step of the search counts anew.
#[derive(Clone, Copy, Debug, PartialEq, Eq)]
pub struct Set {
    pub n: usize,
    pub marks: [bool; Placement::COPIES],
}

// The positions of a set: how many, and which. The number is kept here too.
#[derive(Clone, Copy, Debug, PartialEq, Eq)]
struct Cover {
    n: usize,
    at: [bool; Ledger::POSITIONS],
}

// The positions of c and of floater i.
fn join(tab: &[u8], i: usize, c: &Cover) -> Cover
    requires { (row_limit ≤ length tab.now) × (i < copy_limit) × (c.now.n ≡ count position_limit (marked_in c.now.at)) }
    ensures { Joined tab.now i c.now.at result.n result.at }
{
    let mut d = *c;
    for x in 0..Ledger::POSITIONS {
        if !d.at[x] && exchange::may(tab, i, x) {
            d.at[x] = true;
            d.n += 1;
        }
    }
    d
}

// The best of `best` and the sets that have the first i floaters as m has them; their positions are c.
fn hunt(tab: &[u8], k: usize, i: usize, m: Set, c: &Cover, best: Set) -> Set
    requires { Hunting tab.now k i m.n m.marks c.now.n c.now.at }
    ensures { Hunted (may_in tab.now) k i (marked_in m.marks) best.n best.marks result.n result.marks }
{
    // with these positions or more, a set has too few only if it has c.n + 1 floaters or more
    if best.n <= c.n + 1 {
        return best;
    }
    // and it has no more than those that are in it and those that are not decided
    if m.n + (k - i) <= c.n {
        return best;
    }
    if i < k {
        let mut on = m;
        on.marks[i] = true;
        on.n = m.n + 1;
        let d = join(tab, i, c);
        let b = hunt(tab, k, i + 1, on, &d, best);
        let mut off = m;
        off.marks[i] = false;
        return hunt(tab, k, i + 1, off, c, b);
    }
    if m.n < best.n { m } else { best }
}

// The smallest set of the k floaters that has too few positions.
pub fn smallest(tab: &[u8], k: usize) -> Option<Set>
    requires { Sized tab.now k }
    ensures { Told (may_in tab.now) k result }
{
    let none = Set {
        n: 0,
        marks: [false; Placement::COPIES],
    };
    let c = Cover {
        n: 0,
        at: [false; Ledger::POSITIONS],
    };
    // any set that has too few positions is smaller than this one
    let best = Set { n: k + 1, ..none };
    let s = hunt(tab, k, 0, none, &c, best);
    if s.n <= k { Some(s) } else { None }
}

// Those of the first k floaters that are in the set, by their numbers, from 1, ascending; unused entries 0.
fn members(s: Set, k: usize) -> Why
    requires { k ≤ copy_limit }
    ensures { Named (numbers_of (marked_in s.marks) k) result.count result.at }
{
    let mut m = Why {
        count: 0,
        at: [0; Placement::COPIES],
    };
    for i in 0..k {
        if s.marks[i] {
            m.at[m.count] = (i + 1) as u8;
            m.count += 1;
        }
    }
    m
}

// The smallest set of the k floaters that has too few positions, by their numbers; none where all of them can stand, which is found without trying sets.
pub fn competing(tab: &[u8], k: usize) -> Why
    requires { Sized tab.now k }
    ensures { Competing tab.now k result.count result.at }
{
    let all = exchange::first(tab, k);
    if all.is_none() {
        if let Some(s) = smallest(tab, k) {
            return members(s, k);
        }
    }
    Why {
        count: 0,
        at: [0; Placement::COPIES],
    }
}
