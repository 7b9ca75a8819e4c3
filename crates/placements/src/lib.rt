// Whether a placement is allowed, and the listing that hands them out one by one. Where the floaters stand is found by crate exchange.
#![tactic(auto)]

ghost use Rattle.std.specs.Prelude.{◌≡◌, true, false, ◌<◌, ◌≤◌};
ghost use Rattle.scope.specs.Limits.{copy_limit};
ghost use Rattle.scope.specs.Placements.{allowed, fresh_mark, no_mark};
ghost use Rattle.scope.specs.Answers.{moved, requested};
ghost use Rattle.areas.specs.Floats.{floating_in, Sized};
ghost use Rattle.placement_laws.specs.Terms.{Orderly};
ghost use Rattle.placements.specs.Steps.{Unused, Alone, Stand, Descends, InOrder, ArePositions, entries, Moves, Begins};

use exchange::Standing;
use scope::answers::{Ledger, Listing, Placement};
use scope::refusals::{Reason, Refusal};

// The entries, as whole numbers.
fn widened(p: [u16; Placement::COPIES]) -> Standing
    ensures { result.at ≡ p }
{
    Standing {
        at: p.map(usize::from),
    }
}

// The first k entries, and zeros.
fn narrowed(k: usize, w: &Standing) -> [u16; Placement::COPIES]
    requires { (k ≤ copy_limit) × ArePositions k w.now.at }
    ensures { result ≡ entries k w.now.at }
{
    let mut p = [0; Placement::COPIES];
    for s in 0..k {
        p[s] = w.at[s] as u16;
    }
    p
}

// Are all entries from k on zero?
fn unused(p: [u16; Placement::COPIES], k: usize) -> bool
    ensures { Unused k p result }
{
    for s in k..Placement::COPIES {
        if p[s] != 0 {
            return false;
        }
    }
    true
}

// Does s stand where it may, alone?
fn alone(tab: &[u8], k: usize, w: &Standing, s: usize) -> bool
    requires { Sized tab.now k × (s < k) }
    ensures { Alone tab.now k w.now.at s result }
{
    let x = w.at[s];
    x < Ledger::POSITIONS && exchange::open_at(tab, w, k, s, s, x)
}

// Do all of them?
fn stand(tab: &[u8], k: usize, w: &Standing) -> bool
    requires { Sized tab.now k }
    ensures { Stand tab.now k w.now.at result }
{
    for s in 0..k {
        if !alone(tab, k, w, s) {
            return false;
        }
    }
    true
}

// Is s a further copy, and not above the copy before it?
fn descends(copy: [u8; Placement::COPIES], w: &Standing, s: usize) -> bool
    requires { (0 < s) × (s < copy_limit) }
    ensures { Descends copy w.now.at s result }
{
    exchange::is_further(copy, s) && w.at[s] <= w.at[s - 1]
}

// Do the copies of each bracket stand in ascending order?
fn in_order(copy: [u8; Placement::COPIES], k: usize, w: &Standing) -> bool
    requires { k ≤ copy_limit }
    ensures { InOrder copy k w.now.at result }
{
    for s in 1..k {
        if descends(copy, w, s) {
            return false;
        }
    }
    true
}

// Is it an allowed placement of k floaters, each where the table says?
pub fn is_allowed(tab: &[u8], copy: [u8; Placement::COPIES], k: usize, p: Placement) -> bool
    requires { Sized tab.now k }
    ensures { result ≡ allowed (floating_in tab.now copy k) p.at }
{
    if unused(p.at, k) {
        let w = widened(p.at);
        if in_order(copy, k, &w) {
            return stand(tab, k, &w);
        }
    }
    false
}

// The listing moved on to where they stand.
fn moved(k: usize, w: &Standing) -> Listing
    requires { (k ≤ copy_limit) × ArePositions k w.now.at }
    ensures { result ≡ moved (entries k w.now.at) }
{
    Listing {
        at: narrowed(k, w),
        mark: Listing::UNMARKED,
    }
}

// There is no placement, or no further one.
const NOT_FOUND: Refusal = Refusal {
    reason: Reason::NotFound,
    place: 0,
};

// What the listing holds is no allowed placement, or its mark is none of the two.
const NOT_ALLOWED: Refusal = Refusal {
    reason: Reason::NotAllowed,
    place: 0,
};

// A request to a listing marked fresh, whichever copies there are: the least placement of all has them in order.
fn begun(tab: &[u8], k: usize, l: Listing) -> Result<Listing, Refusal>
    requires { Sized tab.now k × (l.mark ≡ fresh_mark) }
    ensures { Begins tab.now k l result }
{
    if !unused(l.at, 0) {
        return Err(NOT_ALLOWED);
    }
    let Some(least) = exchange::first(tab, k) else {
        return Err(NOT_FOUND);
    };
    Ok(moved(k, &least))
}

// A request to an unmarked one.
fn continued(
    tab: &[u8],
    copy: [u8; Placement::COPIES],
    k: usize,
    l: Listing,
) -> Result<Listing, Refusal>
    requires { Sized tab.now k × Orderly (floating_in tab.now copy k) × (l.mark ≡ no_mark) }
    ensures { Moves (requested (floating_in tab.now copy k) l) result }
{
    let at = l.at;
    if !is_allowed(tab, copy, k, Placement { at }) {
        return Err(NOT_ALLOWED);
    }
    let w = widened(at);
    let Some(further) = exchange::next(tab, copy, k, &w) else {
        return Err(NOT_FOUND);
    };
    Ok(moved(k, &further))
}

// "a small record that each request moves on": the listing after it; any mark but the two gets 18
pub fn request(
    tab: &[u8],
    copy: [u8; Placement::COPIES],
    k: usize,
    l: Listing,
) -> Result<Listing, Refusal>
    requires { Sized tab.now k × Orderly (floating_in tab.now copy k) }
    ensures { Moves (requested (floating_in tab.now copy k) l) result }
{
    if l.mark == Listing::FRESH {
        begun(tab, k, l)
    } else if l.mark == Listing::UNMARKED {
        continued(tab, copy, k, l)
    } else {
        Err(NOT_ALLOWED)
    }
}
