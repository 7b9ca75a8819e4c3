// Whether the numbers in lent areas keep to the bounds of tables. The areas may hold anything.
#![tactic(auto)]

ghost use Rattle.std.specs.Prelude.{◌≡◌, ◌++◌, ◌<◌, ◌≤◌, length, take, drop};
ghost use Rattle.scope.specs.Limits.{bracket_limit, part_limit};
ghost use Rattle.scope.specs.Layout.{bytes_size, numbers_size, parts_field};
ghost use Rattle.areas.specs.Bounds.{Small, PartBounds, BracketBounds, Bounds};
ghost use Rattle.bounds.specs.Verdict.{Verdict};
ghost use Rattle.bounds.specs.Pieces.{Room, RowRoom, PlaceBounds, HeadBounds, PartsBounds, BracketsBounds};

use areas::{Bytes, Numbers};
use scope::tables::{Number, Tables};

// What a mass or score stays below in size, in millionths.
const CAP: u64 = Number::SIZE * tens::MILLION;

// How many decimals it has at most.
const DECIMALS: usize = Number::DECIMALS as usize;

// Is a mass or score below 1,000,000 in size?
fn is_small(m: i64) -> bool
    ensures { Verdict result (Small m) }
{
    m.unsigned_abs() < CAP
}

// Does part j of bracket k keep to its bounds?
fn part_in_bounds(bytes: &Bytes, numbers: &Numbers, k: usize, j: usize) -> bool
    requires { RowRoom bytes.now numbers.now k × (j < part_limit) }
    ensures { Verdict result (PartBounds bytes.now numbers.now k j) }
{
    let text = areas::text_length(bytes, k, j);
    let label = areas::label_length(bytes, k, j);
    areas::decimals(bytes, k, j) <= DECIMALS
        && text <= Tables::TEXT
        && label <= Tables::LABEL
        && areas::offset(bytes, k, j) + text + label <= Tables::LINE
        && is_small(areas::mass(numbers, k, j))
}

// Do the positions of bracket k?
fn place_in_bounds(bytes: &Bytes, k: usize) -> bool
    requires { k < bracket_limit }
    ensures { Verdict result (PlaceBounds bytes.now k) }
{
    let end = areas::residues(bytes) + 1;
    areas::first(bytes, k) <= end && areas::last(bytes, k) <= end
}

// Do its count, its numbers of parts and places, and its score?
fn head_in_bounds(bytes: &Bytes, numbers: &Numbers, k: usize) -> bool
    requires { RowRoom bytes.now numbers.now k }
    ensures { Verdict result (HeadBounds bytes.now numbers.now k) }
{
    let count = areas::count(bytes, k);
    count != 0
        && count <= Tables::COUNT
        && areas::parts(bytes, k) <= Tables::PARTS
        && areas::places(bytes, k) <= Tables::PLACES
        && areas::score(bytes, k) <= DECIMALS + 1
        && is_small(areas::score_number(numbers, k))
}

// Do its parts, of which there are at most as many as a row holds?
fn parts_in_bounds(bytes: &Bytes, numbers: &Numbers, k: usize) -> bool
    requires { RowRoom bytes.now numbers.now k × (parts_field bytes.now k ≤ part_limit) }
    ensures { Verdict result (PartsBounds bytes.now numbers.now k) }
{
    for j in 0..areas::parts(bytes, k) {
        if !part_in_bounds(bytes, numbers, k, j) {
            return false;
        }
    }
    true
}

// Does bracket k?
fn bracket_in_bounds(bytes: &Bytes, numbers: &Numbers, k: usize) -> bool
    requires { RowRoom bytes.now numbers.now k }
    ensures { Verdict result (BracketBounds bytes.now numbers.now k) }
{
    place_in_bounds(bytes, k)
        && head_in_bounds(bytes, numbers, k)
        && parts_in_bounds(bytes, numbers, k)
}

// Do the first n brackets, of which there are at most as many as the areas have rows for?
fn brackets_in_bounds(bytes: &Bytes, numbers: &Numbers, n: usize) -> bool
    requires { Room bytes.now numbers.now × (n ≤ bracket_limit) }
    ensures { Verdict result (BracketsBounds bytes.now numbers.now n) }
{
    for k in 0..n {
        if !bracket_in_bounds(bytes, numbers, k) {
            return false;
        }
    }
    true
}

// Do the numbers in the areas keep to the bounds of tables?
pub fn in_bounds(bytes: &Bytes, numbers: &Numbers) -> bool
    ensures { Verdict result (Bounds bytes.now numbers.now) }
{
    let n = areas::residues(bytes);
    let m = areas::brackets(bytes);
    n != 0
        && n <= Tables::RESIDUES
        && m <= Tables::BRACKETS
        && brackets_in_bounds(bytes, numbers, m)
}

// The first n bytes of one area into another, whose other bytes stay.
pub fn copy_bytes(from: &[u8], n: usize, to: &mut [u8])
    requires { (n ≤ length from.now) × (n ≤ length to.old) }
    ensures { to.new ≡ take n from.now ++ drop n to.old }
{
    copies::copy(&from[..n], &mut to[..n]);
}
