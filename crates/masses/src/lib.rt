// Masses: a bracket's, the total, the ledger of a placement, and the display.
#![tactic(auto)]

ghost use Rattle.std.specs.Prelude.{◌≡◌, true, List, min, ◌+◌, ◌*◌, ◌-◌, ◌<◌, ◌≤◌, ◌^◌, eqb, ℤ, pos, nat_abs, ◌+ℤ◌, ◌*ℤ◌};
ghost use Rattle.scope.specs.declared.grammar.Key.TheVariants.{Obs};
ghost use Rattle.scope.specs.Limits.{residue_limit, part_limit, decimal_limit, count_limit, copy_limit, position_limit};
ghost use Rattle.scope.specs.Keys.{key_code};
ghost use Rattle.scope.specs.Modifications.{is_modification, copies};
ghost use Rattle.scope.specs.Tables.{millionths};
ghost use Rattle.scope.specs.Layout.{number_in, bracket_in, tables_in, decimals_field, key_field, mass_field, residues_field, value_field};
ghost use Rattle.scope.specs.Masses.{mass_of, mass_or0, times, ledger, daltons};
ghost use Rattle.areas.specs.Bounds.{Small, Bounds};
ghost use Rattle.brackets.specs.Row.{Row};
ghost use Rattle.masses.specs.Reach.{Reach, ReachPart};
ghost use Rattle.masses.specs.Weights.{weighs, weight_of};
ghost use Rattle.mass_laws.specs.Terms.{total_limit};
ghost use Rattle.masses.specs.Tallies.{CanTally, Tallied};
ghost use Rattle.masses.specs.Booking.{CanBook, booked, CanBookNamed, NamedBooked, CanPlace, BracketPlaced, PlacedBooked, CanPut, CanFloat, CopiesPut};

use areas::{Bytes, Numbers, count, first, residues};
use brackets::{
    Content, content_at, copies_of, is_declared, is_modification, is_placed, kind, names, parts,
    reached,
};
use scope::answers::{Ledger, Mass, Placement};
use scope::grammar::{Key, Kind};
use scope::tables::Number;

// There is no total: so many modifications have no stated mass.
#[derive(Clone, Copy, Debug, PartialEq, Eq)]
pub struct Lacking {
    pub count: usize,
}

// How many decimals a mass has at most.
const DECIMALS: usize = Number::DECIMALS as usize;

// The sum so far, and how many modifications had no stated mass.
#[derive(Clone, Copy, Debug, PartialEq, Eq)]
struct Tally {
    sum: i64,
    lacks: usize,
}

// So many millionths, to so many decimals. In tables of a line these are all that the number has.
fn to_decimals(m: i64, decimals: usize) -> i64
    requires { (Small m) × (decimals ≤ decimal_limit) }
    ensures { result ≡ millionths (number_in m decimals) }
{
    let u = tens::power(DECIMALS - decimals) as i64;
    m / u * u
}

// The mass of part j of bracket k.
fn part_mass(bytes: &Bytes, numbers: &Numbers, k: usize, j: usize) -> i64
    requires { ReachPart bytes.now numbers.now k j }
    ensures { result ≡ millionths (number_in (mass_field numbers.now k j) (decimals_field bytes.now k j)) }
{
    to_decimals(areas::mass(numbers, k, j), areas::decimals(bytes, k, j))
}

// Whether part j of bracket k has a mass: it is one, or a composition.
fn has_mass(bytes: &Bytes, k: usize, j: usize) -> bool
    requires { (Row bytes.now k) × (j < part_limit) }
    ensures { result ≡ weighs (value_field bytes.now k j) }
{
    matches!(
        content_at(bytes, k, j),
        Content::Mass | Content::Composition
    )
}

// Whether it stands behind `Obs`.
fn is_measured(bytes: &Bytes, k: usize, j: usize) -> bool
    requires { (Row bytes.now k) × (j < part_limit) }
    ensures { result ≡ eqb (key_field bytes.now k j) (key_code Obs) }
{
    areas::key(bytes, k, j) == Key::Obs as usize
}

// "its first mass without `Obs`, else its first `Obs` mass, else none": stated, only measured, or none.
pub fn bracket_mass(bytes: &Bytes, numbers: &Numbers, k: usize) -> Mass
    requires { Reach bytes.now numbers.now k }
    ensures { result ≡ mass_of (bracket_in bytes.now numbers.now k) }
{
    let n = parts(bytes, k);
    let mut measured = None;
    for j in 0..n {
        if has_mass(bytes, k, j) {
            if !is_measured(bytes, k, j) {
                return Mass::Stated(part_mass(bytes, numbers, k, j));
            }
            measured = measured.or(Some(j));
        }
    }
    match measured {
        Some(j) => Mass::Measured(part_mass(bytes, numbers, k, j)),
        None => Mass::None,
    }
}

// What it adds to a sum: a stated mass, and nothing else.
fn mass_or_0(bytes: &Bytes, numbers: &Numbers, k: usize) -> i64
    requires { Reach bytes.now numbers.now k }
    ensures { result ≡ mass_or0 (bracket_in bytes.now numbers.now k) }
{
    let mass = bracket_mass(bytes, numbers, k);
    match mass {
        Mass::Stated(m) => m,
        Mass::Measured(_) | Mass::None => 0,
    }
}

// A sum that fits.
fn add(a: i64, b: i64) -> i64
    requires { nat_abs a + nat_abs b < 2 ^ 63 }
    ensures { result ≡ a +ℤ b }
{
    a + b
}

// A mass taken so many times.
fn times(n: usize, m: i64) -> i64
    requires { (n ≤ position_limit) × (Small m) }
    ensures { result ≡ pos n *ℤ m }
{
    n as i64 * m
}

// How often bracket k counts, if it is a modification: a declared one once for each position that it reaches.
fn counts(bytes: &Bytes, k: usize) -> usize
    requires { (Row bytes.now k) × (residues_field bytes.now ≤ residue_limit) }
    ensures { ((ns : List ℤ) → is_modification (bracket_in bytes.now ns k) ≡ true → result ≡ times (tables_in bytes.now ns) (bracket_in bytes.now ns k)) × (result ≤ position_limit) }
{
    if kind(bytes, k) == Kind::Declared {
        reached(bytes, k)
    } else {
        count(bytes, k)
    }
}

// The tally with bracket k.
fn tally_with(bytes: &Bytes, numbers: &Numbers, k: usize, t: Tally) -> Tally
    requires { CanTally bytes.now numbers.now k t.sum t.lacks }
    ensures { Tallied (tables_in bytes.now numbers.now) (bracket_in bytes.now numbers.now k) t.sum t.lacks result.sum result.lacks }
{
    if !is_modification(bytes, k) {
        return t;
    }
    let n = counts(bytes, k);
    match bracket_mass(bytes, numbers, k) {
        Mass::Stated(m) => Tally {
            sum: add(t.sum, times(n, m)),
            ..t
        },
        Mass::Measured(_) | Mass::None => Tally {
            lacks: t.lacks + n,
            ..t
        },
    }
}

// The total of the tables, or how many modifications have no stated mass.
pub fn weigh(bytes: &Bytes, numbers: &Numbers) -> Result<i64, Lacking>
    requires { Bounds bytes.now numbers.now }
    ensures { result ≡ weight_of (tables_in bytes.now numbers.now) }
{
    let n = areas::brackets(bytes);
    let mut t = Tally { sum: 0, lacks: 0 };
    for k in 0..n {
        t = tally_with(bytes, numbers, k, t);
    }
    if t.lacks == 0 {
        Ok(t.sum)
    } else {
        Err(Lacking { count: t.lacks })
    }
}

// "the whole number becomes a double with nothing lost and is divided once by 1,000,000"
pub fn as_daltons(total: i64) -> f64
    requires { nat_abs total < total_limit }
    ensures { result ≡ daltons total }
{
    (total as f64) / 1000000.0
}

// A mass is booked at a position, if the ledger has it.
fn book(l: &mut [i64; Ledger::POSITIONS], position: u16, m: i64)
    requires { CanBook l.old position m }
    ensures { l.new ≡ booked l.old position m }
{
    let x = position as usize;
    if x < Ledger::POSITIONS {
        l[x] = add(l[x], m);
    }
}

// A mass is booked at every position that a place of bracket k names.
fn book_named(bytes: &Bytes, k: usize, l: &mut [i64; Ledger::POSITIONS], m: i64)
    requires { CanBookNamed bytes.now k l.old m }
    ensures { NamedBooked bytes.now k l.old l.new m }
{
    let end = residues(bytes) + 2;
    for x in 0..end {
        if names(bytes, k, x) {
            book(l, x as u16, m);
        }
    }
}

// What bracket k adds to the ledger where it is placed: a declared modification its mass at each position that it reaches, any other at its own.
fn book_placed(bytes: &Bytes, numbers: &Numbers, k: usize, l: &mut [i64; Ledger::POSITIONS])
    requires { CanPlace bytes.now numbers.now k l.old }
    ensures { BracketPlaced bytes.now numbers.now k l.old l.new }
{
    if is_declared(bytes, k) {
        let m = mass_or_0(bytes, numbers, k);
        book_named(bytes, k, l, m);
    } else if is_placed(bytes, k) {
        let m = mass_or_0(bytes, numbers, k);
        let x = first(bytes, k);
        book(l, x as u16, m);
    }
}

// The ledger with the placed modifications.
fn placed_ledger(bytes: &Bytes, numbers: &Numbers) -> Ledger
    requires { Bounds bytes.now numbers.now }
    ensures { PlacedBooked bytes.now numbers.now result.at }
{
    let mut l = Ledger {
        at: [0; Ledger::POSITIONS],
    };
    let n = areas::brackets(bytes);
    for k in 0..n {
        book_placed(bytes, numbers, k, &mut l.at);
    }
    l
}

// c copies of a mass, at the placement's positions from i on. How many copies are booked then.
fn book_copies(
    l: &mut [i64; Ledger::POSITIONS],
    at: [u16; Placement::COPIES],
    i: usize,
    c: usize,
    m: i64,
) -> usize
    requires { CanPut l.old i c m }
    ensures { CopiesPut l.old l.new at i c m result }
{
    let end = (i + c).min(Placement::COPIES);
    for j in i..end {
        book(l, at[j], m);
    }
    end
}

// The floating copies of bracket k.
fn book_bracket(
    bytes: &Bytes,
    numbers: &Numbers,
    k: usize,
    l: &mut [i64; Ledger::POSITIONS],
    at: [u16; Placement::COPIES],
    i: usize,
) -> usize
    requires { CanFloat bytes.now numbers.now k l.old i }
    ensures { CopiesPut l.old l.new at i (copies (bracket_in bytes.now numbers.now k)) (mass_or0 (bracket_in bytes.now numbers.now k)) result }
{
    let c = copies_of(bytes, k);
    if c == 0 {
        return i;
    }
    let m = mass_or_0(bytes, numbers, k);
    book_copies(l, at, i, c, m)
}

// The ledger of a placement.
pub fn ledger_of(bytes: &Bytes, numbers: &Numbers, p: Placement) -> Ledger
    requires { Bounds bytes.now numbers.now }
    ensures { result.at ≡ ledger (tables_in bytes.now numbers.now) p.at }
{
    let mut l = placed_ledger(bytes, numbers);
    let n = areas::brackets(bytes);
    let mut i: usize = 0;
    for k in 0..n {
        i = book_bracket(bytes, numbers, k, &mut l.at, p.at, i);
    }
    l
}
