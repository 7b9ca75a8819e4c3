// The brackets, read from their rows. Each answer is the definition's, of the bracket in the areas, whatever the masses and scores are.
#![tactic(auto)]

ghost use Rattle.std.specs.Prelude.{◌≡◌, ◌&&◌, List, map, ◌<◌, ◌≤◌, ℤ, length, get_or};
ghost use Rattle.scope.specs.Bytes.{byte_limit};
ghost use Rattle.scope.specs.Limits.{residue_limit, part_limit, position_limit};
ghost use Rattle.scope.specs.Lists.{member};
ghost use Rattle.scope.specs.Layout.{bracket_in, tables_in, parts_field, residues_field, value_field};
ghost use Rattle.scope.specs.Kinds.{kind_in, is_declared, on_one_position};
ghost use Rattle.scope.specs.Modifications.{only_info, is_referring, is_modification, is_labelled, unlabelled_copies, copies};
ghost use Rattle.scope.specs.Positions.{sites, names, reached, is_placed};
ghost use Rattle.brackets.specs.Row.{Row, Position};
ghost use Rattle.brackets.specs.Content.{content_in};
ghost use Rattle.brackets.specs.Reached.{ReachedPut};

use areas::Bytes;
use scope::grammar::{Key, Kind};
use scope::tables::Tables;

// What a part has as its value; the number in the tables is that of the variant.
#[derive(Clone, Copy, Debug, PartialEq, Eq)]
pub enum Content {
    Mass = 1,
    Text,
    Reference,
    Composition,
}

// How many parts there are.
pub fn parts(bytes: &Bytes, k: usize) -> usize
    requires { Row bytes.now k }
    ensures { (result ≡ parts_field bytes.now k) × (result ≤ part_limit) }
{
    areas::parts(bytes, k)
}

// The count.
#[tactic(auto, unfolding(scope::specs::Layout::bracket_in))]
pub fn count(bytes: &[u8], k: usize) -> usize
    requires { Row bytes.now k }
    ensures { ((ns : List ℤ) → result ≡ (bracket_in bytes.now ns k).count) × (result < byte_limit) }
{
    areas::count(bytes, k)
}

// The kind of a code; every other code is of unknown position. A byte of a lent area may be any, so this is no `TryFrom`.
fn kind_of(code: usize) -> Kind
    ensures { result ≡ kind_in code }
{
    match code {
        2 => Kind::Labile,
        3 => Kind::NTerm,
        4 => Kind::OnResidue,
        5 => Kind::OnRange,
        6 => Kind::CTerm,
        7 => Kind::Declared,
        _ => Kind::Unknown,
    }
}

// The kind.
#[tactic(auto, unfolding(scope::specs::Layout::bracket_in))]
pub fn kind(bytes: &Bytes, k: usize) -> Kind
    requires { Row bytes.now k }
    ensures { (ns : List ℤ) → result ≡ (bracket_in bytes.now ns k).kind }
{
    kind_of(areas::kind(bytes, k))
}

// What a code of values says; every other code is a reference.
fn content_of(code: usize) -> Content
    ensures { result ≡ content_in code }
{
    match code {
        1 => Content::Mass,
        2 => Content::Text,
        4 => Content::Composition,
        _ => Content::Reference,
    }
}

// What part j has as its value.
pub fn content_at(bytes: &Bytes, k: usize, j: usize) -> Content
    requires { (Row bytes.now k) × (j < part_limit) }
    ensures { result ≡ content_in (value_field bytes.now k j) }
{
    content_of(areas::value(bytes, k, j))
}

// Whether all its parts are INFO.
fn only_info(bytes: &Bytes, k: usize) -> bool
    requires { Row bytes.now k }
    ensures { (ns : List ℤ) → result ≡ only_info (bracket_in bytes.now ns k) }
{
    let m = parts(bytes, k);
    for j in 0..m {
        let key = areas::key(bytes, k, j);
        if key != Key::Info as usize {
            return false;
        }
    }
    true
}

// Whether it is a reference.
pub fn is_referring(bytes: &Bytes, k: usize) -> bool
    requires { Row bytes.now k }
    ensures { (ns : List ℤ) → result ≡ is_referring (bracket_in bytes.now ns k) }
{
    parts(bytes, k) != 0 && content_at(bytes, k, 0) == Content::Reference
}

// Whether a part of it has a label.
pub fn is_labelled(bytes: &Bytes, k: usize) -> bool
    requires { Row bytes.now k }
    ensures { (ns : List ℤ) → result ≡ is_labelled (bracket_in bytes.now ns k) }
{
    let m = parts(bytes, k);
    for j in 0..m {
        let label = areas::label_length(bytes, k, j);
        if label != 0 {
            return true;
        }
    }
    false
}

// Whether it is a modification.
pub fn is_modification(bytes: &Bytes, k: usize) -> bool
    requires { Row bytes.now k }
    ensures { (ns : List ℤ) → result ≡ is_modification (bracket_in bytes.now ns k) }
{
    !only_info(bytes, k) && !is_referring(bytes, k)
}

// Whether a bracket of this kind stands on a residue or terminus.
fn on_one_position(kind: Kind) -> bool
    ensures { result ≡ on_one_position kind }
{
    matches!(kind, Kind::NTerm | Kind::OnResidue | Kind::CTerm)
}

// Whether it is placed.
#[tactic(auto, unfolding(scope::specs::Positions::is_placed))]
pub fn is_placed(bytes: &Bytes, k: usize) -> bool
    requires { Row bytes.now k }
    ensures { (ns : List ℤ) → result ≡ is_placed (bracket_in bytes.now ns k) }
{
    is_modification(bytes, k) && !is_labelled(bytes, k) && on_one_position(kind(bytes, k))
}

// Whether it is a declared modification: one that is placed wherever a place of it names what stands there.
pub fn is_declared(bytes: &Bytes, k: usize) -> bool
    requires { Row bytes.now k }
    ensures { (ns : List ℤ) → result ≡ is_declared (bracket_in bytes.now ns k).kind && is_modification (bracket_in bytes.now ns k) }
{
    kind(bytes, k) == Kind::Declared && is_modification(bytes, k)
}

// Whether one of its places is this site.
fn is_named(bytes: &Bytes, k: usize, site: u8) -> bool
    requires { Row bytes.now k }
    ensures { (ns : List ℤ) → result ≡ member site (map (λ p. p.site) (bracket_in bytes.now ns k).places) }
{
    let m = areas::places(bytes, k);
    for j in 0..m {
        let s = areas::site(bytes, k, j);
        if site == s {
            return true;
        }
    }
    false
}

// What stands at position x.
fn site_at(bytes: &Bytes, x: usize) -> u8
    requires { Position bytes.now x }
    ensures { (ns : List ℤ) → result ≡ get_or (sites (tables_in bytes.now ns)) x 0 }
{
    if x == 0 {
        Tables::N_TERMINUS
    } else if areas::residues(bytes) < x {
        Tables::C_TERMINUS
    } else {
        areas::letter(bytes, x - 1)
    }
}

// Whether one of the places of bracket k names what stands at position x.
pub fn names(bytes: &Bytes, k: usize, x: usize) -> bool
    requires { (Row bytes.now k) × (Position bytes.now x) }
    ensures { (ns : List ℤ) → result ≡ names (tables_in bytes.now ns) (bracket_in bytes.now ns k).places x }
{
    is_named(bytes, k, site_at(bytes, x))
}

// How many positions they name: what put_reached writes, where there is no room to write to.
pub fn reached(bytes: &Bytes, k: usize) -> usize
    requires { (Row bytes.now k) × (residues_field bytes.now ≤ residue_limit) }
    ensures { ((ns : List ℤ) → result ≡ length (reached (tables_in bytes.now ns) (bracket_in bytes.now ns k))) × (result ≤ position_limit) }
{
    let end = areas::residues(bytes) + 2;
    let mut n: usize = 0;
    for x in 0..end {
        if names(bytes, k, x) {
            n += 1;
        }
    }
    n
}

// The positions that they name, ascending, into the first entries of a slice: how many.
pub fn put_reached(bytes: &Bytes, k: usize, out: &mut [u16]) -> usize
    requires { (Row bytes.now k) × (residues_field bytes.now ≤ residue_limit) × (position_limit ≤ length out.old) }
    ensures { ReachedPut bytes.now k result out.old out.new }
{
    let all = areas::residues(bytes) + 2;
    let mut n: usize = 0;
    for x in 0..all {
        if names(bytes, k, x) {
            out[n] = x as u16;
            n += 1;
        }
    }
    n
}

// How many copies of an unlabelled modification float.
fn unlabelled_copies(kind: Kind, count: usize) -> usize
    ensures { result ≡ unlabelled_copies kind count }
{
    match kind {
        Kind::Unknown => count,
        Kind::OnRange => 1,
        _ => 0,
    }
}

// How many copies of it float.
#[tactic(auto, unfolding(scope::specs::Modifications::copies))]
pub fn copies_of(bytes: &Bytes, k: usize) -> usize
    requires { Row bytes.now k }
    ensures { (ns : List ℤ) → result ≡ copies (bracket_in bytes.now ns k) }
{
    if !is_modification(bytes, k) {
        0
    } else if is_labelled(bytes, k) {
        1
    } else {
        unlabelled_copies(kind(bytes, k), areas::count(bytes, k))
    }
}
