// Refusals 10, 21, 11 and 12, over the rows of brackets and parts in which a line is noted.
#![tactic(auto)]

ghost use Rattle.std.specs.Prelude.{◌≡◌, List, ℕ, ◌+◌, ◌<◌, ◌≤◌};
ghost use Rattle.scope.specs.Bytes.{wide_limit};
ghost use Rattle.scope.specs.Limits.{bracket_limit};
ghost use Rattle.scope.specs.Line.{Bracket};
ghost use Rattle.scope.specs.Lists.{same, among, tabled};
ghost use Rattle.sheet.specs.Rows.{masses_room};
ghost use Rattle.sheet.specs.Fields.{parts_field, base_field};
ghost use Rattle.dues.specs.Ranks.{lowest};
ghost use Rattle.rules.specs.Told.{info_at, declared_info_at, name_at, PartLegible, AllLegible, labelled_at, side_is, side_at, side_from, wrong_label, wrong_at, copies_at, passes as passing, due_codes};
ghost use Rattle.rules.specs.Ruled.{Ruled, Finds};

use scope::answers::Placement;
use scope::grammar::Kind;
use sheet::{Head, Sheet};

// where no label ends, as the sheet notes it
const NOWHERE: usize = 0;

// The first refusal due, and how many copies float.
#[derive(Clone, Copy, Debug, PartialEq, Eq)]
pub struct Found {
    pub first: usize,
    pub floaters: usize,
}

// What refusals 10, 21, 11 and 12 find in the n brackets: the first refusal due, where `least` is the first of the others; and how many copies float.
pub fn rules_due(line: &[u8], sheet: &Sheet, n: usize, least: usize) -> Found
    requires { (ks : List (Bracket ℕ)) × Ruled line.now sheet.now.heads sheet.now.parts n ks }
    ensures { (ks : List (Bracket ℕ)) → Ruled line.now sheet.now.heads sheet.now.parts n ks → Finds ks least result.first result.floaters }
{
    let mut first = least;
    let mut floaters = 0;
    for k in 0..n {
        let after = floaters + copies_of(sheet, k);
        first = bracket_due(line, sheet, n, k, floaters, after, first);
        floaters = after;
    }
    Found { first, floaters }
}

// The first refusal due with what they find in bracket k, where so many copies stand before it and so many with it.
fn bracket_due(
    line: &[u8],
    sheet: &Sheet,
    n: usize,
    k: usize,
    before: usize,
    after: usize,
    least: usize,
) -> usize
    requires { AllLegible line.now sheet.now.heads sheet.now.parts n × (k < n) × (after ≡ before + copies_at sheet.now.heads k) }
    ensures { result ≡ lowest least (due_codes line.now sheet.now.heads sheet.now.parts n before k) }
{
    let place = sheet.place_of(k);
    let a = dues::due_if(least, has_only_info(sheet, k), dues::INFO, place);
    let d = dues::due_if(a, declares_info(sheet, k), dues::DECLARED, place);
    let b = dues::due_if(d, is_wrong(line, sheet, n, k), dues::LABEL, place);
    dues::due_if(b, passes(before, after), dues::COPIES, place)
}

// Refusal 10: "only INFO in an unknown or labile bracket".
fn has_only_info(sheet: &Sheet, k: usize) -> bool
    requires { k < bracket_limit }
    ensures { result ≡ info_at sheet.now.heads k }
{
    sheet.kind_of(k) <= Kind::Labile as usize && sheet.sort_of(k) == Head::ONLY_INFO
}

// Refusal 21: a declaration with only INFO.
fn declares_info(sheet: &Sheet, k: usize) -> bool
    requires { k < bracket_limit }
    ensures { result ≡ declared_info_at sheet.now.heads k }
{
    sheet.kind_of(k) == Kind::Declared as usize && sheet.sort_of(k) == Head::ONLY_INFO
}

// Refusal 11: whether bracket k is wrongly labelled.
fn is_wrong(line: &[u8], sheet: &Sheet, n: usize, k: usize) -> bool
    requires { AllLegible line.now sheet.now.heads sheet.now.parts n × (k < n) }
    ensures { result ≡ wrong_at line.now sheet.now.heads sheet.now.parts n k }
{
    let labels = sheet.labels_of(k);
    if labels == 0 {
        return false;
    }
    if 1 < labels {
        return true;
    }
    if sheet.is_counted(k) {
        return true;
    }
    is_wrong_label(line, sheet, n, k, labelled_part(sheet, k))
}

// Whether its one label, that of part x, is: a reference without definition, defined again, or defined in an unknown run and never referred to.
fn is_wrong_label(line: &[u8], sheet: &Sheet, n: usize, k: usize, x: usize) -> bool
    requires { AllLegible line.now sheet.now.heads sheet.now.parts n × (k < n) × PartLegible line.now sheet.now.parts x }
    ensures { result ≡ wrong_label line.now sheet.now.heads sheet.now.parts n k x }
{
    if sheet.sort_of(k) == Head::REFERENCE {
        return !is_named(line, sheet, false, n, x);
    }
    if is_named(line, sheet, false, k, x) {
        return true;
    }
    if sheet.kind_of(k) == Kind::Unknown as usize {
        return !is_named(line, sheet, true, n, x);
    }
    false
}

// The part of bracket k that has its label: the last, where none before it has one.
fn labelled_part(sheet: &Sheet, k: usize) -> usize
    requires { (k < bracket_limit) × (0 < parts_field sheet.now.heads k) × (base_field sheet.now.heads k + parts_field sheet.now.heads k ≤ masses_room) }
    ensures { result ≡ labelled_at sheet.now.heads sheet.now.parts k }
{
    let first = sheet.base_of(k);
    let last = first + sheet.parts_of(k) - 1;
    for x in first..last {
        if sheet.label_to(x) != NOWHERE {
            return x;
        }
    }
    last
}

// Whether one of the first e brackets refers to the label of part x, or defines it.
fn is_named(line: &[u8], sheet: &Sheet, refers: bool, e: usize, x: usize) -> bool
    requires { AllLegible line.now sheet.now.heads sheet.now.parts e × PartLegible line.now sheet.now.parts x }
    ensures { result ≡ among (name_at line.now sheet.now.parts x) (side_from line.now sheet.now.heads sheet.now.parts refers 0 e) }
{
    for k in 0..e {
        if names(line, sheet, refers, k, x) {
            return true;
        }
    }
    false
}

// Whether bracket k does.
fn names(line: &[u8], sheet: &Sheet, refers: bool, k: usize, x: usize) -> bool
    requires { AllLegible line.now sheet.now.heads sheet.now.parts (k + 1) × PartLegible line.now sheet.now.parts x }
    ensures { result ≡ among (name_at line.now sheet.now.parts x) (side_at line.now sheet.now.heads sheet.now.parts refers k) }
{
    if sheet.labels_of(k) == 0 {
        return false;
    }
    if is_side(sheet, refers, k) {
        return has_label(line, sheet, x, sheet.base_of(k), sheet.parts_of(k));
    }
    false
}

// Whether bracket k is a reference, or a definition, as asked.
fn is_side(sheet: &Sheet, refers: bool, k: usize) -> bool
    requires { k < bracket_limit }
    ensures { result ≡ side_is sheet.now.heads refers k }
{
    (sheet.sort_of(k) == Head::REFERENCE) == refers
}

// Whether one of the m parts from the y-th on has the label of part x.
fn has_label(line: &[u8], sheet: &Sheet, x: usize, y: usize, m: usize) -> bool
    requires { PartLegible line.now sheet.now.parts x × ((i : ℕ) → i < m → PartLegible line.now sheet.now.parts (y + i)) }
    ensures { result ≡ among (name_at line.now sheet.now.parts x) (tabled (name_at line.now sheet.now.parts) y m) }
{
    for i in 0..m {
        if same_label(line, sheet, x, y + i) {
            return true;
        }
    }
    false
}

// Whether the labels of parts x and y are the same, byte for byte.
fn same_label(line: &[u8], sheet: &Sheet, x: usize, y: usize) -> bool
    requires { PartLegible line.now sheet.now.parts x × PartLegible line.now sheet.now.parts y }
    ensures { result ≡ same (name_at line.now sheet.now.parts x) (name_at line.now sheet.now.parts y) }
{
    let a = sheet.label_from(x);
    let m = sheet.label_to(x) - a;
    let b = sheet.label_from(y);
    let n = sheet.label_to(y) - b;
    m == n && classes::same_text(line, a, b, m)
}

// How many copies of bracket k float.
fn copies_of(sheet: &Sheet, k: usize) -> usize
    requires { k < bracket_limit }
    ensures { (result ≡ copies_at sheet.now.heads k) × (result < wide_limit) }
{
    let sort = sheet.sort_of(k);
    if sort == Head::LABELLED {
        return 1;
    }
    if sort != Head::UNLABELLED {
        return 0;
    }
    let kind = sheet.kind_of(k);
    if kind == Kind::Unknown as usize {
        return sheet.count_of(k);
    }
    if kind == Kind::OnRange as usize {
        return 1;
    }
    0
}

// Refusal 12: whether this is the bracket that passes "more than 8 floating copies", with so many before it and so many with it.
fn passes(before: usize, after: usize) -> bool
    ensures { result ≡ passing before after }
{
    before <= Placement::COPIES && Placement::COPIES < after
}
