// A bracket, read part by part: what its parts are, what is due of them, and a row for each in the sheet.
#![tactic(auto)]

ghost use Rattle.std.specs.Prelude.{◌≡◌, true, ◌&&◌, cond, List, [], ◌∷◌, ℕ, ◌+◌, ◌*◌, ◌<◌, ◌≤◌, eqb, ltb, ℤ, length, get_or, set};
ghost use Rattle.std.proofs.lemmas.List.Edits.{sets};
ghost use Rattle.scope.specs.Bytes.{hash, wide_limit};
ghost use Rattle.scope.specs.Limits.{line_limit, part_limit};
ghost use Rattle.scope.specs.Line.{Part, Bracket};
ghost use Rattle.scope.specs.Keys.{key_code};
ghost use Rattle.scope.specs.Lists.{none?};
ghost use Rattle.values.specs.Says.{number_in};
ghost use Rattle.sheet.specs.Rows.{part_fields, masses_room, sort_of};
ghost use Rattle.sheet.specs.Fields.{label_at};
ghost use Rattle.sheet.specs.Kept.{OnlyParts};
ghost use Rattle.inside.specs.Says.{Opening, BracketFits, BracketSays, PartsAre};
ghost use Rattle.inside.specs.Progress.{no_parts, with_value, with_label, behind_part, refers_body, text_place, value_row, Sofar, NextPart, NextFits, AtLabel, LabelFits};

use labels::{Label, Score};
use scope::grammar::{Key, Stuck};
use scope::tables::Tables;
use sheet::{Head, Sheet};
use values::{Body, Value};

// The parts of a bracket: how many, how many labels they have, whether all are INFO, whether the first is a reference, the score of the first label that has one, and
// the first refusal due.
#[derive(Clone, Copy, Debug, PartialEq, Eq)]
pub struct Parts {
    pub count: usize,
    pub labels: usize,
    pub info: bool,
    pub refers: bool,
    pub score: Option<Score>,
    pub least: usize,
}

// A bracket that was read: the place behind it, and its parts.
#[derive(Clone, Copy, Debug, PartialEq, Eq)]
pub struct Bracketed {
    pub next: usize,
    pub parts: Parts,
}

// One part more: the bracket is closed, or the next part begins.
#[derive(Clone, Copy, Debug, PartialEq, Eq)]
enum Next {
    Closed(usize, Parts),
    More(usize, Parts),
}

// ---- from part to part

// Reads the bracket whose first part begins at `at`, that `shut` closes; `refers` says whether a lone reference may stand in it, `labels` whether its parts may have
// labels. Where there is room its first parts are stored, from part number `base` on. `least` is the first refusal due before it.
pub fn bracket_at(
    line: &[u8],
    sheet: &mut Sheet,
    at: usize,
    shut: u8,
    refers: bool,
    labels: bool,
    room: bool,
    base: usize,
    least: usize,
) -> Result<Bracketed, Stuck>
    requires { BracketFits line.now (record { at = at; shut = shut; refers = refers; labels = labels; room = room; base = base; least = least; parts = sheet.old.parts; masses = sheet.old.masses }) }
    ensures says { BracketSays line.now (record { at = at; shut = shut; refers = refers; labels = labels; room = room; base = base; least = least; parts = sheet.old.parts; masses = sheet.old.masses }) result sheet.new.parts sheet.new.masses }
    ensures others_kept { OnlyParts sheet.old sheet.new }
{
    let mut i = at;
    let mut s = no_parts(least);
    // a turn goes behind a whole part, until one closes the bracket: no step of one
    loop {
        match next_part(line, sheet, i, shut, refers, labels, room, base, s)? {
            Next::Closed(next, parts) => {
                return Ok(Bracketed { next, parts });
            }
            Next::More(next, t) => {
                i = next;
                s = t;
            }
        }
    }
}

// Reads the part at `at`, behind the parts `s`.
fn next_part(
    line: &[u8],
    sheet: &mut Sheet,
    at: usize,
    shut: u8,
    refers: bool,
    labels: bool,
    room: bool,
    base: usize,
    s: Parts,
) -> Result<Next, Stuck>
    requires { NextFits line.now at refers labels room base s }
    ensures says { (from least : ℕ) (old : List ℕ) (masses₀ : List ℤ) → Sofar line.now (record { at = from; shut = shut; refers = refers; labels = labels; room = room; base = base; least = least; parts = old; masses = masses₀ }) at s sheet.old.parts sheet.old.masses → NextPart line.now (record { at = from; shut = shut; refers = refers; labels = labels; room = room; base = base; least = least; parts = old; masses = masses₀ }) at result sheet.new.parts sheet.new.masses }
    ensures others_kept { OnlyParts sheet.old sheet.new }
{
    let first = may_refer(refers, s.count);
    let v = values::value_at(line, at, first)?;
    let stored = has_room(room, s.count);
    let m = base + s.count;
    sheet.sized();
    store_part(sheet, stored, m, v);
    let due = dues::value_due(line, s.least, at, v);
    let least = dues::due_if(due, Tables::PARTS <= s.count, dues::OVER, at);
    let t = with_value(s, v, least);
    let next = v.to;
    let reference = is_reference(v.body);
    if has_label(line, next, labels) {
        return labelled(line, sheet, at, next, shut, stored, m, reference, t);
    }
    behind(line, shut, next, reference, t)
}

// Reads the label of the part at `part`, whose `#` stands at `at`; the part is stored as part m, or not.
fn labelled(
    line: &[u8],
    sheet: &mut Sheet,
    part: usize,
    at: usize,
    shut: u8,
    stored: bool,
    m: usize,
    reference: bool,
    s: Parts,
) -> Result<Next, Stuck>
    requires { LabelFits line.now part at stored m s }
    ensures says { (o : Opening) (before : List (Part ℕ)) (q : Part ℕ) → AtLabel line.now o part at shut stored m reference s before q sheet.old.parts sheet.old.masses → NextPart line.now o part result sheet.new.parts sheet.new.masses }
    ensures others_kept { OnlyParts sheet.old sheet.new }
{
    let l = labels::label_at(line, at + 1)?;
    sheet.sized();
    store_label(sheet, stored, m, l);
    let least = dues::label_due(line, s.least, part, l);
    let t = with_label(s, l, least);
    behind(line, shut, l.next, reference, t)
}

// Whether a reference may stand here: as the first part only.
fn may_refer(refers: bool, count: usize) -> bool
    ensures { (ps : List (Part ℕ)) → count ≡ length ps → (refers && none? ps) ≡ result }
{
    if count == 0 {
        return refers;
    }
    false
}

// Whether a label follows: `#` stands here, and labels may.
fn has_label(line: &[u8], at: usize, labels: bool) -> bool
    ensures { result ≡ (ltb at (length line.now) && (eqb (get_or line.now at 0) hash && labels)) }
{
    if line.len() <= at {
        return false;
    }
    if line[at] == b'#' {
        return labels;
    }
    false
}

// The byte at `next`, behind the last of the parts `s`.
fn behind(line: &[u8], shut: u8, next: usize, reference: bool, s: Parts) -> Result<Next, Stuck>
    ensures { result ≡ behind_part line.now shut reference next s }
{
    if line.len() <= next {
        return Err(Stuck { at: next });
    }
    let b = line[next];
    if b == shut {
        return Ok(Next::Closed(next + 1, s));
    }
    if b != b'|' {
        return Err(Stuck { at: next });
    }
    if reference {
        return Err(Stuck { at: next });
    }
    Ok(Next::More(next + 1, s))
}

// ---- the parts, with one more

// None yet.
fn no_parts(least: usize) -> Parts
    ensures { result ≡ no_parts least }
{
    Parts {
        count: 0,
        labels: 0,
        info: true,
        refers: false,
        score: None,
        least,
    }
}

// With the value of one more.
fn with_value(s: Parts, v: Value, least: usize) -> Parts
    requires { s.count ≤ line_limit }
    ensures { result ≡ with_value s v least }
{
    Parts {
        count: s.count + 1,
        info: s.info && is_info(v.key),
        refers: first_refers(s.count, s.refers, is_reference(v.body)),
        least,
        ..s
    }
}

// With the label of the last.
fn with_label(s: Parts, l: Label, least: usize) -> Parts
    requires { s.labels ≤ line_limit }
    ensures { result ≡ with_label s l least }
{
    Parts {
        labels: s.labels + 1,
        score: s.score.or(l.score),
        least,
        ..s
    }
}

// Whether the first part is a reference.
fn first_refers(count: usize, before: bool, here: bool) -> bool
    ensures { result ≡ cond (eqb count 0) here before }
{
    if count == 0 {
        return here;
    }
    before
}

fn is_info(key: Key) -> bool
    ensures { result ≡ eqb (key_code key) (key_code Key.Info) }
{
    matches!(key, Key::Info)
}

fn is_reference(body: Body) -> bool
    ensures { result ≡ refers_body body }
{
    matches!(body, Body::Reference)
}

// What a bracket with these parts is.
pub fn sort_of(s: Parts) -> usize
    ensures { ((line : List ℕ) (least : ℕ) (k : Bracket ℕ) → PartsAre line least s k.parts → result ≡ sort_of k) × (result < wide_limit) }
{
    if s.refers {
        return Head::REFERENCE;
    }
    if s.info {
        return Head::ONLY_INFO;
    }
    if s.labels == 0 {
        return Head::UNLABELLED;
    }
    Head::LABELLED
}

// ---- rows

// Whether part number `count` is stored, where there is room for the bracket's.
fn has_room(room: bool, count: usize) -> bool
    ensures { result ≡ (room && ltb count part_limit) }
{
    if room {
        return count < Tables::PARTS;
    }
    false
}

// The place, where it is that of a text.
fn text_place(body: Body, place: usize) -> usize
    ensures { result ≡ text_place body place }
{
    if let Body::Text { .. } = body {
        place
    } else {
        0
    }
}

// The number of a key in its row: a cast in the middle of an expression would have no law of its cases.
fn key_code(key: Key) -> u8
    ensures { result ≡ key_code key }
{
    key as u8
}

// Part m, which has no label so far, where it is stored.
fn store_part(sheet: &mut Sheet, stored: bool, m: usize, v: Value)
    requires { (stored ≡ true → m < masses_room) × (v.from < wide_limit) × (v.to < wide_limit) }
    ensures { sheet.new ≡ record sheet.old { parts = cond stored (sets sheet.old.parts (m * part_fields) (value_row v)) sheet.old.parts; masses = cond stored (set sheet.old.masses m (number_in v.body).millionths) sheet.old.masses } }
{
    if stored {
        let number = v.body.number();
        sheet.put_part(
            m,
            v.body.code(),
            key_code(v.key),
            number.decimals,
            text_place(v.body, v.from),
            text_place(v.body, v.to),
        );
        sheet.masses[m] = number.millionths;
    }
}

// Its label.
fn store_label(sheet: &mut Sheet, stored: bool, m: usize, l: Label)
    requires { (stored ≡ true → m < masses_room) × (l.from < wide_limit) × (l.to < wide_limit) }
    ensures { sheet.new ≡ record sheet.old { parts = cond stored (sets sheet.old.parts (label_at m) (l.from ∷ l.to ∷ [])) sheet.old.parts } }
{
    if stored {
        sheet.put_label(m, l.from, l.to);
    }
}
