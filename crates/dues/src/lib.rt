// The first refusal due, as one number: its rank in the order of trying, then the place. Of two, the lower is the first.
#![tactic(auto)]

ghost use Rattle.std.specs.Prelude.{◌≡◌, not, ◌&&◌, List, map, ℕ, min, ◌+◌, ◌-◌, ◌/◌, ◌%◌, ◌<◌, ◌≤◌, length};
ghost use Rattle.scope.specs.Bytes.{wide_limit, is_digit};
ghost use Rattle.scope.specs.Keys.{key_code, written};
ghost use Rattle.scope.specs.Line.{Line, Part, Label as Written};
ghost use Rattle.scope.specs.Lists.{none?, all, part};
ghost use Rattle.scope.specs.Answers.{reason_number};
ghost use Rattle.scope.specs.Refusals.{due_at, least as first, line_refusals, text_of};
ghost use Rattle.values.specs.Says.{IsValue, coded};
ghost use Rattle.labels.specs.Says.{IsLabel};
ghost use Rattle.dues.specs.Ranks.{code, lowest, no_code, number_at};
ghost use Rattle.dues.specs.Lines.{part_codes, label_codes};
ghost use Rattle.dues.specs.Steps.{barred_key, text_codes};
ghost use Rattle.dues.specs.Found.{PlaceFits, wide_body, wide_score, ValueFound, LabelFound};

use labels::{Label, Score};
use scope::grammar::Key;
use scope::refusals::Reason;
use scope::tables::Tables;
use values::{Body, Value};

// how many places there are for each rank
const PLACES: usize = 65536;

// The refusals that are tried behind 4, in the order of trying.
const REASONS: [Reason; RANKS] = [
    Reason::Deep,
    Reason::TooMany,
    Reason::OutOfRange,
    Reason::NotTaken,
    Reason::DigitsOnly,
    Reason::OnlyInfo,
    Reason::InfoDeclared,
    Reason::Labels,
    Reason::Copies,
    Reason::Uncut,
];

const RANKS: usize = 10;

// Their ranks, numbers and no enum: rank and place are one number, of which the lowest is due. A pair too deep; too many or too long; out of range; barred; only digits; only INFO; only INFO in a declaration; wrongly labelled; too many copies; a composition that cannot be cut.
pub const DEEP: usize = 0;

pub const OVER: usize = 1;

pub const WIDE: usize = 2;

pub const BARRED: usize = 3;

pub const DIGITS: usize = 4;

pub const INFO: usize = 5;

pub const DECLARED: usize = 6;

pub const LABEL: usize = 7;

pub const COPIES: usize = 8;

pub const UNCUT: usize = 9;

// The first code of 10, 21, 11 and 12, the rules that are asked over all brackets: below it are those of 5 to 9.
pub const RULED: usize = INFO * PLACES;

// Nothing is due: above every code.
pub const NONE: usize = RANKS * PLACES;

// The first due, with one place more of a rank.
pub fn due(least: usize, rank: usize, place: usize) -> usize
    requires { (rank < wide_limit) × (place < wide_limit) }
    ensures { result ≡ min (code rank place) least }
{
    least.min(rank * PLACES + place)
}

// The same, where it is due there.
pub fn due_if(least: usize, so: bool, rank: usize, place: usize) -> usize
    requires { (rank < wide_limit) × (place < wide_limit) }
    ensures { result ≡ lowest least (map (code rank) (due_at so place)) }
{
    if so { due(least, rank, place) } else { least }
}

// The same, with the first of some places of a rank, if there is one.
pub fn first_due(least: usize, rank: usize, place: Option<usize>) -> usize
    requires { (rank < wide_limit) × PlaceFits place }
    ensures { (ps : List ℕ) → place ≡ coded (first ps) → result ≡ lowest least (map (code rank) ps) }
{
    match place {
        None => least,
        Some(place) => due(least, rank, place),
    }
}

// The reason that a code is due for.
pub fn reason_of(c: usize) -> Reason
    requires { (l : Line ℕ) → c < no_code (line_refusals l) }
    ensures { (l : Line ℕ) → reason_number result ≡ number_at (line_refusals l) (c / wide_limit) }
{
    REASONS[c / PLACES]
}

// Its place.
pub fn place_of(c: usize) -> usize
    ensures { result ≡ c % wide_limit }
{
    c % PLACES
}

// Whether a part with this key is barred, whatever stands behind the key.
fn is_barred(key: Key) -> bool
    ensures { result ≡ barred_key (key_code key) }
{
    matches!(key, Key::Formula | Key::Position | Key::Limit)
}

// With what is due of a value: of the key and the mass or text of the part at `at`.
pub fn value_due(line: &[u8], least: usize, at: usize, v: Value) -> usize
    requires { ValueFound line.now at v }
    ensures { (q : Part ℕ) → IsValue line.now at v q → result ≡ lowest least (part_codes q) }
{
    if let Body::Text { deep } = v.body {
        return text_due(line, least, at, v, deep);
    }
    let a = due_if(least, is_barred(v.key), BARRED, at);
    due_if(a, is_wide(v.body), WIDE, v.from)
}

// Whether it is a mass that is out of range.
fn is_wide(body: Body) -> bool
    ensures { result ≡ wide_body body }
{
    matches!(body, Body::Mass(None))
}

// Of the key and the text.
fn text_due(line: &[u8], least: usize, at: usize, v: Value, deep: Option<usize>) -> usize
    requires { ValueFound line.now at v × (v.body ≡ Body.Text deep) }
    ensures { (q : Part ℕ) → IsValue line.now at v q → result ≡ lowest least (text_codes (key_code q.key) q.at (q.at + length (written q.key)) (text_of q)) }
{
    let from = v.from;
    let to = v.to;
    let a = first_due(least, DEEP, deep);
    let b = due_if(a, Tables::TEXT < to - from, OVER, at);
    match v.key {
        Key::NoKey => due_if(b, words::is_rule(line, from, to), BARRED, at),
        Key::U | Key::M => due_if(b, is_number(line, from, to), DIGITS, at),
        Key::Glycan => due_if(b, glycans::cut(line, from, to).is_none(), UNCUT, at),
        Key::Formula | Key::Position | Key::Limit => due(b, BARRED, at),
        _ => b,
    }
}

// Whether digits only, and some, stand from `from` to `to`.
fn is_number(line: &[u8], from: usize, to: usize) -> bool
    requires { (from ≤ to) × (to ≤ length line.now) }
    ensures { result ≡ (not (none? (part from (to - from) line.now)) && all is_digit (part from (to - from) line.now)) }
{
    from != to && to <= classes::digit_end(line, from)
}

// Whether it is a score that is out of range.
fn is_wide_score(score: Option<Score>) -> bool
    ensures { result ≡ wide_score score }
{
    matches!(score, Some(Score { number: None }))
}

// With what is due of a label, of the part at `at`.
pub fn label_due(line: &[u8], least: usize, at: usize, label: Label) -> usize
    requires { LabelFound line.now at label }
    ensures { (l : Written ℕ) → IsLabel line.now l.at label l → result ≡ lowest least (label_codes at l) }
{
    let from = label.from;
    let to = label.to;
    let a = due_if(least, words::is_link(line, from, to), BARRED, at);
    let b = due_if(a, is_wide_score(label.score), WIDE, to + 1);
    due_if(b, Tables::LABEL < to - from, OVER, from)
}
