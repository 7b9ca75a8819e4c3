// The value of a part: its key and its mass or text, up to the byte behind it.
#![tactic(auto)]

ghost use Rattle.std.specs.Prelude.{◌≡◌, true, false, ◌&&◌, List, [], ℕ, ◌+◌, ◌-◌, ◌<◌, ◌≤◌, eqb, length, drop, get_or};
ghost use Rattle.scope.specs.Bytes.{hash, dash, is_sign};
ghost use Rattle.scope.specs.declared.grammar.Key.TheVariants.{NoKey};
ghost use Rattle.scope.specs.Keys.{written, form, hash_is_plain};
ghost use Rattle.scope.specs.Lists.{part};
ghost use Rattle.scope.specs.Content.{is_plain, signed, begin, in_number, in_text, inner_step, text_end, behind_key};
ghost use Rattle.classes.specs.Runs.{span};
ghost use Rattle.values.specs.Says.{body_code, number_in, ValueSays};
ghost use Rattle.values.specs.Within.{SaysFrom, told, takes_mass, PlainTo, deep_in, key_before};

use scope::grammar::{Key, Stuck};
use scope::tables::Number;

// What stands behind a key: a mass, with its number if that is in range; a text, with the first place at which a pair in it is too deep, if there is one; a reference: three
// sorts, so no Result.
#[derive(Clone, Copy, Debug, PartialEq, Eq)]
pub enum Body {
    Mass(Option<Number>),
    Text { deep: Option<usize> },
    Reference,
}

impl Body {
    // Its code in a part's row: 1 a mass, 2 a text, 3 a reference. A composition, which is 4 there, is read as a text.
    pub fn code(self) -> u8
        ensures { result ≡ body_code self }
    {
        match self {
            Self::Mass(_) => 1,
            Self::Text { .. } => 2,
            Self::Reference => 3,
        }
    }

    // The number of a mass in range, else zero.
    pub fn number(self) -> Number
        ensures { result ≡ number_in self }
    {
        if let Self::Mass(Some(number)) = self {
            number
        } else {
            Number::zero()
        }
    }
}

// A key and what stands behind it; where that begins (the first byte of a text, the sign of a mass, the `#` of a reference) and the place behind it (of a reference, its
// `#`).
#[derive(Clone, Copy, Debug, PartialEq, Eq)]
pub struct Value {
    pub key: Key,
    pub body: Body,
    pub from: usize,
    pub to: usize,
}

// What may stand behind a key: a mass or a name; a mass; digits; letters or digits; a text in which `#` is plain; a composition.
#[derive(Clone, Copy, Debug, PartialEq, Eq)]
enum Form {
    MassOrName,
    MassOnly,
    Digits,
    Alnums,
    Free,
    Composed,
}

fn form_of(key: Key) -> Form
    ensures { result ≡ told (form key) }
{
    match key {
        Key::NoKey | Key::U | Key::M | Key::R | Key::X | Key::G | Key::C => Form::MassOrName,
        Key::Obs => Form::MassOnly,
        Key::Unimod | Key::Mod | Key::Xlmod => Form::Digits,
        Key::Resid | Key::Gno => Form::Alnums,
        Key::Info | Key::Formula | Key::Position | Key::Limit => Form::Free,
        Key::Glycan => Form::Composed,
    }
}

// A text from `from` to `to`, with what its end tells of its depth.
fn text_of(key: Key, from: usize, to: usize, deep: Option<usize>) -> Result<Value, Stuck>
    ensures { (line : List ℕ) (at : ℕ) → from ≡ at + length (written key) → from ≤ to → to ≤ length line → deep ≡ deep_in line from to → SaysFrom line at to (λ c. text_end c at key (part from (to - from) line) []) result }
{
    if from == to {
        return Err(Stuck { at: to });
    }
    Ok(Value {
        key,
        body: Body::Text { deep },
        from,
        to,
    })
}

// A text from `from` on, of which the bytes before `scan` are plain.
fn text_from(line: &[u8], key: Key, from: usize, scan: usize, hashes: bool) -> Result<Value, Stuck>
    requires { (from ≤ scan) × (scan ≤ length line.now) }
    ensures { (at : ℕ) → hash_is_plain (form key) ≡ hashes → from ≡ at + length (written key) → PlainTo line.now from scan → SaysFrom line.now at scan (λ c. inner_step scan (in_text c at key (part from (scan - from) line.now) [])) result }
{
    let end = texts::text_end(line, scan, hashes)?;
    text_of(key, from, end.to, end.deep)
}

// A mass whose sign stands at `sign`.
fn mass_at(line: &[u8], key: Key, sign: usize) -> Result<Value, Stuck>
    requires { sign < length line.now }
    ensures { (at : ℕ) → at ≤ sign → SaysFrom line.now at (sign + 1) (λ c. inner_step (sign + 1) (in_number c at key sign (signed (eqb (get_or line.now sign 0) dash)))) result }
{
    let mass = numerals::number_after_sign(line, sign + 1, line[sign] == b'-')?;
    Ok(Value {
        key,
        body: Body::Mass(mass.number),
        from: sign,
        to: mass.next,
    })
}

// A sign stands at `at`.
fn signed_at(line: &[u8], at: usize) -> bool
    ensures { result ≡ is_sign (get_or line.now at 0) }
{
    at < line.len() && classes::is_sign(line[at])
}

// A mass stands at `at`, behind a key of this form.
fn mass_behind(line: &[u8], form: Form, at: usize) -> bool
    ensures { result ≡ (takes_mass form && is_sign (get_or line.now at 0)) }
{
    matches!(form, Form::MassOrName | Form::MassOnly) && signed_at(line, at)
}

// Behind a key and its colon.
fn behind_key(line: &[u8], key: Key, from: usize) -> Result<Value, Stuck>
    requires { from ≤ length line.now }
    ensures { (at : ℕ) → from ≡ at + length (written key) → SaysFrom line.now at from (λ c. inner_step from (behind_key c at key (form key))) result }
{
    let form = form_of(key);
    if mass_behind(line, form, from) {
        return mass_at(line, key, from);
    }
    match form {
        Form::MassOrName => text_from(line, key, from, from, false),
        Form::MassOnly => Err(Stuck { at: from }),
        Form::Digits => text_of(key, from, classes::digit_end(line, from), None),
        Form::Alnums => text_of(key, from, classes::alnum_end(line, from), None),
        Form::Free => text_from(line, key, from, from, true),
        Form::Composed => text_from(line, key, from, from, false),
    }
}

// The key that the bytes from `at` to a colon at `end` spell.
fn key_before(line: &[u8], at: usize, end: usize) -> Key
    requires { at ≤ end }
    ensures { result ≡ key_before line.now at end }
{
    if end < line.len() && line[end] == b':' {
        words::key_in(line, at, end)
    } else {
        Key::NoKey
    }
}

// Plain bytes from `at` to `end`, and no key: a name, which mostly ends here.
fn name_at(line: &[u8], at: usize, end: usize) -> Result<Value, Stuck>
    requires { at ≤ end }
    ensures { end ≡ at + span is_plain (drop at line.now) → end ≤ length line.now → SaysFrom line.now at end (λ c. inner_step end (in_text c at NoKey (part at (end - at) line.now) [])) result }
{
    if line.len() <= end {
        return Err(Stuck { at: end });
    }
    if line[end] == b']' {
        text_of(Key::NoKey, at, end, None)
    } else {
        text_from(line, Key::NoKey, at, end, false)
    }
}

// A value that begins with no sign and no `#`.
fn word_at(line: &[u8], at: usize) -> Result<Value, Stuck>
    requires { at < length line.now }
    ensures { is_sign (get_or line.now at 0) ≡ false → (get_or line.now at 0 ≡ hash → ⊥) → SaysFrom line.now at at (λ c. inner_step at (begin c)) result }
{
    let end = classes::plain_end(line, at);
    match key_before(line, at, end) {
        Key::NoKey => name_at(line, at, end),
        key => behind_key(line, key, end + 1),
    }
}

// The `#` of a reference, at `at`.
fn reference_at(at: usize, refers: bool) -> Result<Value, Stuck>
    ensures { (line : List ℕ) → at < length line → get_or line at 0 ≡ hash → ValueSays line at refers result }
{
    if !refers {
        return Err(Stuck { at });
    }
    Ok(Value {
        key: Key::NoKey,
        body: Body::Reference,
        from: at,
        to: at,
    })
}

// The value of the part that begins at `at`; `refers` says whether a lone reference may stand here.
pub fn value_at(line: &[u8], at: usize, refers: bool) -> Result<Value, Stuck>
    ensures { at ≤ length line.now → ValueSays line.now at refers result }
{
    if line.len() <= at {
        return Err(Stuck { at });
    }
    let b = line[at];
    if classes::is_sign(b) {
        mass_at(line, Key::NoKey, at)
    } else if b == b'#' {
        reference_at(at, refers)
    } else {
        word_at(line, at)
    }
}
