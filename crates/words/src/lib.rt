// The fixed words of the notation, each once and in the spelling in which it is written; and the key that bytes spell in either case.
#![tactic(auto)]

ghost use Rattle.std.specs.Prelude.{◌≡◌, true, cond, ◌-◌, ◌≤◌, eqb, length, take};
ghost use Rattle.scope.specs.declared.grammar.Key.{Key as TheKey};
ghost use Rattle.scope.specs.Bytes.{same_folded};
ghost use Rattle.scope.specs.Keys.{spell, key_in};
ghost use Rattle.scope.specs.Lists.{part};
ghost use Rattle.scope.specs.Refusals.{is_rule_name, is_link};
ghost use Rattle.words.specs.Words.{may_be, key_found};

use scope::grammar::Key;

// The word of a key, "written in the spelling given here".
#[tactic(auto, unfolding(scope::specs::Keys::spell))]
pub fn word_of(key: Key) -> &'static [u8]
    ensures { result.now ≡ spell key }
{
    match key {
        Key::NoKey => b"",
        Key::U => b"U",
        Key::M => b"M",
        Key::R => b"R",
        Key::X => b"X",
        Key::G => b"G",
        Key::C => b"C",
        Key::Obs => b"Obs",
        Key::Unimod => b"UNIMOD",
        Key::Mod => b"MOD",
        Key::Xlmod => b"XLMOD",
        Key::Resid => b"RESID",
        Key::Gno => b"GNO",
        Key::Info => b"INFO",
        Key::Formula => b"Formula",
        Key::Glycan => b"Glycan",
        Key::Position => b"Position",
        Key::Limit => b"Limit",
    }
}

// The one key that a word may be which begins so, in upper case, and has so many letters.
fn likely(first: u8, size: usize) -> Key
    ensures { (k : TheKey) → may_be first size k ≡ true → result ≡ k }
{
    match first {
        b'U' => if size == 1 { Key::U } else { Key::Unimod },
        b'M' => if size == 1 { Key::M } else { Key::Mod },
        b'R' => if size == 1 { Key::R } else { Key::Resid },
        b'X' => if size == 1 { Key::X } else { Key::Xlmod },
        b'G' => match size {
            1 => Key::G,
            3 => Key::Gno,
            _ => Key::Glycan,
        },
        b'C' => Key::C,
        b'O' => Key::Obs,
        b'I' => Key::Info,
        b'F' => Key::Formula,
        b'P' => Key::Position,
        b'L' => Key::Limit,
        _ => Key::NoKey,
    }
}

// The key that the bytes from `at` to `end` spell.
pub fn key_in(line: &[u8], at: usize, end: usize) -> Key
    requires { (at ≤ end) × (end ≤ length line.now) }
    ensures { result ≡ key_found (part at (end - at) line.now) }
{
    let text = &line[at..end];
    let [first, ..] = text else {
        return Key::NoKey;
    };
    let key = likely(classes::upper(*first), text.len());
    if is(word_of(key), text) {
        key
    } else {
        Key::NoKey
    }
}

// Whether a text is the word, in either case.
fn is(word: &[u8], text: &[u8]) -> bool
    ensures { result ≡ same_folded word.now text.now }
{
    word.len() == text.len() && classes::key_at(text, 0, word)
}

// Whether it begins with it.
fn begins(word: &[u8], text: &[u8]) -> bool
    ensures { result ≡ same_folded word.now (take (length word.now) text.now) }
{
    word.len() <= text.len() && classes::key_at(text, 0, word)
}

// Whether they are CoMKP, CoMUP or one of their long names, which all begin with a C.
pub fn is_rule(line: &[u8], at: usize, end: usize) -> bool
    requires { (at ≤ end) × (end ≤ length line.now) }
    ensures { result ≡ is_rule_name (part at (end - at) line.now) }
{
    let text = &line[at..end];
    let [first, ..] = text else {
        return false;
    };
    classes::upper(*first) == b'C' && is_rule_name(text)
}

// Whether a text is one of these names.
#[tactic(auto, unfolding(scope::specs::Refusals::is_rule_name))]
fn is_rule_name(text: &[u8]) -> bool
    ensures { result ≡ is_rule_name text.now }
{
    is(b"CoMKP", text)
        || is(b"CoMUP", text)
        || is(b"ColocaliseModificationsOfKnownPosition", text)
        || is(b"ColocaliseModificationsOfUnknownPosition", text)
}

// Whether they begin XL or are BRANCH: a label of a link.
pub fn is_link(line: &[u8], at: usize, end: usize) -> bool
    requires { (at ≤ end) × (end ≤ length line.now) }
    ensures { result ≡ is_link (part at (end - at) line.now) }
{
    let text = &line[at..end];
    begins(b"XL", text) || is(b"BRANCH", text)
}

// The key of a number; every other number is no key. A byte of a lent area may be any, so this is no `TryFrom`.
#[tactic(auto, unfolding(scope::specs::Keys::keys))]
pub fn key_of(code: usize) -> Key
    ensures { result ≡ key_in code }
{
    match code {
        1 => Key::U,
        2 => Key::M,
        3 => Key::R,
        4 => Key::X,
        5 => Key::G,
        6 => Key::C,
        7 => Key::Obs,
        8 => Key::Unimod,
        9 => Key::Mod,
        10 => Key::Xlmod,
        11 => Key::Resid,
        12 => Key::Gno,
        13 => Key::Info,
        14 => Key::Formula,
        15 => Key::Glycan,
        16 => Key::Position,
        17 => Key::Limit,
        _ => Key::NoKey,
    }
}
