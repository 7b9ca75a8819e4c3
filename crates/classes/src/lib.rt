// The classes of bytes, and runs of bytes of one class in a line.
#![tactic(auto)]

ghost use Rattle.std.specs.Prelude.{◌≡◌, ℕ, Bool, ◌+◌, ◌≤◌, length, drop};
ghost use Rattle.scope.specs.Bytes.{is_printable, is_letter, is_digit, is_alnum, is_sign, is_opening, is_shutting, same_folded, upper as inUpper};
ghost use Rattle.scope.specs.Lists.{same, part};
ghost use Rattle.scope.specs.Content.{is_plain};
ghost use Rattle.classes.specs.Runs.{span};

// A byte of a text, outside every pair, that can mean nothing else.
#[tactic(auto, using(crate::proofs::Classes::letter_plain))]
pub fn is_plain(b: u8) -> bool
    ensures { result ≡ is_plain b }
{
    is_letter(b)
        || is_printable(b) && !is_opening(b) && !is_shutting(b) && !matches!(b, b'|' | b'#' | b':')
}

pub fn is_printable(b: u8) -> bool
    ensures { result ≡ is_printable b }
{
    matches!(b, b' '..=b'~')
}

pub fn is_digit(b: u8) -> bool
    ensures { result ≡ is_digit b }
{
    b.is_ascii_digit()
}

pub fn is_letter(b: u8) -> bool
    ensures { result ≡ is_letter b }
{
    b.is_ascii_alphabetic()
}

// A letter or a digit.
fn is_alnum(b: u8) -> bool
    ensures { result ≡ is_alnum b }
{
    b.is_ascii_alphanumeric()
}

pub fn is_sign(b: u8) -> bool
    ensures { result ≡ is_sign b }
{
    b == b'+' || b == b'-'
}

// The opening byte of a pair.
pub fn is_opening(b: u8) -> bool
    ensures { result ≡ is_opening b }
{
    b == b'[' || b == b'{'
}

// The closing byte of a pair.
pub fn is_shutting(b: u8) -> bool
    ensures { result ≡ is_shutting b }
{
    b == b']' || b == b'}'
}

// a to z as A to Z, and every other byte as it is.
pub fn upper(b: u8) -> u8
    ensures { result ≡ inUpper b }
{
    b.to_ascii_uppercase()
}

// Where the bytes of a class that start at `at` end.
pub fn run_end<F: Fn(u8) -> bool>(line: &[u8], at: usize, class: F) -> usize
    requires { F.IsAlwaysCallable class }
    ensures { (p : ℕ → Bool) → ((b : ℕ) (x : Bool) → F.post class b x → x ≡ p b) → result ≡ at + span p (drop at line.now) }
{
    for to in at..line.len() {
        if !class(line[to]) {
            return to;
        }
    }
    at.max(line.len())
}

// Where the plain bytes that start at `at` end.
pub fn plain_end(line: &[u8], at: usize) -> usize
    ensures { result ≡ at + span is_plain (drop at line.now) }
{
    run_end(line, at, is_plain)
}

// Where the letters and digits that start at `at` end.
pub fn alnum_end(line: &[u8], at: usize) -> usize
    ensures { result ≡ at + span is_alnum (drop at line.now) }
{
    run_end(line, at, is_alnum)
}

// Where the digits that start at `at` end.
pub fn digit_end(line: &[u8], at: usize) -> usize
    ensures { result ≡ at + span is_digit (drop at line.now) }
{
    run_end(line, at, is_digit)
}

// Whether the n bytes at a and those at b are the same.
pub fn same_text(line: &[u8], a: usize, b: usize, n: usize) -> bool
    requires { (a + n ≤ length line.now) × (b + n ≤ length line.now) }
    ensures { result ≡ same (part a n line.now) (part b n line.now) }
{
    line[a..a + n] == line[b..b + n]
}

// Whether the key stands at `at`, in either case.
pub fn key_at(line: &[u8], at: usize, key: &[u8]) -> bool
    requires { at + length key.now ≤ length line.now }
    ensures { result ≡ same_folded key.now (part at (length key.now) line.now) }
{
    key.eq_ignore_ascii_case(&line[at..at + key.len()])
}
