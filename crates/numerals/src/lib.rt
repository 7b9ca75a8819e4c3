// Numbers: "sign, digits, perhaps `.` and digits", in millionths; and counts.
#![tactic(auto)]

ghost use Rattle.std.specs.Prelude.{◌≡◌, true, false, ℕ, ◌+◌, ◌*◌, ◌≤◌, min, drop};
ghost use Rattle.scope.specs.Bytes.{is_digit, value};
ghost use Rattle.scope.specs.Content.{signed, whole, pointed, number_of};
ghost use Rattle.scope.specs.Tables.{signed as with_sign};
ghost use Rattle.classes.specs.Runs.{span};
ghost use Rattle.numerals.specs.Numerals.{cap, DigitsAt, scan_number, found, kept_in_range, num_of, CountAt};

use scope::grammar::Stuck;
use scope::tables::{Number, Tables};

// "at most 6 decimals"
const DECIMALS: usize = Number::DECIMALS as usize;

// "below 1,000,000 in size", in millionths: above this no number is in range.
const CAP: u64 = Number::SIZE * tens::MILLION;

// Above this no count is in range.
const COUNT_CAP: usize = Tables::COUNT + 1;

// A number that was read, if it is in range; and the place behind it.
#[derive(Clone, Copy, Debug, PartialEq, Eq)]
pub struct Num {
    pub number: Option<Number>,
    pub next: usize,
}

// A run of digits: its value, kept at the cap or below, and the place behind it.
#[derive(Clone, Copy, Debug, PartialEq, Eq)]
struct DigitRun {
    value: u64,
    next: usize,
}

// The digits of a count: their value, kept at the cap of counts or below, and the place behind them.
#[derive(Clone, Copy, Debug, PartialEq, Eq)]
pub struct Count {
    pub value: usize,
    pub next: usize,
}

// The number whose digits start at `at`, behind its sign.
pub fn number_after_sign(line: &[u8], at: usize, minus: bool) -> Result<Num, Stuck>
    ensures { (p : ℕ) → result ≡ num_of (scan_number p (signed minus) (drop at line.now) at) }
{
    let digits = digit_run(line, at, 0);
    if digits.next == at {
        return Err(Stuck { at });
    }
    after_whole(line, digits.next, minus, digits.value)
}

// The number with no sign whose digits start at `at`.
pub fn number_unsigned(line: &[u8], at: usize) -> Result<Num, Stuck>
    ensures { (p : ℕ) → result ≡ num_of (scan_number p (signed false) (drop at line.now) at) }
{
    number_after_sign(line, at, false)
}

// The digits from `at` on, behind a number v.
fn digit_run(line: &[u8], at: usize, v: u64) -> DigitRun
    requires { v ≤ cap }
    ensures { DigitsAt line.now at v result.value result.next }
{
    let Some(rest) = line.get(at..) else {
        return DigitRun { value: v, next: at };
    };
    let mut value = v;
    for (n, &b) in rest.iter().enumerate() {
        if !classes::is_digit(b) {
            return DigitRun {
                value,
                next: at + n,
            };
        }
        value = with_digit(value, b);
    }
    DigitRun {
        value,
        next: at + rest.len(),
    }
}

// One digit more, and never above 10^12.
fn with_digit(v: u64, b: u8) -> u64
    requires { (v ≤ cap) × (is_digit b ≡ true) }
    ensures { result ≡ min cap (v * 10 + value b) }
{
    (v * 10 + digit_value(b)).min(CAP)
}

fn digit_value(b: u8) -> u64
    requires { is_digit b ≡ true }
    ensures { (result ≡ value b) × (result ≤ 9) }
{
    u64::from(b - b'0')
}

// Behind the digits before the point.
fn after_whole(line: &[u8], at: usize, minus: bool, v: u64) -> Result<Num, Stuck>
    requires { v ≤ cap }
    ensures { (p m : ℕ) → v ≡ min cap m → span is_digit (drop at line.now) ≡ 0 → result ≡ num_of (scan_number p (whole minus m) (drop at line.now) at) }
{
    if at < line.len() && line[at] == b'.' {
        after_point(line, at + 1, minus, v)
    } else {
        finished(minus, v, 0, at)
    }
}

// Behind the point.
fn after_point(line: &[u8], at: usize, minus: bool, v: u64) -> Result<Num, Stuck>
    requires { v ≤ cap }
    ensures { (p m : ℕ) → v ≡ min cap m → result ≡ num_of (scan_number p (pointed minus m) (drop at line.now) at) }
{
    let digits = digit_run(line, at, v);
    if digits.next == at {
        return Err(Stuck { at });
    }
    finished(minus, digits.value, digits.next - at, digits.next)
}

// The number of the digits v, d of them behind the point, that ends before `next`.
fn finished(minus: bool, v: u64, d: usize, next: usize) -> Result<Num, Stuck>
    requires { v ≤ cap }
    ensures { (p m : ℕ) → v ≡ min cap m → result ≡ num_of (found (number_of p minus m d) next) }
{
    Ok(Num {
        number: scaled(minus, v, d),
        next,
    })
}

// The number of the digits v, d of them behind the point, if it is in range.
fn scaled(minus: bool, v: u64, d: usize) -> Option<Number>
    requires { v ≤ cap }
    ensures { (p m : ℕ) → v ≡ min cap m → result ≡ kept_in_range (number_of p minus m d) }
{
    if DECIMALS < d {
        return None;
    }
    let m = v * tens::power(DECIMALS - d);
    if CAP <= m {
        return None;
    }
    Some(Number {
        millionths: with_sign(minus, m),
        decimals: d as u8,
    })
}

fn with_sign(minus: bool, m: u64) -> i64
    requires { m ≤ cap }
    ensures { result ≡ with_sign minus m }
{
    if minus { -(m as i64) } else { m as i64 }
}

// The digits of a count, from `at` on.
pub fn count_at(line: &[u8], at: usize) -> Count
    ensures { CountAt line.now at result.value result.next }
{
    let digits = digit_run(line, at, 0);
    Count {
        value: digits.value.min(COUNT_CAP as u64) as usize,
        next: digits.next,
    }
}
