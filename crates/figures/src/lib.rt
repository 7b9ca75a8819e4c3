// Writes bytes and numbers into an output: what fits is stored, and all is counted.
#![tactic(auto)]

ghost use Rattle.std.specs.Prelude.{◌≡◌, [], ◌∷◌, ◌+◌, ◌-◌, ◌*◌, ◌/◌, ◌%◌, ◌^◌, ◌<◌, ◌≤◌, nat_abs, length};
ghost use Rattle.scope.specs.Canonical.{decimal, last_digits, decimals, size, count_text};
ghost use Rattle.scope.specs.Limits.{decimal_limit};
ghost use Rattle.scope.specs.Layout.{is_negative, number_in};
ghost use Rattle.figures.specs.Written.{Puts, DigitsIn, Grouped, ceiling, decimal_most, group_size, fraction_most, size_most, number_most, count_most, number_of, sign_text, number_text};

use scope::tables::Number;

// A number of 64 bits has at most so many digits.
pub const DIGITS: usize = 20;

// So many of them are written at once, at most.
const GROUP: usize = 6;

// How many decimals a mass or a score has at most.
const DECIMALS: usize = Number::DECIMALS as usize;

// One byte at a place: stored where there is room, and counted.
pub fn put(out: &mut [u8], at: usize, b: u8) -> usize
    requires { at + 1 ≤ ceiling }
    ensures { Puts 1 out.old at (b ∷ []) out.new result }
{
    if at < out.len() {
        out[at] = b;
    }
    at + 1
}

// A byte string: what fits is stored, and all is counted.
pub fn word(w: &[u8], out: &mut [u8], at: usize) -> usize
    requires { at + length w.now ≤ ceiling }
    ensures { Puts (length w.now) out.old at w.now out.new result }
{
    if at < out.len() {
        let m = w.len().min(out.len() - at);
        copies::copy(&w[..m], &mut out[at..at + m]);
    }
    at + w.len()
}

// The byte of a digit.
fn digit(n: u64) -> u8
    requires { n < 10 }
    ensures { result ≡ 48 + n }
{
    b'0' + n as u8
}

// ---- digits: the leading one is stored, and what is left goes on to the next lower power of ten. A function for each number of digits, since a const
// argument cannot be worked out from another (`store::<{K - 1}>`), and a loop over a power that is a variable took 40 % more time

fn store_one(n: u64, out: &mut [u8], at: usize)
    requires { (n < 10 ^ 1) × (at + 1 ≤ length out.old) }
    ensures { Puts 1 out.old at (last_digits 1 n) out.new (at + 1) }
{
    out[at] = digit(n);
}

fn store_two(n: u64, out: &mut [u8], at: usize)
    requires { (n < 10 ^ 2) × (at + 2 ≤ length out.old) }
    ensures { Puts 2 out.old at (last_digits 2 n) out.new (at + 2) }
{
    out[at] = digit(n / tens::TEN);
    store_one(n % tens::TEN, out, at + 1);
}

fn store_three(n: u64, out: &mut [u8], at: usize)
    requires { (n < 10 ^ 3) × (at + 3 ≤ length out.old) }
    ensures { Puts 3 out.old at (last_digits 3 n) out.new (at + 3) }
{
    out[at] = digit(n / tens::HUNDRED);
    store_two(n % tens::HUNDRED, out, at + 1);
}

fn store_four(n: u64, out: &mut [u8], at: usize)
    requires { (n < 10 ^ 4) × (at + 4 ≤ length out.old) }
    ensures { Puts 4 out.old at (last_digits 4 n) out.new (at + 4) }
{
    out[at] = digit(n / tens::THOUSAND);
    store_three(n % tens::THOUSAND, out, at + 1);
}

fn store_five(n: u64, out: &mut [u8], at: usize)
    requires { (n < 10 ^ 5) × (at + 5 ≤ length out.old) }
    ensures { Puts 5 out.old at (last_digits 5 n) out.new (at + 5) }
{
    out[at] = digit(n / tens::TEN_THOUSAND);
    store_four(n % tens::TEN_THOUSAND, out, at + 1);
}

fn store_six(n: u64, out: &mut [u8], at: usize)
    requires { (n < 10 ^ 6) × (at + 6 ≤ length out.old) }
    ensures { Puts 6 out.old at (last_digits 6 n) out.new (at + 6) }
{
    out[at] = digit(n / tens::HUNDRED_THOUSAND);
    store_five(n % tens::HUNDRED_THOUSAND, out, at + 1);
}

// The last k digits of a number, at most a group, into an output that has room for them.
fn store_digits(n: u64, out: &mut [u8], at: usize, k: usize)
    requires { (k ≤ group_size) × (at + k ≤ length out.old) }
    ensures { Puts k out.old at (last_digits k n) out.new (at + k) }
{
    match k {
        0 => {}
        1 => store_one(n % tens::TEN, out, at),
        2 => store_two(n % tens::HUNDRED, out, at),
        3 => store_three(n % tens::THOUSAND, out, at),
        4 => store_four(n % tens::TEN_THOUSAND, out, at),
        5 => store_five(n % tens::HUNDRED_THOUSAND, out, at),
        _ => store_six(n % tens::MILLION, out, at),
    }
}

// The same where there is no room for all of them: one by one.
fn put_each(n: u64, out: &mut [u8], at: usize, k: usize) -> usize
    requires { (k ≤ group_size) × (at + k ≤ ceiling) }
    ensures { Puts k out.old at (last_digits k n) out.new result }
{
    let mut a = at;
    for i in (0..k).rev() {
        a = put(out, a, digit(n / tens::power(i) % tens::TEN));
    }
    a
}

// The same into any output.
fn put_digits(n: u64, out: &mut [u8], at: usize, k: usize) -> usize
    requires { (k ≤ group_size) × (at + k ≤ ceiling) }
    ensures { Puts k out.old at (last_digits k n) out.new result }
{
    if at + k <= out.len() {
        store_digits(n, out, at, k);
        at + k
    } else {
        put_each(n, out, at, k)
    }
}

// How many digits a number of at most a group has.
fn digits_in(n: u64) -> usize
    requires { n < 10 ^ group_size }
    ensures { DigitsIn n result }
{
    for k in 1..GROUP {
        if n < tens::power(k) {
            return k;
        }
    }
    GROUP
}

// The last g groups of digits of a number.
fn put_groups(n: u64, out: &mut [u8], at: usize, g: usize) -> usize
    requires { (group_size * g < decimal_most) × (at + group_size * g ≤ ceiling) }
    ensures { Puts (group_size * g) out.old at (last_digits (group_size * g) n) out.new result }
{
    let mut a = at;
    for i in (0..g).rev() {
        a = put_digits(n / tens::power(GROUP * i), out, a, GROUP);
    }
    a
}

// A number that has g groups behind its leading digits.
fn put_long(n: u64, out: &mut [u8], at: usize, g: usize) -> usize
    requires { Grouped g n × (at + decimal_most ≤ ceiling) }
    ensures { Puts decimal_most out.old at (decimal n) out.new result }
{
    let lead = n / tens::power(GROUP * g);
    let a = put_digits(lead, out, at, digits_in(lead));
    put_groups(n, out, a, g)
}

// A number without leading zeros, by its size.
fn put_whole(n: u64, out: &mut [u8], at: usize) -> usize
    requires { at + decimal_most ≤ ceiling }
    ensures { Puts decimal_most out.old at (decimal n) out.new result }
{
    match n {
        0..tens::TEN => put_digits(n, out, at, 1),
        tens::TEN..tens::HUNDRED => put_digits(n, out, at, 2),
        tens::HUNDRED..tens::THOUSAND => put_digits(n, out, at, 3),
        tens::THOUSAND..tens::TEN_THOUSAND => put_digits(n, out, at, 4),
        tens::TEN_THOUSAND..tens::HUNDRED_THOUSAND => put_digits(n, out, at, 5),
        tens::HUNDRED_THOUSAND..tens::MILLION => put_digits(n, out, at, 6),
        tens::MILLION..1_000_000_000_000 => put_long(n, out, at, 1),
        1_000_000_000_000..1_000_000_000_000_000_000 => put_long(n, out, at, 2),
        _ => put_long(n, out, at, 3),
    }
}

// ---- numbers

// The size of a number.
pub fn magnitude(m: i64) -> u64
    ensures { result ≡ nat_abs m }
{
    m.unsigned_abs()
}

// Whether a number is below zero.
fn is_minus(m: i64) -> bool
    ensures { result ≡ is_negative m }
{
    m < 0
}

// The digits of a number in millionths that has d decimals.
fn digits_of(m: i64, d: usize) -> u64
    requires { d ≤ decimal_limit }
    ensures { result ≡ nat_abs m / 10 ^ (decimal_limit - d) }
{
    magnitude(m) / tens::power(DECIMALS - d)
}

// A number without leading zeros; one digit by no further call.
pub fn put_decimal(n: u64, out: &mut [u8], at: usize) -> usize
    requires { at + decimal_most ≤ ceiling }
    ensures { Puts decimal_most out.old at (decimal n) out.new result }
{
    if n < tens::TEN {
        put(out, at, digit(n))
    } else {
        put_whole(n, out, at)
    }
}

// The point and what stands behind it, where there are decimals.
fn put_decimals(d: usize, n: u64, out: &mut [u8], at: usize) -> usize
    requires { (d ≤ decimal_limit) × (at + fraction_most ≤ ceiling) }
    ensures { Puts fraction_most out.old at (decimals d n) out.new result }
{
    if d == 0 {
        return at;
    }
    let a = put(out, at, b'.');
    put_digits(n, out, a, d)
}

// A number without its sign: "decimals as many as written".
fn put_size(minus: bool, n: u64, d: usize, out: &mut [u8], at: usize) -> usize
    requires { (d ≤ decimal_limit) × (at + size_most ≤ ceiling) }
    ensures { Puts size_most out.old at (size (number_of minus n d)) out.new result }
{
    let a = put_whole(n / tens::power(d), out, at);
    put_decimals(d, n, out, a)
}

// A sign: where it is always written, and else where there is a minus.
fn put_sign(minus: bool, always: bool, out: &mut [u8], at: usize) -> usize
    requires { at + 1 ≤ ceiling }
    ensures { Puts 1 out.old at (sign_text always minus) out.new result }
{
    match (minus, always) {
        (true, _) => put(out, at, b'-'),
        (false, true) => put(out, at, b'+'),
        (false, false) => at,
    }
}

// "masses always signed, scores signed only when negative"
pub fn put_number(m: i64, d: usize, always: bool, out: &mut [u8], at: usize) -> usize
    requires { (d ≤ decimal_limit) × (at + number_most ≤ ceiling) }
    ensures { Puts number_most out.old at (number_text always (number_in m d)) out.new result }
{
    let minus = is_minus(m);
    let n = digits_of(m, d);
    let a = put_sign(minus, always, out, at);
    put_size(minus, n, d, out, a)
}

// "`^1` .. not kept"
pub fn put_count(n: usize, out: &mut [u8], at: usize) -> usize
    requires { at + count_most ≤ ceiling }
    ensures { Puts count_most out.old at (count_text n) out.new result }
{
    if n == 1 {
        return at;
    }
    let a = put(out, at, b'^');
    put_decimal(n as u64, out, a)
}
