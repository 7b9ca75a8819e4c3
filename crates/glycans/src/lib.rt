// Glycan compositions, cut "into listed names and counts" from the right, where the longest listed name that ends a text is the last one: one pass, no search.
#![tactic(auto)]

ghost use Rattle.std.specs.Prelude.{◌≡◌, false, cond, ◌+◌, ◌-◌, ◌≤◌, ◌<◌, ltb, length};
ghost use Rattle.scope.specs.Lists.{part, none?, laid};
ghost use Rattle.scope.specs.Glycans.{sugar_at, name_at, cuttings};
ghost use Rattle.glycan_laws.specs.Back.{is_front, order};
ghost use Rattle.glycans.specs.Cut.{back, ending_in, CountIs, DigitIs, NameIs, PieceIs, digits_text, CutIs, short_of, weight_most, Room, PutBefore};
ghost use Rattle.glycans.specs.Pieces.{pieces_of, PiecesSay};

use scope::refusals::{Reason, Refusal};

// ---- the list

// A name, in "the list's spelling", and its mass in ten-thousandths.
#[derive(Clone, Copy, Debug, PartialEq, Eq)]
struct Sugar {
    name: &'static [u8],
    mass: u64,
}

// The names by their number in the list. A match is a table in the program; an array would be laid on the stack at each call.
#[tactic(auto, unfolding(scope::specs::Glycans::sugars))]
fn sugar_at(i: usize) -> Sugar
    ensures { (result.name.now ≡ name_at i) × (result.mass ≡ (sugar_at i).mass) }
{
    match i {
        0 => listed(b"Hex", 1620528),
        1 => listed(b"HexNAc", 2030793),
        2 => listed(b"HexS", 2420096),
        3 => listed(b"HexP", 2420191),
        4 => listed(b"HexNAcS", 2830361),
        5 => listed(b"HexN", 1610688),
        6 => listed(b"HexNS", 2410256),
        7 => listed(b"dHex", 1460579),
        8 => listed(b"aHex", 1760321),
        9 => listed(b"en,aHex", 1580215),
        10 => listed(b"Neu", 2490849),
        11 => listed(b"NeuAc", 2910954),
        12 => listed(b"NeuGc", 3070903),
        13 => listed(b"Sug", 420106),
        14 => listed(b"Tri", 720211),
        15 => listed(b"Tet", 1020317),
        16 => listed(b"Pen", 1320422),
        17 => listed(b"Hep", 1920634),
        18 => listed(b"Oct", 2220740),
        19 => listed(b"Non", 2520845),
        20 => listed(b"Dec", 2820951),
        21 => listed(b"Fuc", 1460579),
        22 => listed(b"Sulfate", 799568),
        23 => listed(b"Phosphate", 799663),
        _ => listed(b"", 0),
    }
}

fn listed(name: &'static [u8], mass: u64) -> Sugar
    ensures { (result.name.now ≡ name.now) × (result.mass ≡ mass) }
{
    Sugar { name, mass }
}

// ---- the name that ends a text

// The names that end in a letter, given in upper case: a longer one before the one that it ends with.
#[tactic(auto, unfolding(scope::specs::Lists::keep, scope::specs::Bytes::upper, scope::specs::Glycans::sugars))]
fn ending_in(last: u8) -> &'static [usize]
    ensures { result.now ≡ ending_in last order }
{
    match last {
        b'X' => &[9, 8, 7, 0],
        b'C' => &[1, 11, 12, 20, 21],
        b'S' => &[2, 4, 6],
        b'N' => &[5, 16, 19],
        b'P' => &[3, 17],
        b'T' => &[15, 18],
        b'E' => &[22, 23],
        b'U' => &[10],
        b'G' => &[13],
        b'I' => &[14],
        _ => &[],
    }
}

// Whether a name ends a text, in either case.
fn ends(name: &[u8], text: &[u8]) -> bool
    ensures { result ≡ is_front (back name.now) (back text.now) }
{
    name.len() <= text.len() && classes::key_at(text, text.len() - name.len(), name)
}

// The longest name that ends a text, if any.
fn last_name(text: &[u8]) -> Option<usize>
    ensures { NameIs text.now result }
{
    let [.., last] = text else {
        return None;
    };
    let names = ending_in(classes::upper(*last));
    for &i in names {
        if ends(sugar_at(i).name, text) {
            return Some(i);
        }
    }
    None
}

// ---- the count that ends a text

// Where it begins, and the count: 1 where none is written.
#[derive(Clone, Copy, Debug, PartialEq, Eq)]
struct Count {
    start: usize,
    count: u8,
}

// "a count, 1 to 99, no leading zeros": the last digit, and the one before it. None where the digits are no count.
fn last_count(text: &[u8]) -> Option<Count>
    ensures { CountIs text.now result }
{
    let end = text.len();
    if end == 0 {
        return Some(Count { start: 0, count: 1 });
    }
    let ones = text[end - 1];
    if !classes::is_digit(ones) {
        return Some(Count {
            start: end,
            count: 1,
        });
    }
    if end == 1 {
        return one_digit(ones, end);
    }
    let tens = text[end - 2];
    if !classes::is_digit(tens) {
        return one_digit(ones, end);
    }
    if tens == b'0' {
        return None;
    }
    Some(Count {
        start: end - 2,
        count: (tens - b'0') * 10 + (ones - b'0'),
    })
}

// A count of one digit, behind the first n - 1 bytes.
fn one_digit(b: u8, n: usize) -> Option<Count>
    requires { (48 ≤ b) × (1 ≤ n) }
    ensures { DigitIs b n result }
{
    if b == b'0' {
        None
    } else {
        Some(Count {
            start: n - 1,
            count: b - b'0',
        })
    }
}

// ---- the piece that ends a text

// A name with its count, 1 where none is written, and where it begins.
#[derive(Clone, Copy, Debug, PartialEq, Eq)]
struct Piece {
    start: usize,
    name: usize,
    count: u8,
}

impl Piece {
    // The number of its name and its count, where the pieces of a text are handed out.
    const BYTES: usize = 2;
}

fn last_piece(text: &[u8]) -> Option<Piece>
    ensures { PieceIs text.now result }
{
    let c = last_count(text)?;
    let name = last_name(&text[..c.start])?;
    Some(Piece {
        start: c.start - sugar_at(name).name.len(),
        name,
        count: c.count,
    })
}

// ---- a composition

// The bytes of "the list's spelling .. , a count of 1 dropped", its mass in millionths, and how many pieces it has.
#[derive(Clone, Copy, Debug, PartialEq, Eq)]
pub struct Cutting {
    pub size: usize,
    pub mass: u64,
    pub pieces: usize,
}

impl Cutting {
    // In the tables: the code of its key, that of its value, and the decimals of its mass. The bytes of a row, so numbers.
    pub const KEY: usize = 15;

    pub const VALUE: usize = 4;

    pub const DECIMALS: usize = 4;

    // A composition whose text keeps to its limit weighs less than this, in ten-thousandths.
    const MOST: u64 = 10000000000;

    // From ten-thousandths to millionths.
    const SCALE: u64 = 100;
}

// The bytes from `from` to `to`, where they are a composition. Inlined: a text that is none is often known by its last bytes, before a call has paid.
#[inline]
pub fn cut(line: &[u8], from: usize, to: usize) -> Option<Cutting>
    requires { (from ≤ to) × (to ≤ length line.now) }
    ensures { CutIs (part from (to - from) line.now) result }
{
    let mut rest = &line[from..to];
    let mut size: usize = 0;
    let mut mass: u64 = 0;
    let mut pieces: usize = 0;
    // from the right: what is left of the text is a piece shorter each turn
    while !rest.is_empty() {
        let p = last_piece(rest)?;
        let s = sugar_at(p.name);
        size += s.name.len() + digits(p.count);
        mass = added(mass, u64::from(p.count) * s.mass);
        pieces += 1;
        rest = &rest[..p.start];
    }
    Some(Cutting {
        size,
        mass: mass * Cutting::SCALE,
        pieces,
    })
}

// How many digits are written of a count.
fn digits(count: u8) -> usize
    ensures { result ≡ length (digits_text count) }
{
    match count {
        1 => 0,
        0..=9 => 1,
        _ => 2,
    }
}

// A sum of masses; one that no composition within the limit has stays as it is.
fn added(sum: u64, x: u64) -> u64
    requires { x ≤ weight_most }
    ensures { result ≡ cond (ltb sum weight_most) (sum + x) sum }
{
    if sum < Cutting::MOST { sum + x } else { sum }
}

// ---- its short text, put before a place of an area from the right, piece by piece. Each answers where it begins.

// The text of a composition.
pub fn put_short(line: &[u8], from: usize, to: usize, out: &mut [u8], at: usize) -> usize
    requires { (from ≤ to) × (to ≤ length line.now) × (none? (cuttings (part from (to - from) line.now)) ≡ false) × Room out.old at (short_of (cuttings (part from (to - from) line.now))) }
    ensures { PutBefore out.old at (short_of (cuttings (part from (to - from) line.now))) out.new result }
{
    let mut rest = &line[from..to];
    let mut a = at;
    // from the right: what is left of the text is a piece shorter each turn
    while let Some(p) = last_piece(rest) {
        a = put_digits(p.count, out, a);
        a = put_name(p.name, out, a);
        rest = &rest[..p.start];
    }
    a
}

// A count, "a count of 1 dropped".
fn put_digits(n: u8, out: &mut [u8], at: usize) -> usize
    requires { (n < 100) × Room out.old at (digits_text n) }
    ensures { PutBefore out.old at (digits_text n) out.new result }
{
    if n == 1 {
        return at;
    }
    if n < 10 {
        out[at - 1] = b'0' + n;
        return at - 1;
    }
    out[at - 2] = b'0' + n / 10;
    out[at - 1] = b'0' + n % 10;
    at - 2
}

// A name, in "the list's spelling".
fn put_name(i: usize, out: &mut [u8], at: usize) -> usize
    requires { Room out.old at (name_at i) }
    ensures { PutBefore out.old at (name_at i) out.new result }
{
    let name = sugar_at(i).name;
    let start = at - name.len();
    copies::copy(name, &mut out[start..at]);
    start
}

// ---- its pieces

// The pieces of any text, as it stands behind `Glycan:`, into any output, two bytes each: the number of the name in the list, and the count. How many bytes were
// written; or a refusal, the output as it was.
pub fn pieces(text: &[u8], out: &mut [u8]) -> Result<usize, Refusal>
    ensures { PiecesSay text.now out.old result out.new }
{
    let Some(c) = cut(text, 0, text.len()) else {
        return Err(Refusal {
            reason: Reason::Uncut,
            place: 0,
        });
    };
    let n = c.pieces * Piece::BYTES;
    if out.len() < n {
        return Err(Refusal {
            reason: Reason::ShortOutput,
            place: n,
        });
    }
    put_pieces(text, out, n);
    Ok(n)
}

// All of them, in the first n bytes, from the right.
fn put_pieces(text: &[u8], out: &mut [u8], n: usize)
    requires { (none? (cuttings text.now) ≡ false) × (n ≡ length (pieces_of (cuttings text.now))) × (n ≤ length out.old) }
    ensures { out.new ≡ laid (pieces_of (cuttings text.now)) out.old }
{
    let mut rest = text;
    let mut a = n;
    // from the right: what is left of the text is a piece shorter each turn
    while !rest.is_empty()
        && let Some(p) = last_piece(rest)
    {
        a -= Piece::BYTES;
        out[a] = p.name as u8;
        out[a + 1] = p.count;
        rest = &rest[..p.start];
    }
}
