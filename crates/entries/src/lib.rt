// The register's entries: what it prints for a line. The verdict leaves the line noted in the sheet, and its tables come from there. The areas are lent clean and
// given back clean, and what the verdict has shown of the tables is not tried again.
#![tactic(auto)]

ghost use Rattle.std.specs.Prelude.{◌≡◌, ◌∷◌, ◌+◌, ◌≤◌, nat_abs, length};
ghost use Rattle.scope.specs.Canonical.{decimal};
ghost use Rattle.scope.specs.Register.{signed_text, total_text, fields, report};
ghost use Rattle.scope.specs.Refusals.{outcome};
ghost use Rattle.scope.specs.Answers.{reason_number};
ghost use Rattle.scope.specs.Layout.{tables_in};
ghost use Rattle.store.specs.Filled.{Clean, Fills};
ghost use Rattle.figures.specs.Written.{Puts, ceiling};
ghost use Rattle.entries.specs.Entry.{entry, field_most, weight_most, refused_most, counts_most, total_most, accepted_most, tables_most, entry_limit, count_fields, ok_fields, no_fields, weight_text, is_refused, Known, Floats, Printed};

use areas::{Bytes, Numbers};
use figures::DIGITS;
use masses::{Lacking, weigh};
use reader::wipe;
use scope::refusals::{Reason, Refusal};
use scope::tables::Tables;
use sheet::Sheet;
use store::store;
use verdict::{Noted, judge};

// "Byte 10 ends a line"
pub const NEWLINE: u8 = 10;

// A number with a byte before it has at most so many.
const FIELD: usize = 1 + DIGITS;

// An entry has at most so many bytes: the line's number; `ok`, three numbers, the total and the canonical line, each with a space before it; byte 10.
pub const ENTRY: usize = DIGITS + (3 + 3 * FIELD) + (1 + FIELD) + (1 + Tables::LINE) + 1;

// ---- fields, each with a space before it

fn put_field(n: u64, out: &mut [u8], at: usize) -> usize
    requires { at + field_most ≤ ceiling }
    ensures { Puts field_most out.old at (32 ∷ decimal n) out.new result }
{
    let a = figures::put(out, at, b' ');
    figures::put_decimal(n, out, a)
}

// `-` of a number below zero, else `+`.
fn sign(m: i64) -> u8
    ensures { result ∷ decimal (nat_abs m) ≡ signed_text m }
{
    if m < 0 { b'-' } else { b'+' }
}

// "signed, zero as `+0`"
fn put_signed(m: i64, out: &mut [u8], at: usize) -> usize
    requires { at + weight_most ≤ ceiling }
    ensures { Puts weight_most out.old at (signed_text m) out.new result }
{
    let a = figures::put(out, at, sign(m));
    figures::put_decimal(figures::magnitude(m), out, a)
}

// The total, or `?` and how many lack a mass.
fn put_weight(w: Result<i64, Lacking>, out: &mut [u8], at: usize) -> usize
    requires { at + weight_most ≤ ceiling }
    ensures { Puts weight_most out.old at (weight_text w) out.new result }
{
    match w {
        Ok(m) => put_signed(m, out, at),
        Err(lacking) => {
            let a = figures::put(out, at, b'?');
            figures::put_decimal(lacking.count as u64, out, a)
        }
    }
}

// ---- "no, number, place"

// A function of its own: what a cast gives is known to its caller by a clause.
fn number_of(reason: Reason) -> u8
    ensures { result ≡ reason_number reason }
{
    reason as u8
}

fn put_refused(refusal: Refusal, out: &mut [u8], at: usize) -> usize
    requires { at + refused_most ≤ ceiling }
    ensures { Puts refused_most out.old at (fields (no_fields (reason_number refusal.reason) refusal.place)) out.new result }
{
    let a = figures::word(b" no", out, at);
    let b = put_field(number_of(refusal.reason) as u64, out, a);
    put_field(refusal.place as u64, out, b)
}

// ---- "ok, residues, brackets, floaters, total .., canonical line"

// The word and the three numbers.
fn put_counts(noted: Noted, out: &mut [u8], at: usize) -> usize
    requires { at + counts_most ≤ ceiling }
    ensures { Puts counts_most out.old at (fields (count_fields noted)) out.new result }
{
    let a = figures::word(b" ok", out, at);
    let b = put_field(noted.residues as u64, out, a);
    let c = put_field(noted.brackets as u64, out, b);
    put_field(noted.floaters as u64, out, c)
}

// The total of the tables.
fn put_total(bytes: &Bytes, numbers: &Numbers, out: &mut [u8], at: usize) -> usize
    requires { Known bytes.now numbers.now × (at + total_most ≤ ceiling) }
    ensures { Puts total_most out.old at (32 ∷ total_text (tables_in bytes.now numbers.now)) out.new result }
{
    let a = figures::put(out, at, b' ');
    put_weight(weigh(bytes, numbers), out, a)
}

// Of tables that are known to be those of an accepted line, and the three numbers.
fn put_accepted(bytes: &Bytes, numbers: &Numbers, noted: Noted, out: &mut [u8], at: usize) -> usize
    requires { Known bytes.now numbers.now × (at + tables_most ≤ ceiling) }
    ensures { Puts accepted_most out.old at (fields (ok_fields noted (tables_in bytes.now numbers.now))) out.new result }
{
    let a = put_counts(noted, out, at);
    let b = put_total(bytes, numbers, out, a);
    let c = figures::put(out, b, b' ');
    writer::put_line(bytes, numbers, out, c)
}

// Of an accepted line that is noted in the sheet and has so many floaters, by way of its tables.
fn put_taken(
    line: &[u8],
    sheet: &Sheet,
    noted: Noted,
    bytes: &mut Bytes,
    numbers: &mut Numbers,
    out: &mut [u8],
    at: usize,
) -> usize
    requires { Fills line.now sheet.now noted.residues noted.brackets bytes.old numbers.old × Floats line.now noted.floaters × (at + tables_most ≤ ceiling) }
    ensures { Printed accepted_most out.old at (report (outcome line.now)) out.new result bytes.old numbers.old bytes.new numbers.new }
{
    store(line, sheet, noted.residues, noted.brackets, bytes, numbers);
    let next = put_accepted(bytes, numbers, noted, out, at);
    wipe(line.len(), bytes, numbers);
    next
}

// ---- the entry

// Where the entry ends in the output, and whether the line is refused: a refused one has an entry too.
#[derive(Clone, Copy, Debug, PartialEq, Eq)]
pub struct Entered {
    pub next: usize,
    pub refused: bool,
}

// What is printed behind the number: of an accepted line by way of its tables, of a refused one the refusal.
fn put_report(
    line: &[u8],
    sheet: &mut Sheet,
    bytes: &mut Bytes,
    numbers: &mut Numbers,
    out: &mut [u8],
    at: usize,
) -> Entered
    requires { Clean bytes.old numbers.old × (at + tables_most ≤ ceiling) }
    ensures { Printed accepted_most out.old at (report (outcome line.now)) out.new result.next bytes.old numbers.old bytes.new numbers.new × (result.refused ≡ is_refused (outcome line.now)) }
{
    match judge(line, sheet) {
        Ok(noted) => Entered {
            next: put_taken(line, sheet, noted, bytes, numbers, out, at),
            refused: false,
        },
        Err(refusal) => Entered {
            next: put_refused(refusal, out, at),
            refused: true,
        },
    }
}

// The entry, at the front of an output.
fn put_front(
    number: u64,
    line: &[u8],
    sheet: &mut Sheet,
    bytes: &mut Bytes,
    numbers: &mut Numbers,
    out: &mut [u8],
) -> Entered
    requires { Clean bytes.old numbers.old }
    ensures { Printed entry_limit out.old 0 (entry number line.now) out.new result.next bytes.old numbers.old bytes.new numbers.new × (result.refused ≡ is_refused (outcome line.now)) }
{
    let a = figures::put_decimal(number, out, 0);
    let e = put_report(line, sheet, bytes, numbers, out, a);
    Entered {
        next: figures::put(out, e.next, NEWLINE),
        ..e
    }
}

// What the register prints for a line, and byte 10, from a place of the output on, and whether the line is refused. The line is noted in the sheet, which
// may hold anything. The areas are zero, and they are left as they were.
pub fn put_entry(
    number: u64,
    line: &[u8],
    sheet: &mut Sheet,
    bytes: &mut Bytes,
    numbers: &mut Numbers,
    out: &mut [u8],
    at: usize,
) -> Entered
    requires { Clean bytes.old numbers.old × (at + entry_limit ≤ length out.old) }
    ensures { Printed entry_limit out.old at (entry number line.now) out.new result.next bytes.old numbers.old bytes.new numbers.new × (result.refused ≡ is_refused (outcome line.now)) }
{
    let e = put_front(number, line, sheet, bytes, numbers, &mut out[at..]);
    Entered {
        next: at + e.next,
        ..e
    }
}
