// Counts, rows, their lookup, the listing and the limits for C, Rust and Python: values and structs that the caller lends.
ghost use Rattle.std.specs.Prelude.{◌≡◌};
ghost use Rattle.scope.specs.Answers.{looks_up, says};
ghost use Rattle.export.specs.Handed.{RowsHanded, LookedUp, MovedOn, the_limits, the_version};

use crate::{number_of, tell_count};
use scope::answers::{Listing, Row, Site};
use scope::refusals::Refusal;
use scope::tables::Limits;

// The listing moved on: 0 with the next placement in it, else the number of the refusal (13, 14, 17, 18) with the listing as it was. It may hold any bytes.
pub fn hwemiduk_next(bytes: &[u8], numbers: &[i64], listing: &mut Listing) -> u8
    ensures { MovedOn bytes.now numbers.now listing.old result listing.new }
{
    number_of(listing::step(bytes, numbers, listing))
}

// The permitted positions as rows, ascending: 0 with their number in `count`, and rows past them as they were; else the number of the refusal (13, 14).
pub fn hwemiduk_rows(bytes: &[u8], numbers: &[i64], rows: &mut [Site], count: &mut usize) -> u8
    ensures { RowsHanded bytes.now numbers.now rows.old count.old result count.new rows.new }
{
    tell_count(listing::rows(bytes, numbers, rows), count)
}

// A lookup, handed out.
fn tell_row(answer: Result<Row, Refusal>, index: &mut usize, position: &mut u16) -> u8
    ensures { LookedUp (says answer) index.old position.old result index.new position.new }
{
    match answer {
        Ok(row) => {
            *index = row.index;
            *position = row.position;
            0
        }
        Err(refusal) => refusal.reason as u8,
    }
}

// The first row of a floater among the first n: 0 with its index and its position; else the number of the refusal (13, 17).
pub fn hwemiduk_first_row(
    rows: &[Site],
    n: usize,
    floater: u8,
    index: &mut usize,
    position: &mut u16,
) -> u8
    ensures { LookedUp (looks_up rows.now n floater) index.old position.old result index.new position.new }
{
    tell_row(rows::first_row(rows, n, floater), index, position)
}

// All limits and sizes.
pub fn hwemiduk_limits(limits: &mut Limits)
    ensures { limits.new ≡ the_limits }
{
    *limits = Limits::new();
}

// The version: 10000 times its first number, 100 times its second, and its third.
pub fn hwemiduk_version() -> u32
    ensures { result ≡ the_version }
{
    100
}
