// The calls over tables in lent areas: the two areas are only read, and any content of theirs is answered.
ghost use Rattle.std.specs.Prelude.{◌≡◌, ◌≤◌, length, take};
ghost use Rattle.scope.specs.Limits.{copy_limit};
ghost use Rattle.scope.specs.Answers.{counts, residue_count, bracket_count, floater_count, totals, shows, says, says_shown};
ghost use Rattle.calls.specs.Single.{weighs_at};
ghost use Rattle.export.specs.Handed.{Counted};
ghost use Rattle.export.specs.Shapes.{Written, Totalled, Massed, Displayed, AllowedLent, ReadEntered, FloatersHanded, WhyHanded, ReachedHanded};

use crate::{number_of, tell, tell_count, tell_length};
use scope::answers::{Ledger, Mass, Placement, Shown};
use scope::refusals::{Reason, Refusal};

// How many residues there are: 0 and the count; else 13 or 14.
pub fn hwemiduk_residues(bytes: &[u8], numbers: &[i64], count: &mut usize) -> u8
    ensures { Counted (counts bytes.now numbers.now residue_count) count.old result count.new }
{
    tell_count(calls::residue_count(bytes, numbers), count)
}

// How many brackets, likewise.
pub fn hwemiduk_brackets(bytes: &[u8], numbers: &[i64], count: &mut usize) -> u8
    ensures { Counted (counts bytes.now numbers.now bracket_count) count.old result count.new }
{
    tell_count(calls::bracket_count(bytes, numbers), count)
}

// How many floating copies, likewise.
pub fn hwemiduk_floaters(bytes: &[u8], numbers: &[i64], count: &mut usize) -> u8
    ensures { Counted (counts bytes.now numbers.now floater_count) count.old result count.new }
{
    tell_count(calls::floater_count(bytes, numbers), count)
}

// The floaters in order, for each its bracket, counted from 0, and which copy of it it is, counted from 1: 0 with their number, and entries past them as they
// were; else 13, also where a slice has fewer entries than there may be floaters, or 14.
pub fn hwemiduk_floater_brackets(
    bytes: &[u8],
    numbers: &[i64],
    brackets: &mut [u8],
    copies: &mut [u8],
    count: &mut usize,
) -> u8
    ensures { FloatersHanded bytes.now numbers.now brackets.old copies.old count.old result count.new brackets.new copies.new }
{
    tell_count(
        calls::floater_brackets(bytes, numbers, brackets, copies),
        count,
    )
}

// The positions that the places of a bracket name, brackets counted from 0: 0 with their number, ascending in the slice, and entries past them as they were;
// else 13, also where the slice has fewer entries than there may be positions, 14 or 17. A bracket that is no declaration names none.
pub fn hwemiduk_reached(
    bytes: &[u8],
    numbers: &[i64],
    bracket: usize,
    positions: &mut [u16],
    count: &mut usize,
) -> u8
    ensures { ReachedHanded bytes.now numbers.now bracket positions.old count.old result count.new positions.new }
{
    tell_count(calls::reached(bytes, numbers, bracket, positions), count)
}

// Why there is no placement: 0 with how many floaters have too few positions together, none where there is a placement, and their numbers, from 1 and ascending, in the
// slice, with entries past them as they were; else 13, also where the slice has fewer entries than there may be floaters, or 14.
pub fn hwemiduk_why_none(
    bytes: &[u8],
    numbers: &[i64],
    floaters: &mut [u8],
    count: &mut usize,
) -> u8
    ensures { WhyHanded bytes.now numbers.now floaters.old count.old result count.new floaters.new }
{
    if floaters.len() < Placement::COPIES {
        return Reason::ShortArea as u8;
    }
    match calls::why_none(bytes, numbers) {
        Ok(why) => {
            bounds::copy_bytes(&why.at, why.count, floaters);
            *count = why.count;
            0
        }
        Err(refusal) => refusal.reason as u8,
    }
}

// The canonical line into an output of any length: 0 and how many bytes were written, with those behind them as they were; else 15 and the length needed, or 13
// or 14, with the output as it was.
pub fn hwemiduk_write(bytes: &[u8], numbers: &[i64], out: &mut [u8], length: &mut usize) -> u8
    ensures { Written bytes.now numbers.now out.old length.old result length.new out.new }
{
    tell_length(calls::write(bytes, numbers, out), length)
}

// A total, handed out.
fn tell_total(answer: Result<i64, Refusal>, millionths: &mut i64, place: &mut usize) -> u8
    ensures { Totalled (says answer) millionths.old place.old result millionths.new place.new }
{
    match answer {
        Ok(m) => {
            *millionths = m;
            0
        }
        Err(refusal) => {
            *place = refusal.place;
            refusal.reason as u8
        }
    }
}

// The total: 0 and the millionths; else 13, 14 or 16, and in `place` how many modifications lack a mass (16) or 0.
pub fn hwemiduk_total(bytes: &[u8], numbers: &[i64], millionths: &mut i64, place: &mut usize) -> u8
    ensures { Totalled (totals bytes.now numbers.now) millionths.old place.old result millionths.new place.new }
{
    tell_total(calls::total(bytes, numbers), millionths, place)
}

// How a bracket's mass is told to C, by a number: none, stated, only measured.
const NONE: u8 = 0;

const STATED: u8 = 1;

const MEASURED: u8 = 2;

// A bracket's mass, handed out.
fn tell_mass(answer: Result<Mass, Refusal>, millionths: &mut i64, sort: &mut u8) -> u8
    ensures { Massed (says answer) millionths.old sort.old result millionths.new sort.new }
{
    let mass = match answer {
        Ok(mass) => mass,
        Err(refusal) => return refusal.reason as u8,
    };
    (*millionths, *sort) = match mass {
        Mass::Stated(m) => (m, STATED),
        Mass::Measured(m) => (m, MEASURED),
        Mass::None => (0, NONE),
    };
    0
}

// A bracket's own mass, brackets counted from 0: 0 with the millionths and whether they are stated or only measured, or none; else 13, 14 or 17.
pub fn hwemiduk_bracket_mass(
    bytes: &[u8],
    numbers: &[i64],
    bracket: usize,
    millionths: &mut i64,
    sort: &mut u8,
) -> u8
    ensures { Massed (weighs_at bytes.now numbers.now bracket) millionths.old sort.old result millionths.new sort.new }
{
    tell_mass(
        calls::bracket_mass(bytes, numbers, bracket),
        millionths,
        sort,
    )
}

// A display, handed out.
fn tell_shown(shown: Shown, daltons: &mut f64, missing: &mut usize) -> u8
    ensures { Displayed (says_shown shown) daltons.old missing.old result daltons.new missing.new }
{
    match shown {
        Shown::Daltons(x) => {
            *daltons = x;
            *missing = 0;
            0
        }
        Shown::Missing(n) => {
            *daltons = 0.0;
            *missing = n;
            0
        }
        Shown::Refused(reason) => reason as u8,
    }
}

// The total for display: 0 with the mass and none missing, or with 0.0 and how many lack one; else 13 or 14.
pub fn hwemiduk_shown(bytes: &[u8], numbers: &[i64], daltons: &mut f64, missing: &mut usize) -> u8
    ensures { Displayed (shows bytes.now numbers.now) daltons.old missing.old result daltons.new missing.new }
{
    tell_shown(calls::shown(bytes, numbers), daltons, missing)
}

// The placement that a slice begins with.
pub fn placement_in(s: &[u16]) -> Placement
    requires { copy_limit ≤ length s.now }
    ensures { result.at ≡ take copy_limit s.now }
{
    let mut at = [0u16; Placement::COPIES];
    at.copy_from_slice(&s[..Placement::COPIES]);
    Placement { at }
}

// Whether the placement in the first eight entries is an allowed one: 0, or 13, 14, 18.
pub fn hwemiduk_allowed(bytes: &[u8], numbers: &[i64], placement: &[u16]) -> u8
    ensures { AllowedLent bytes.now numbers.now placement.now result }
{
    if placement.len() < Placement::COPIES {
        return Reason::ShortArea as u8;
    }
    number_of(calls::is_allowed(bytes, numbers, placement_in(placement)))
}

// The ledger of the placement in the first eight entries: 0 with an entry written for each position; else 13, 14, 16 or 18, the entries as they were, and in `place`
// how many modifications lack a mass (16) or 0.
pub fn hwemiduk_ledger(
    bytes: &[u8],
    numbers: &[i64],
    placement: &[u16],
    entries: &mut [i64],
    place: &mut usize,
) -> u8
    ensures { ReadEntered bytes.now numbers.now placement.now entries.old place.old result place.new entries.new }
{
    if placement.len() < Placement::COPIES || entries.len() < Ledger::POSITIONS {
        *place = 0;
        return Reason::ShortArea as u8;
    }
    match calls::ledger(bytes, numbers, placement_in(placement)) {
        Ok(ledger) => {
            entries[..Ledger::POSITIONS].copy_from_slice(&ledger.at);
            0
        }
        Err(refusal) => {
            *place = refusal.place;
            refusal.reason as u8
        }
    }
}
