// The calls over lent areas. Each answers whatever the areas hold: 13 where one is too short, 14 where they are no tables, else its own.
#![tactic(auto)]

ghost use Rattle.std.specs.Prelude.{◌≡◌, ◌≤◌, length, MatchResult};
ghost use Rattle.scope.specs.Layout.{tables_in};
ghost use Rattle.scope.specs.Limits.{copy_limit, row_limit};
ghost use Rattle.scope.specs.Positions.{floaters, floating_of};
ghost use Rattle.scope.specs.Masses.{total};
ghost use Rattle.scope.specs.Placements.{allowed};
ghost use Rattle.areas.specs.Bounds.{Bounds};
ghost use Rattle.scope.specs.Answers.{says, of_good, allowable, moved, requested, residue_count, bracket_count, floater_count, weighed};
ghost use Rattle.calls.specs.Competing.{Competes, WhySays};
ghost use Rattle.calls.specs.Floating.{FloatersSay};
ghost use Rattle.calls.specs.Held.{says_refusal, length_said, held_said, Sized, Held};
ghost use Rattle.calls.specs.Reaching.{ReachedSays};
ghost use Rattle.calls.specs.Rows.{RowsReady};
ghost use Rattle.calls.specs.Writing.{WriteSays};
ghost use Rattle.calls.specs.Says.{CountSays, TotalSays, BracketMassSays, ShownSays, AllowedSays, NextSays, LedgerSays};

use areas::{Bytes, Numbers};
use masses::{as_daltons, ledger_of, weigh};
use positions::{fill_table, find_floaters};
use scope::answers::{Ledger, Listing, Mass, Placement, Shown, Why};
use scope::refusals::{Reason, Refusal};
use scope::tables::Tables;

// The areas of their fixed sizes, at the front of what is lent: 13 "a lent area is shorter than its fixed size".
fn sized<'a>(bytes: &'a [u8], numbers: &'a [i64]) -> Result<(&'a Bytes, &'a Numbers), Refusal>
    ensures { MatchResult result (λ t. Sized bytes.now numbers.now t.0.now t.1.now) (λ e. says_refusal e ≡ length_said bytes.now numbers.now) }
{
    let Some(bytes) = bytes.first_chunk() else {
        return Err(Refusal {
            reason: Reason::ShortArea,
            place: 0,
        });
    };
    let Some(numbers) = numbers.first_chunk() else {
        return Err(Refusal {
            reason: Reason::ShortArea,
            place: 0,
        });
    };
    Ok((bytes, numbers))
}

// The areas, where they hold tables: 13 and 14, which every call over tables tries first.
fn held<'a>(bytes: &'a [u8], numbers: &'a [i64]) -> Result<(&'a Bytes, &'a Numbers), Refusal>
    ensures { MatchResult result (λ t. Held bytes.now numbers.now t.0.now t.1.now) (λ e. says_refusal e ≡ held_said bytes.now numbers.now) }
{
    let (bytes, numbers) = sized(bytes, numbers)?;
    if tabled::are_tables(bytes, numbers) {
        Ok((bytes, numbers))
    } else {
        Err(Refusal {
            reason: Reason::NoTables,
            place: 0,
        })
    }
}

// The canonical line of tables, into an output of any length: how many bytes were written; or a refusal, the output as it was.
pub fn write(bytes: &[u8], numbers: &[i64], out: &mut [u8]) -> Result<usize, Refusal>
    ensures { WriteSays bytes.now numbers.now out.old result out.new }
{
    let (bytes, numbers) = sized(bytes, numbers)?;
    let mut line = [0u8; Tables::LINE];
    let Some(n) = tabled::line_of(bytes, numbers, &mut line) else {
        return Err(Refusal {
            reason: Reason::NoTables,
            place: 0,
        });
    };
    if out.len() < n {
        return Err(Refusal {
            reason: Reason::ShortOutput,
            place: n,
        });
    }
    bounds::copy_bytes(&line, n, out);
    Ok(n)
}

// How many residues there are.
pub fn residue_count(bytes: &[u8], numbers: &[i64]) -> Result<usize, Refusal>
    ensures { CountSays residue_count bytes.now numbers.now result }
{
    let (bytes, _) = held(bytes, numbers)?;
    Ok(areas::residues(bytes))
}

// How many brackets.
pub fn bracket_count(bytes: &[u8], numbers: &[i64]) -> Result<usize, Refusal>
    ensures { CountSays bracket_count bytes.now numbers.now result }
{
    let (bytes, _) = held(bytes, numbers)?;
    Ok(areas::brackets(bytes))
}

// How many floating copies.
pub fn floater_count(bytes: &[u8], numbers: &[i64]) -> Result<usize, Refusal>
    ensures { CountSays floater_count bytes.now numbers.now result }
{
    let (bytes, numbers) = held(bytes, numbers)?;
    Ok(find_floaters(bytes, numbers).count)
}

// The floaters in order, into two slices that have an entry for each there may be: how many there are; or a refusal, the slices as they were.
pub fn floater_brackets(
    bytes: &[u8],
    numbers: &[i64],
    brackets: &mut [u8],
    copies: &mut [u8],
) -> Result<usize, Refusal>
    ensures { FloatersSay bytes.now numbers.now brackets.old copies.old result brackets.new copies.new }
{
    if brackets.len() < Placement::COPIES || copies.len() < Placement::COPIES {
        return Err(Refusal {
            reason: Reason::ShortArea,
            place: 0,
        });
    }
    let (bytes, numbers) = held(bytes, numbers)?;
    let f = find_floaters(bytes, numbers);
    bounds::copy_bytes(&f.index, f.count, brackets);
    bounds::copy_bytes(&f.copy, f.count, copies);
    Ok(f.count)
}

// The positions that the places of bracket k name, ascending, into a slice with an entry for each position there may be: how many; or a refusal, the slice as
// it was.
pub fn reached(bytes: &[u8], numbers: &[i64], k: usize, out: &mut [u16]) -> Result<usize, Refusal>
    ensures { ReachedSays bytes.now numbers.now k out.old result out.new }
{
    if out.len() < Ledger::POSITIONS {
        return Err(Refusal {
            reason: Reason::ShortArea,
            place: 0,
        });
    }
    let (bytes, numbers) = held(bytes, numbers)?;
    if areas::brackets(bytes) <= k {
        return Err(Refusal {
            reason: Reason::NotFound,
            place: 0,
        });
    }
    Ok(brackets::put_reached(bytes, k, out))
}

// The total, where every modification has a mass; 16 and how many lack one.
fn weighed(bytes: &Bytes, numbers: &Numbers) -> Result<i64, Refusal>
    requires { Bounds bytes.now numbers.now }
    ensures { says result ≡ weighed (tables_in bytes.now numbers.now) (total (tables_in bytes.now numbers.now)) }
{
    match weigh(bytes, numbers) {
        Ok(m) => Ok(m),
        Err(lacking) => Err(Refusal {
            reason: Reason::NoMass,
            place: lacking.count,
        }),
    }
}

// The total in millionths.
pub fn total(bytes: &[u8], numbers: &[i64]) -> Result<i64, Refusal>
    ensures { TotalSays bytes.now numbers.now result }
{
    let (bytes, numbers) = held(bytes, numbers)?;
    weighed(bytes, numbers)
}

// A bracket's own mass, in millionths, "stated, only measured, or none": 17 where there is no such bracket.
pub fn bracket_mass(bytes: &[u8], numbers: &[i64], k: usize) -> Result<Mass, Refusal>
    ensures { BracketMassSays bytes.now numbers.now k result }
{
    let (bytes, numbers) = held(bytes, numbers)?;
    if areas::brackets(bytes) <= k {
        return Err(Refusal {
            reason: Reason::NotFound,
            place: 0,
        });
    }
    Ok(masses::bracket_mass(bytes, numbers, k))
}

// "either a mass as a double or the number of modifications without one"
pub fn shown(bytes: &[u8], numbers: &[i64]) -> Shown
    ensures { ShownSays bytes.now numbers.now result }
{
    match held(bytes, numbers) {
        Ok((bytes, numbers)) => match weigh(bytes, numbers) {
            Ok(m) => Shown::Daltons(as_daltons(m)),
            Err(lacking) => Shown::Missing(lacking.count),
        },
        Err(refusal) => Shown::Refused(refusal.reason),
    }
}

// Whether a placement is allowed by the tables. Its first lines are those of `next_by`: the table is filled in place, where one function for both would hand it on by value.
pub fn is_allowed_by(bytes: &Bytes, numbers: &Numbers, p: Placement) -> bool
    requires { (Bounds bytes.now numbers.now) × (length (floaters (tables_in bytes.now numbers.now)) ≤ copy_limit) }
    ensures { result ≡ allowed (floating_of (tables_in bytes.now numbers.now)) p.at }
{
    let f = find_floaters(bytes, numbers);
    let mut tab = [0u8; Placement::ROWS];
    fill_table(bytes, numbers, f, &mut tab);
    placements::is_allowed(&tab, f.copy, f.count, p)
}

// Whether it is: 18.
fn allowable(bytes: &Bytes, numbers: &Numbers, p: Placement) -> Result<(), Refusal>
    requires { (Bounds bytes.now numbers.now) × (length (floaters (tables_in bytes.now numbers.now)) ≤ copy_limit) }
    ensures { says result ≡ allowable (tables_in bytes.now numbers.now) p.at }
{
    if is_allowed_by(bytes, numbers, p) {
        Ok(())
    } else {
        Err(Refusal {
            reason: Reason::NotAllowed,
            place: 0,
        })
    }
}

// Whether a placement is an allowed one.
pub fn is_allowed(bytes: &[u8], numbers: &[i64], p: Placement) -> Result<(), Refusal>
    ensures { AllowedSays bytes.now numbers.now p result }
{
    let (bytes, numbers) = held(bytes, numbers)?;
    allowable(bytes, numbers, p)
}

// The floaters that have too few positions by the tables.
fn competing_by(bytes: &Bytes, numbers: &Numbers) -> Why
    requires { (Bounds bytes.now numbers.now) × (length (floaters (tables_in bytes.now numbers.now)) ≤ copy_limit) }
    ensures { Competes (floating_of (tables_in bytes.now numbers.now)) result }
{
    let f = find_floaters(bytes, numbers);
    let mut tab = [0u8; Placement::ROWS];
    fill_table(bytes, numbers, f, &mut tab);
    reason::competing(&tab, f.count)
}

// Why there is no placement: "a set of floaters whose permitted positions, taken together, are fewer than the set".
pub fn why_none(bytes: &[u8], numbers: &[i64]) -> Result<Why, Refusal>
    ensures { WhySays bytes.now numbers.now result }
{
    let (bytes, numbers) = held(bytes, numbers)?;
    Ok(competing_by(bytes, numbers))
}

// A listing moved on by the tables.
fn next_by(bytes: &Bytes, numbers: &Numbers, l: Listing) -> Result<Listing, Refusal>
    requires { (Bounds bytes.now numbers.now) × (length (floaters (tables_in bytes.now numbers.now)) ≤ copy_limit) }
    ensures { says result ≡ of_good moved (requested (floating_of (tables_in bytes.now numbers.now)) l) }
{
    let f = find_floaters(bytes, numbers);
    let mut tab = [0u8; Placement::ROWS];
    fill_table(bytes, numbers, f, &mut tab);
    placements::request(&tab, f.copy, f.count, l)
}

// "The listing in hand is a small record that each request moves on": the listing after the request.
pub fn next_placement(bytes: &[u8], numbers: &[i64], l: Listing) -> Result<Listing, Refusal>
    ensures { NextSays bytes.now numbers.now l result }
{
    let (bytes, numbers) = held(bytes, numbers)?;
    next_by(bytes, numbers, l)
}

// "The ledger of a placement": 16 before 18.
pub fn ledger(bytes: &[u8], numbers: &[i64], p: Placement) -> Result<Ledger, Refusal>
    ensures { LedgerSays bytes.now numbers.now p result }
{
    let (bytes, numbers) = held(bytes, numbers)?;
    weighed(bytes, numbers)?;
    allowable(bytes, numbers, p)?;
    Ok(ledger_of(bytes, numbers, p))
}

// Before rows are filled in: 13 for their room, then for the areas, and 14; else the table of where each floater may stand, and how many there are.
pub fn table_for(
    bytes: &[u8],
    numbers: &[i64],
    room: usize,
    tab: &mut [u8],
) -> Result<usize, Refusal>
    requires { row_limit ≤ length tab.old }
    ensures { RowsReady bytes.now numbers.now room result tab.new }
{
    if room < Placement::ROWS {
        return Err(Refusal {
            reason: Reason::ShortArea,
            place: 0,
        });
    }
    let (bytes, numbers) = held(bytes, numbers)?;
    let f = find_floaters(bytes, numbers);
    fill_table(bytes, numbers, f, tab);
    Ok(f.count)
}
