// The calls over tables in lent areas: the two areas are only read, and any content of theirs is answered.
ghost use Rattle.std.specs.Prelude.{length};
ghost use Rattle.scope.specs.Answers.{counts, residue_count, bracket_count, floater_count, totals, shows};
ghost use Rattle.calls.specs.Single.{weighs_at};
ghost use Rattle.export.specs.Handed.{Counted};
ghost use Rattle.export.specs.Shapes.{Written, Totalled, Massed, Displayed, AllowedLent, ReadEntered, FloatersHanded, WhyHanded, ReachedHanded};

// How many residues there are: 0 and the count; else 13 or 14.
#[unsafe(no_mangle)]
pub extern "C" fn hwemiduk_residues(bytes: &[u8], numbers: &[i64], count: &mut usize) -> u8
    ensures { Counted (counts bytes.now numbers.now residue_count) count.old result count.new }
{
    export::tables::hwemiduk_residues(bytes, numbers, count)
}

// How many brackets, likewise.
#[unsafe(no_mangle)]
pub extern "C" fn hwemiduk_brackets(bytes: &[u8], numbers: &[i64], count: &mut usize) -> u8
    ensures { Counted (counts bytes.now numbers.now bracket_count) count.old result count.new }
{
    export::tables::hwemiduk_brackets(bytes, numbers, count)
}

// How many floating copies, likewise.
#[unsafe(no_mangle)]
pub extern "C" fn hwemiduk_floaters(bytes: &[u8], numbers: &[i64], count: &mut usize) -> u8
    ensures { Counted (counts bytes.now numbers.now floater_count) count.old result count.new }
{
    export::tables::hwemiduk_floaters(bytes, numbers, count)
}

// The floaters in order, for each its bracket, counted from 0, and which copy of it it is, counted from 1: 0 with their number, and entries past them as they
// were; else 13, also where a slice has fewer entries than there may be floaters, or 14.
#[unsafe(no_mangle)]
pub extern "C" fn hwemiduk_floater_brackets(
    bytes: &[u8],
    numbers: &[i64],
    brackets: &mut [u8],
    copies: &mut [u8],
    count: &mut usize,
) -> u8
    ensures { FloatersHanded bytes.now numbers.now brackets.old copies.old count.old result count.new brackets.new copies.new }
{
    export::tables::hwemiduk_floater_brackets(bytes, numbers, brackets, copies, count)
}

// The positions that the places of a bracket name, brackets counted from 0: 0 with their number, ascending in the slice, and entries past them as they were;
// else 13, also where the slice has fewer entries than there may be positions, 14 or 17. A bracket that is no declaration names none.
#[unsafe(no_mangle)]
pub extern "C" fn hwemiduk_reached(
    bytes: &[u8],
    numbers: &[i64],
    bracket: usize,
    positions: &mut [u16],
    count: &mut usize,
) -> u8
    ensures { ReachedHanded bytes.now numbers.now bracket positions.old count.old result count.new positions.new }
{
    export::tables::hwemiduk_reached(bytes, numbers, bracket, positions, count)
}

// Why there is no placement: 0 with how many floaters have too few positions together, none where there is a placement, and their numbers, from 1 and ascending, in the
// slice, with entries past them as they were; else 13, also where the slice has fewer entries than there may be floaters, or 14.
#[unsafe(no_mangle)]
pub extern "C" fn hwemiduk_why_none(
    bytes: &[u8],
    numbers: &[i64],
    floaters: &mut [u8],
    count: &mut usize,
) -> u8
    ensures { WhyHanded bytes.now numbers.now floaters.old count.old result count.new floaters.new }
{
    export::tables::hwemiduk_why_none(bytes, numbers, floaters, count)
}

// The canonical line into an output of any length: 0 and how many bytes were written, with those behind them as they were; else 15 and the length needed, or 13
// or 14, with the output as it was.
#[unsafe(no_mangle)]
pub extern "C" fn hwemiduk_write(
    bytes: &[u8],
    numbers: &[i64],
    out: &mut [u8],
    length: &mut usize,
) -> u8
    ensures { Written bytes.now numbers.now out.old length.old result length.new out.new }
{
    export::tables::hwemiduk_write(bytes, numbers, out, length)
}

// The total: 0 and the millionths; else 13, 14 or 16, and in `place` how many modifications lack a mass (16) or 0.
#[unsafe(no_mangle)]
pub extern "C" fn hwemiduk_total(
    bytes: &[u8],
    numbers: &[i64],
    millionths: &mut i64,
    place: &mut usize,
) -> u8
    ensures { Totalled (totals bytes.now numbers.now) millionths.old place.old result millionths.new place.new }
{
    export::tables::hwemiduk_total(bytes, numbers, millionths, place)
}

// A bracket's own mass, brackets counted from 0: 0 with the millionths and whether they are stated or only measured, or none; else 13, 14 or 17.
#[unsafe(no_mangle)]
pub extern "C" fn hwemiduk_bracket_mass(
    bytes: &[u8],
    numbers: &[i64],
    bracket: usize,
    millionths: &mut i64,
    sort: &mut u8,
) -> u8
    ensures { Massed (weighs_at bytes.now numbers.now bracket) millionths.old sort.old result millionths.new sort.new }
{
    export::tables::hwemiduk_bracket_mass(bytes, numbers, bracket, millionths, sort)
}

// The total for display: 0 with the mass and none missing, or with 0.0 and how many lack one; else 13 or 14.
#[unsafe(no_mangle)]
pub extern "C" fn hwemiduk_shown(
    bytes: &[u8],
    numbers: &[i64],
    daltons: &mut f64,
    missing: &mut usize,
) -> u8
    ensures { Displayed (shows bytes.now numbers.now) daltons.old missing.old result daltons.new missing.new }
{
    export::tables::hwemiduk_shown(bytes, numbers, daltons, missing)
}

// Whether the placement in the first eight entries is an allowed one: 0, or 13, 14, 18.
#[unsafe(no_mangle)]
pub extern "C" fn hwemiduk_allowed(bytes: &[u8], numbers: &[i64], placement: &[u16]) -> u8
    ensures { AllowedLent bytes.now numbers.now placement.now result }
{
    export::tables::hwemiduk_allowed(bytes, numbers, placement)
}

// The ledger of the placement in the first eight entries: 0 with an entry written for each position; else 13, 14, 16 or 18, the entries as they were, and in `place`
// how many modifications lack a mass (16) or 0.
#[unsafe(no_mangle)]
pub extern "C" fn hwemiduk_ledger(
    bytes: &[u8],
    numbers: &[i64],
    placement: &[u16],
    entries: &mut [i64],
    place: &mut usize,
) -> u8
    ensures { ReadEntered bytes.now numbers.now placement.now entries.old place.old result place.new entries.new }
{
    export::tables::hwemiduk_ledger(bytes, numbers, placement, entries, place)
}
