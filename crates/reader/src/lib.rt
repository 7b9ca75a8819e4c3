// Reading a line into the lent areas.
#![tactic(auto)]

ghost use Rattle.std.specs.Prelude.{◌+◌, ◌≤◌, ◌≡◌, length, ℕ};
ghost use Rattle.scope.specs.Line.{Line};
ghost use Rattle.sheet.specs.Kept.{LineNoted};
ghost use Rattle.reader.specs.ReadSays.{ReadSays, HoldSome, Stored, Wiped, wiped};

use areas::{Bytes, Numbers};
use scope::refusals::{Reason, Refusal};
use scope::tables::Tables;
use sheet::Sheet;

// A lent area that is shorter than its fixed size.
const SHORT: Refusal = Refusal {
    reason: Reason::ShortArea,
    place: 0,
};

// n zeros from a place on.
fn zero_from(bytes: &mut Bytes, from: usize, n: usize)
    requires { from + n ≤ length bytes.old }
    ensures { bytes.new ≡ wiped 0 from n bytes.old }
{
    bytes[from..from + n].fill(0);
}

// Areas that hold the tables of an accepted line of n bytes, clean again: only what such a line uses is written to.
pub fn wipe(n: usize, bytes: &mut Bytes, numbers: &mut Numbers)
    requires { HoldSome n bytes.old numbers.old }
    ensures { Wiped bytes.old numbers.old bytes.new numbers.new }
{
    let residues = areas::residues(bytes);
    let brackets = areas::brackets(bytes);
    zero_from(bytes, 0, Tables::LETTERS + residues);
    zero_from(bytes, Tables::SECTIONS, residues);
    zero_from(bytes, Tables::ROWS, brackets * Tables::ROW);
    zero_from(bytes, Tables::TEXTS, n);
    numbers[..brackets * Tables::MASSES].fill(0);
}

// An accepted line's tables, from the sheet into areas that held anything.
fn store_anew(
    line: &[u8],
    sheet: &Sheet,
    residues: usize,
    brackets: usize,
    bytes: &mut Bytes,
    numbers: &mut Numbers,
)
    requires { (l : Line ℕ) × LineNoted line.now sheet.now residues brackets l }
    ensures { Stored line.now bytes.old numbers.old bytes.new numbers.new }
{
    bytes.fill(0);
    numbers.fill(0);
    store::store(line, sheet, residues, brackets, bytes, numbers);
}

// Any line of bytes, into areas that have room: the verdict, and where the line is accepted its tables, from what the walk has noted.
fn read_roomy(line: &[u8], bytes: &mut Bytes, numbers: &mut Numbers) -> Result<(), Refusal>
    ensures { ReadSays line.now bytes.old numbers.old result bytes.new numbers.new }
{
    let mut sheet = Sheet::new();
    let noted = verdict::judge(line, &mut sheet)?;
    store_anew(line, &sheet, noted.residues, noted.brackets, bytes, numbers);
    Ok(())
}

// Any line of bytes, into any areas: accepted, with the line's tables in the areas; or refused, and nothing changed.
pub fn read(line: &[u8], bytes: &mut [u8], numbers: &mut [i64]) -> Result<(), Refusal>
    ensures { ReadSays line.now bytes.old numbers.old result bytes.new numbers.new }
{
    let Some(bytes) = bytes.first_chunk_mut() else {
        return Err(SHORT);
    };
    let Some(numbers) = numbers.first_chunk_mut() else {
        return Err(SHORT);
    };
    read_roomy(line, bytes, numbers)
}
