// Refusal 14: whether the areas hold tables that some accepted line reads to. They may hold anything.
#![tactic(auto)]

ghost use Rattle.std.specs.Prelude.{◌≡◌, ◌≤◌, length, take};
ghost use Rattle.scope.specs.Refusals.{outcome};
ghost use Rattle.scope.specs.Layout.{bytes_size, numbers_size, tables_in};
ghost use Rattle.scope.specs.Answers.{reads_to, are_tables};
ghost use Rattle.areas.specs.Bounds.{Bounds};
ghost use Rattle.writer.specs.Ranks.{InOrder};
ghost use Rattle.tabled.specs.LineOf.{LineOf};

use areas::{Bytes, Numbers};
use bounds::in_bounds;
use scope::tables::Tables;
use sheet::Sheet;
use writer::{in_order, write_line};

// Room for any line that is accepted.
pub type Line = [u8; Tables::LINE];

// Does a line read to what the areas hold?
fn reads_to(line: &[u8], bytes: &Bytes, numbers: &Numbers) -> bool
    ensures { result ≡ reads_to (outcome line.now) (take bytes_size bytes.now) (take numbers_size numbers.now) }
{
    let mut sheet = Sheet::new();
    match verdict::judge(line, &mut sheet) {
        Ok(noted) => held::holds(line, &sheet, noted.residues, noted.brackets, bytes, numbers),
        Err(_) => false,
    }
}

// The length of the canonical line of what the areas hold, where it reads to them. Their numbers keep to their bounds, their brackets to their order.
fn line_back(bytes: &Bytes, numbers: &Numbers, line: &mut Line) -> Option<usize>
    requires { Bounds bytes.now numbers.now × InOrder (tables_in bytes.now numbers.now) }
    ensures { LineOf bytes.now numbers.now line.new result }
{
    let n = write_line(bytes, numbers, line);
    if n <= Tables::LINE && reads_to(&line[..n], bytes, numbers) {
        Some(n)
    } else {
        None
    }
}

// The canonical line of tables, and its length; none where the areas are no tables of an accepted line.
pub fn line_of(bytes: &Bytes, numbers: &Numbers, line: &mut Line) -> Option<usize>
    ensures { LineOf bytes.now numbers.now line.new result }
{
    if in_bounds(bytes, numbers) && in_order(bytes) {
        line_back(bytes, numbers, line)
    } else {
        None
    }
}

// Are the areas tables of an accepted line?
pub fn are_tables(bytes: &Bytes, numbers: &Numbers) -> bool
    ensures { result ≡ are_tables bytes.now numbers.now }
{
    let mut line = [0u8; Tables::LINE];
    line_of(bytes, numbers, &mut line).is_some()
}
