// The permitted positions as rows of floater and position, in a lent slice of structs: one fill and one first-row lookup.
#![tactic(auto)]

ghost use Rattle.std.specs.Prelude.{◌≡◌, ◌*◌, ◌<◌, ◌≤◌, length};
ghost use Rattle.scope.specs.Limits.{row_limit, position_limit};
ghost use Rattle.scope.specs.Lists.{laid};
ghost use Rattle.scope.specs.Positions.{rows_from};
ghost use Rattle.areas.specs.Floats.{lists_in, Sized};
ghost use Rattle.rows.specs.Places.{site_of};
ghost use Rattle.rows.specs.Says.{LookupSays};

use scope::answers::{Ledger, Placement, Row, Site};
use scope::refusals::{Reason, Refusal};

// The row of a place in the table.
fn site_of(at: usize) -> Site
    requires { at < row_limit }
    ensures { result ≡ site_of at }
{
    Site {
        floater: (at / Ledger::POSITIONS + 1) as u8,
        position: (at % Ledger::POSITIONS) as u16,
    }
}

// The rows of so many floaters are filled in, and counted: a row for each byte of the table that is 1.
pub fn fill_rows(tab: &[u8], count: usize, out: &mut [Site]) -> usize
    requires { (Sized tab.now count) × (count * position_limit ≤ length out.old) }
    ensures { (result ≡ length (rows_from 1 (lists_in tab.now count))) × (out.new ≡ laid (rows_from 1 (lists_in tab.now count)) out.old) }
{
    let mut i: usize = 0;
    for at in 0..count * Ledger::POSITIONS {
        if tab[at] == 1 {
            out[i] = site_of(at);
            i += 1;
        }
    }
    i
}

// "the index (from 0) and the position of a floater's first row among the first so many"
pub fn first_row(rows: &[Site], n: usize, floater: u8) -> Result<Row, Refusal>
    ensures { LookupSays rows.now n floater result }
{
    if rows.len() < Placement::ROWS {
        return Err(Refusal {
            reason: Reason::ShortArea,
            place: 0,
        });
    }
    let some = &rows[..n.min(Placement::ROWS)];
    for (index, row) in some.iter().enumerate() {
        if row.floater == floater {
            return Ok(Row {
                index,
                position: row.position,
            });
        }
    }
    Err(Refusal {
        reason: Reason::NotFound,
        place: 0,
    })
}
