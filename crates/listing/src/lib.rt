// What is handed out through lent structs: the permitted positions as rows, and the listing moved on in place.
#![tactic(auto)]

ghost use Rattle.listing.specs.Says.{RowsSays, StepSays};

use scope::answers::{Listing, Placement, Site};
use scope::refusals::Refusal;

// The permitted positions as rows, ascending, with their number.
pub fn rows(bytes: &[u8], numbers: &[i64], room: &mut [Site]) -> Result<usize, Refusal>
    ensures { RowsSays bytes.now numbers.now room.old result room.new }
{
    let mut tab = [0u8; Placement::ROWS];
    let floaters = calls::table_for(bytes, numbers, room.len(), &mut tab)?;
    Ok(rows::fill_rows(&tab, floaters, room))
}

// The listing moved on, in place.
pub fn step(bytes: &[u8], numbers: &[i64], listing: &mut Listing) -> Result<(), Refusal>
    ensures { StepSays bytes.now numbers.now listing.old result listing.new }
{
    *listing = calls::next_placement(bytes, numbers, *listing)?;
    Ok(())
}
