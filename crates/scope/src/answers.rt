// What the calls hand out, and what they are lent besides the areas. A call answers `Ok` with it, or `Err` with a refusal. What is said by an answer: specs/Answers.antt.
ghost use Rattle.std.specs.Prelude.{◌≡◌, replicate};
ghost use Rattle.scope.specs.Limits.{copy_limit};
ghost use Rattle.scope.specs.Placements.{fresh_listing};

use crate::refusals::Reason;
use crate::tables::Tables;

// The mass of a bracket: "stated, only measured, or none" (02, L6). Of the two that are a mass each tells which it is, so this is no Option.
#[derive(Clone, Copy, Debug, PartialEq, Eq)]
pub enum Mass {
    Stated(i64),
    Measured(i64),
    None,
}

// A row of floater and position.
#[repr(C)]
#[derive(Clone, Copy, Debug, PartialEq, Eq)]
pub struct Site {
    pub floater: u8,
    pub position: u16,
}

// The first row of a floater: its number among the rows, and its position.
#[derive(Clone, Copy, Debug, PartialEq, Eq)]
pub struct Row {
    pub index: usize,
    pub position: u16,
}

// A placement: the position of each floating copy, unused entries 0.
#[repr(C)]
#[derive(Clone, Copy, Debug, PartialEq, Eq)]
pub struct Placement {
    pub at: [u16; Placement::COPIES],
}

impl Placement {
    // "floating copies 8"
    pub const COPIES: usize = 8;

    // "room is 2,048 rows": eight copies, each on any of 256 positions.
    pub const ROWS: usize = Self::COPIES * Ledger::POSITIONS;

    // With no floater there is one placement, all zeros.
    pub fn none() -> Self
        ensures { result.at ≡ replicate copy_limit 0 }
    {
        Self {
            at: [0; Self::COPIES],
        }
    }
}

// Why there is no placement: how many floaters have too few positions together, none where there is a placement; and their numbers, ascending, unused entries 0.
// An array and how many of it count, as in the C interface: nothing is allocated.
#[derive(Clone, Copy, Debug, PartialEq, Eq)]
pub struct Why {
    pub count: usize,
    pub at: [u8; Placement::COPIES],
}

// The listing in hand: marked fresh, with zeros; or unmarked, with the placement last handed out.
#[repr(C)]
#[derive(Clone, Copy, Debug, PartialEq, Eq)]
pub struct Listing {
    pub at: [u16; Placement::COPIES],
    pub mark: u8,
}

impl Listing {
    // the marks of a record, which a caller may have filled with any byte
    pub const FRESH: u8 = 1;

    pub const UNMARKED: u8 = 0;

    pub fn new() -> Self
        ensures { result ≡ fresh_listing }
    {
        Self {
            at: [0; Placement::COPIES],
            mark: Self::FRESH,
        }
    }
}

// The ledger of a placement: an entry for each position.
#[derive(Clone, Copy, Debug, PartialEq, Eq)]
pub struct Ledger {
    pub at: [i64; Ledger::POSITIONS],
}

impl Ledger {
    // "one entry for each of the 256 positions"
    pub const POSITIONS: usize = Tables::RESIDUES + 2;
}

// The total for display: "either a mass as a double or the number of modifications without one". Document 01 names this enum of three, so it is no Result; of doubles there is no `Eq`.
#[derive(Clone, Copy, Debug)]
pub enum Shown {
    Daltons(f64),
    Missing(usize),
    Refused(Reason),
}
