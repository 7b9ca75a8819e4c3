// The register kept in blocks (02, L5): what its calls hand out. Definitions: specs/, to be read in the order of its Lib.antt.
#![tactic(auto)]

use scope::answers::Placement;

// An entry that was fetched: how many bytes its line has, which lie in the output that was lent, and its placement.
#[derive(Clone, Copy, Debug, PartialEq, Eq)]
pub struct Fetched {
    pub size: usize,
    pub at: [u16; Placement::COPIES],
}

// An entry in the listing: its first block and its number.
#[derive(Clone, Copy, Debug, PartialEq, Eq)]
pub struct Listed {
    pub block: usize,
    pub number: u32,
}

// How many blocks of an area are free, first and further ones of entries, of no such kind, and unsound.
#[derive(Clone, Copy, Debug, PartialEq, Eq)]
pub struct Survey {
    pub free: usize,
    pub first: usize,
    pub further: usize,
    pub other: usize,
    pub unsound: usize,
}
