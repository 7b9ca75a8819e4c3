// The register kept in blocks (02, L5): the bytes of a block. Definitions: crates/blocks/specs.
use crate::tables::Tables;

// What stands at the front of a block: its kind, how many bytes of content it has, the block behind it in its entry, and the entry's number.
#[derive(Clone, Copy, Debug, PartialEq, Eq)]
pub struct Block {
    pub kind: u8,
    pub used: usize,
    pub next: u8,
    pub number: u32,
}

impl Block {
    // "at most 128 blocks of 512 bytes"
    pub const SIZE: usize = 512;

    pub const MOST: usize = 128;

    // where the used length, the next block, the number, the content and the sum stand; the kind is byte 0
    pub const USED_AT: usize = 1;

    pub const NEXT_AT: usize = 3;

    pub const NUMBER_AT: usize = 4;

    pub const CONTENT_AT: usize = 8;

    // "8 to 507 content"
    pub const ROOM: usize = 500;

    pub const SUM_AT: usize = Self::CONTENT_AT + Self::ROOM;

    // "(1 free, 2 first of an entry, 3 further)": of a block that is not sound the byte may be any, so these are numbers
    pub const FREE: u8 = 1;

    pub const FIRST: u8 = 2;

    pub const FURTHER: u8 = 3;

    // "(255 none)"
    pub const NONE: u8 = 255;

    // "eight position bytes": of a first block of kind 2
    pub const POSITIONS: usize = 8;

    // So much content has an entry at most, and it takes so many blocks.
    pub const CONTENT: usize = Self::POSITIONS + Tables::LINE;

    pub const CHAIN: usize = (Self::CONTENT + Self::ROOM - 1) / Self::ROOM;
}
