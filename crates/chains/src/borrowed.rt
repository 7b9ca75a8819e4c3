// Areas of whole blocks that are lent to be read, and what is told of a chain of blocks.
ghost use Rattle.std.specs.Prelude.{◌≤◌};
ghost use Rattle.blocks.specs.Sizes.{chain_most, chain_room};
ghost use Rattle.chains.specs.Whole.{Whole};

use scope::blocks::Block;

// An area of 1 to 128 whole blocks: its bytes, and how many blocks it has.
#[derive(Clone, Copy, Debug, PartialEq, Eq)]
pub struct Area<'a> {
    pub bytes: &'a [u8],
    pub blocks: usize,
    ghost whole: { Whole bytes.now blocks },
}

// The chain of an entry: how many blocks it has, how many bytes of content, and the blocks in order at the front of a row:
// nothing is allocated.
#[derive(Clone, Copy, Debug, PartialEq, Eq)]
pub struct Chain {
    pub many: usize,
    pub long: usize,
    pub row: [u8; Block::CHAIN],
    ghost few: { many ≤ chain_most },
    ghost fits: { long ≤ chain_room },
}
