// The blocks of an area: the first blocks of an entry, and its chain gathered. A block is lent as a part of the area.
#![tactic(auto)]

ghost use Rattle.std.specs.Prelude.{◌≡◌, ◌+◌, ◌≤◌, ◌<◌, true, false, length, take, MatchOption};
ghost use Rattle.scope.specs.Lists.{part};
ghost use Rattle.blocks.specs.Block.{content_at, content_room, block_kind, entry_number};
ghost use Rattle.blocks.specs.Area.{whole_blocks, block_at, sound_at, all_sound, carries, firsts, is_free, put_at};
ghost use Rattle.blocks.specs.Chain.{links};
ghost use Rattle.blocks.specs.Answers.{is_head};
ghost use Rattle.chains.specs.Whole.{is_first_of, FirstOf};
ghost use Rattle.chains.specs.Says.{how_many, Gathers};

mod borrowed;

pub use crate::borrowed::{Area, Chain};
use scope::blocks::Block;

// The room that the content of a chain takes.
pub const ROOM: usize = Block::CHAIN * Block::ROOM;

// The sound first blocks of an entry: none, one, or more, which are not told apart and are no value.
#[derive(Clone, Copy, Debug, PartialEq, Eq)]
pub enum Firsts {
    Nothing,
    One(usize),
    Several,
}

impl Chain {
    // Its blocks, in order.
    pub fn in_order(&self) -> &[u8]
        ensures { result.now ≡ take self.now.many self.now.row }
    {
        &self.row[..self.many]
    }
}

// The content of a block, m bytes, into a room from a place on.
fn copy_content(block: &[u8; Block::SIZE], m: usize, room: &mut [u8], at: usize)
    requires { (m ≤ content_room) × (at + m ≤ length room.old) }
    ensures { room.new ≡ put_at at (part content_at m block.now) room.old }
{
    copies::copy(
        &block[Block::CONTENT_AT..Block::CONTENT_AT + m],
        &mut room[at..at + m],
    );
}

// Are these bytes 1 to 128 whole blocks?
fn is_whole(bytes: &[u8]) -> bool
    ensures { result ≡ whole_blocks bytes.now }
{
    let blocks = bytes.len() / Block::SIZE;
    bytes.len() % Block::SIZE == 0 && 0 < blocks && blocks <= Block::MOST
}

impl<'a> Area<'a> {
    // Bytes that are 1 to 128 whole blocks.
    pub fn of(bytes: &'a [u8]) -> Option<Area<'a>>
        ensures { MatchOption result (whole_blocks bytes.now ≡ false) (λ a. (whole_blocks bytes.now ≡ true) × (a.bytes.now ≡ bytes.now)) }
    {
        if is_whole(bytes) {
            let blocks = bytes.len() / Block::SIZE;
            Some(Area { bytes, blocks })
        } else {
            None
        }
    }

    // ---- one block, by its number, which a byte of an area may hold too: so each asks that the area has it

    // Block b.
    fn block(&self, b: usize) -> &'a [u8; Block::SIZE]
        requires { b < self.now.blocks }
        ensures { result.now ≡ block_at self.now.bytes.now b }
    {
        let at = b * Block::SIZE;
        // the slice has a block's length, so that the test of unwrap goes when it is compiled
        self.bytes[at..at + Block::SIZE].first_chunk().unwrap()
    }

    // Its kind.
    pub fn kind(&self, b: usize) -> u8
        requires { b < self.now.blocks }
        ensures { result ≡ block_kind (block_at self.now.bytes.now b) }
    {
        block::kind(self.block(b))
    }

    // Its entry's number.
    pub fn number(&self, b: usize) -> u32
        requires { b < self.now.blocks }
        ensures { result ≡ entry_number (block_at self.now.bytes.now b) }
    {
        block::number(self.block(b))
    }

    // Is it sound?
    pub fn is_sound(&self, b: usize) -> bool
        requires { b < self.now.blocks }
        ensures { result ≡ sound_at self.now.bytes.now b }
    {
        block::is_sound(self.block(b), self.blocks)
    }

    // Is it sound, with an entry's number?
    fn carries(&self, number: u32, b: usize) -> bool
        requires { b < self.now.blocks }
        ensures { result ≡ carries self.now.bytes.now number b }
    {
        block::carries(self.block(b), self.blocks, number)
    }

    // May it stand in the chain of an entry, as a block of this kind?
    fn links(&self, number: u32, kind: u8, b: usize) -> bool
        requires { b < self.now.blocks }
        ensures { result ≡ links self.now.bytes.now number kind b }
    {
        block::links(self.block(b), self.blocks, number, kind)
    }

    // Is it a sound first block of an entry?
    fn is_first_of(&self, number: u32, b: usize) -> bool
        requires { b < self.now.blocks }
        ensures { result ≡ is_first_of self.now.bytes.now number b }
    {
        block::is_first(self.kind(b)) && self.carries(number, b)
    }

    // Is it a sound first block, whatever its number?
    fn is_head(&self, b: usize) -> bool
        requires { b < self.now.blocks }
        ensures { result ≡ is_head self.now.bytes.now b }
    {
        block::is_first(self.kind(b)) && self.is_sound(b)
    }

    // Is it sound, and free?
    pub fn is_free(&self, b: usize) -> bool
        requires { b < self.now.blocks }
        ensures { result ≡ is_free self.now.bytes.now b }
    {
        self.kind(b) == Block::FREE && self.is_sound(b)
    }

    // ---- the first blocks of an entry

    // The first one from a block on.
    fn first_from(&self, number: u32, from: usize) -> Option<usize>
        requires { from ≤ self.now.blocks }
        ensures { FirstOf (is_first_of self.now.bytes.now number) self.now.blocks from result }
    {
        (from..self.blocks).find(|&b| self.is_first_of(number, b))
    }

    // None, one or several.
    pub fn find_first(&self, number: u32) -> Firsts
        ensures { result ≡ how_many (firsts self.now.bytes.now number) }
    {
        let Some(b) = self.first_from(number, 0) else {
            return Firsts::Nothing;
        };
        match self.first_from(number, b + 1) {
            None => Firsts::One(b),
            Some(_) => Firsts::Several,
        }
    }

    // Are all blocks sound?
    pub fn all_sound(&self) -> bool
        ensures { result ≡ all_sound self.now.bytes.now }
    {
        (0..self.blocks).all(|b| self.is_sound(b))
    }

    // The first sound first block of any entry from a block on.
    pub fn head_from(&self, from: usize) -> Option<usize>
        ensures { FirstOf (is_head self.now.bytes.now) self.now.blocks from result }
    {
        (from..self.blocks).find(|&b| self.is_head(b))
    }

    // ---- the chain of an entry

    // The chain that begins with block `first`, its content in a row in the room; none where it is none as stated. A chain of more blocks than an entry takes has a
    // longer line than any, and one of more blocks than the area has meets a block twice.
    pub fn gather(&self, number: u32, first: usize, room: &mut [u8; ROOM]) -> Option<Chain>
        requires { first < self.now.blocks }
        ensures { Gathers self.now.bytes.now number first result room.new }
    {
        let mut row = [0u8; Block::CHAIN];
        let mut kind = self.kind(first);
        let mut b = first;
        for k in 0..self.blocks.min(Block::CHAIN) {
            if !self.links(number, kind, b) {
                return None;
            }
            row[k] = b as u8;
            let block = self.block(b);
            let m = block::used(block);
            let at = k * Block::ROOM;
            copy_content(block, m, room, at);
            let next = block::next(block);
            if next == Block::NONE {
                return Some(Chain {
                    many: k + 1,
                    long: at + m,
                    row,
                });
            }
            b = usize::from(next);
            kind = Block::FURTHER;
        }
        None
    }
}
