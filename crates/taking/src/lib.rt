// Blocks taken and given back: free ones found, a chain written into them, and a chain freed. "Blocks are taken lowest free first, freed ones again."
#![tactic(auto)]

ghost use Rattle.std.specs.Prelude.{◌≡◌, ◌+◌, ◌*◌, ◌≤◌, ◌<◌, length, drop};
ghost use Rattle.scope.specs.Limits.{block_size};
ghost use Rattle.scope.specs.Lists.{part};
ghost use Rattle.blocks.specs.Block.{content_room, new_kind, free_block, entry_block};
ghost use Rattle.blocks.specs.Area.{blocks_in, is_free, times, put_at, replaced};
ghost use Rattle.blocks.specs.Answers.{blocks_for, pieces, next_in, written, freed};
ghost use Rattle.blocks.specs.Sizes.{content_most, chain_most};
ghost use Rattle.chains.specs.Whole.{Whole, FirstOf};
ghost use Rattle.taking.specs.Says.{kind_of, FreesAre, Inside};

use chains::Area;
use scope::blocks::Block;

// ---- free blocks

// The first free block from a block on.
fn free_from(area: &Area<'_>, from: usize) -> Option<usize>
    requires { from ≤ area.now.blocks }
    ensures { FirstOf (is_free area.now.bytes.now) area.now.blocks from result }
{
    (from..area.blocks).find(|&b| area.is_free(b))
}

// "Blocks are taken lowest free first": as many as are needed, at the front of a row, where there are so many.
pub fn find_frees(area: &Area<'_>, need: usize) -> Option<[u8; Block::CHAIN]>
    requires { need ≤ chain_most }
    ensures { FreesAre area.now.bytes.now need result }
{
    let mut row = [0u8; Block::CHAIN];
    let mut from = 0;
    for k in 0..need {
        let b = free_from(area, from)?;
        row[k] = b as u8;
        from = b + 1;
    }
    Some(row)
}

// ---- chains written and freed

// Block b made free.
fn free_at(area: &mut [u8], b: usize)
    requires { b < blocks_in area.old }
    ensures { area.new ≡ put_at (block_size * b) free_block area.old }
{
    let at = b * Block::SIZE;
    block::make_free(&mut area[at..at + Block::SIZE]);
}

// Every block made free.
pub fn free_all(area: &mut [u8])
    requires { Whole area.old (blocks_in area.old) }
    ensures { area.new ≡ times (blocks_in area.old) free_block }
{
    for b in 0..area.len() / Block::SIZE {
        free_at(area, b);
    }
}

// The blocks of a chain made free.
pub fn free_chain(area: &mut [u8], blocks: &[u8])
    requires { Inside area.old blocks.now }
    ensures { area.new ≡ replaced (freed blocks.now) area.old }
{
    for &b in blocks {
        free_at(area, usize::from(b));
    }
}

// How many blocks a content takes.
pub fn blocks_for(length: usize) -> usize
    requires { length ≤ content_most }
    ensures { (result ≡ blocks_for length) × (result ≤ chain_most) }
{
    length.div_ceil(Block::ROOM)
}

// A block of an entry, put at block b.
fn put_at(area: &mut [u8], b: usize, kind: u8, number: u32, next: u8, piece: &[u8])
    requires { (b < blocks_in area.old) × (length piece.now ≤ content_room) }
    ensures { area.new ≡ put_at (block_size * b) (entry_block kind number next piece.now) area.old }
{
    let at = b * Block::SIZE;
    block::put_entry(&mut area[at..at + Block::SIZE], kind, number, next, piece);
}

// The block behind block k of these, or `NONE`.
fn next_of(blocks: &[u8], k: usize) -> u8
    requires { k < length blocks.now }
    ensures { result ≡ next_in (drop (k + 1) blocks.now) }
{
    blocks.get(k + 1).copied().unwrap_or(Block::NONE)
}

// The kind of block k of an entry.
fn kind_of(k: usize) -> u8
    ensures { result ≡ kind_of k }
{
    if k == 0 { Block::FIRST } else { Block::FURTHER }
}

// Piece k of a content: what block k of its entry holds.
fn piece_of(content: &[u8], k: usize) -> &[u8]
    requires { content_room * k ≤ length content.now }
    ensures { result.now ≡ part (content_room * k) content_room content.now }
{
    let from = k * Block::ROOM;
    &content[from..content.len().min(from + Block::ROOM)]
}

// An entry's content, in these blocks.
pub fn write_chain(area: &mut [u8], number: u32, content: &[u8], blocks: &[u8])
    requires { Inside area.old blocks.now × (length blocks.now ≡ blocks_for (length content.now)) }
    ensures { area.new ≡ replaced (written number new_kind (pieces content.now) blocks.now) area.old }
{
    for (k, &b) in blocks.iter().enumerate() {
        put_at(
            area,
            usize::from(b),
            kind_of(k),
            number,
            next_of(blocks, k),
            piece_of(content, k),
        );
    }
}
