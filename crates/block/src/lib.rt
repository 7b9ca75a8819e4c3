// One block, lent as its bytes: what it says, whether it is sound, and what is written into it.
#![tactic(auto)]

ghost use Rattle.std.specs.Prelude.{◌≡◌, ◌&&◌, suc, ◌+◌, ◌*◌, ◌≤◌, ◌<◌, eqb, length, take};
ghost use Rattle.scope.specs.Bytes.{wide_limit};
ghost use Rattle.scope.specs.Limits.{block_size};
ghost use Rattle.scope.specs.Lists.{all, padded};
ghost use Rattle.blocks.specs.Block.{is_first, content_at, content_room, sum_at, block_kind, used_length, next_block, entry_number, is_last, is_padded, weight, is_sound, sealed, free_block, entry_block};
ghost use Rattle.blocks.specs.Area.{put_at};
ghost use Rattle.block.specs.Links.{full_or_last, links_as, front_of};

use scope::blocks::Block;

// ---- kinds, as numbers: the byte of a block may hold any

// Is it a kind of first blocks?
pub fn is_first(kind: u8) -> bool
    ensures { result ≡ is_first kind }
{
    kind == Block::FIRST
}

// ---- what it says

// Its kind.
pub fn kind(block: &[u8; Block::SIZE]) -> u8
    ensures { result ≡ block_kind block.now }
{
    block[0]
}

// How many bytes of content it says that it has.
pub fn used(block: &[u8; Block::SIZE]) -> usize
    ensures { (result ≡ used_length block.now) × (result < wide_limit) }
{
    lowfirst::two_at(block, Block::USED_AT)
}

// The block behind it in its entry, or `NONE`.
pub fn next(block: &[u8; Block::SIZE]) -> u8
    ensures { result ≡ next_block block.now }
{
    block[Block::NEXT_AT]
}

// Its entry's number.
pub fn number(block: &[u8; Block::SIZE]) -> u32
    ensures { result ≡ entry_number block.now }
{
    lowfirst::four_at(block, Block::NUMBER_AT)
}

// ---- the sum

// i + 1 times a byte.
fn term(i: usize, b: u8) -> u32
    requires { i < sum_at }
    ensures { (result ≡ suc i * b) × (result ≤ sum_at * 255) }
{
    (i as u32 + 1) * u32::from(b)
}

// "the sum of (i+1) times byte i, i from 0 to 507"
fn sum(summed: &[u8]) -> u32
    requires { length summed.now ≡ sum_at }
    ensures { result ≡ weight 0 summed.now }
{
    let mut total: u32 = 0;
    for (i, &b) in summed.iter().enumerate() {
        total += term(i, b);
    }
    total
}

// Is it sound, in an area of n blocks?
pub fn is_sound(block: &[u8; Block::SIZE], n: usize) -> bool
    ensures { result ≡ is_sound n block.now }
{
    let after = next(block);
    lowfirst::four_at(block, Block::SUM_AT) == sum(&block[..Block::SUM_AT])
        && (after == Block::NONE || usize::from(after) < n)
}

// Is it sound, with an entry's number? The sum is only worked out where the number is right.
pub fn carries(block: &[u8; Block::SIZE], n: usize, expected: u32) -> bool
    ensures { result ≡ (eqb (entry_number block.now) expected && is_sound n block.now) }
{
    number(block) == expected && is_sound(block, n)
}

// ---- content as stated

// Are these bytes all zero? All are looked at, many at a time.
fn are_zero(bytes: &[u8]) -> bool
    ensures { result ≡ all (eqb 0) bytes.now }
{
    bytes.iter().copied().fold(true, |so, b| so & (b == 0))
}

// "zero past the used length"
fn is_padded(block: &[u8; Block::SIZE]) -> bool
    ensures { result ≡ is_padded block.now }
{
    let m = used(block);
    m <= Block::ROOM && are_zero(&block[Block::CONTENT_AT + m..Block::SUM_AT])
}

// "every block but an entry's last full"
fn is_full_or_last(block: &[u8; Block::SIZE]) -> bool
    ensures { result ≡ full_or_last block.now }
{
    next(block) == Block::NONE || used(block) == Block::ROOM
}

// May it stand in the chain of an entry, of n blocks in all, as a block of this kind?
pub fn links(block: &[u8; Block::SIZE], n: usize, expected: u32, k: u8) -> bool
    ensures { result ≡ links_as n expected k block.now }
{
    kind(block) == k && carries(block, n, expected) && is_padded(block) && is_full_or_last(block)
}

// ---- what is written: into a slice, since of an array borrowed out of an area a proof knows only the length once the loan has ended

// The sum of what stands before it, behind it.
fn seal(block: &mut [u8])
    requires { length block.old ≡ block_size }
    ensures { block.new ≡ sealed (take sum_at block.old) }
{
    let total = sum(&block[..Block::SUM_AT]);
    lowfirst::put_four(total, block, Block::SUM_AT);
}

// "A free block holds zeros up to byte 507 apart from its kind and next 255."
pub fn make_free(block: &mut [u8])
    requires { length block.old ≡ block_size }
    ensures { block.new ≡ free_block }
{
    block.fill(0);
    block[0] = Block::FREE;
    block[Block::NEXT_AT] = Block::NONE;
    seal(block);
}

// What stands before the content: the kind, how many bytes of content there are, the block behind it, and the entry's number.
fn put_front(block: &mut [u8], kind: u8, used: usize, next: u8, number: u32)
    requires { (length block.old ≡ block_size) × (used < wide_limit) }
    ensures { take content_at block.new ≡ front_of kind used next number }
{
    block[0] = kind;
    lowfirst::put_two(used, block, Block::USED_AT);
    block[Block::NEXT_AT] = next;
    lowfirst::put_four(number, block, Block::NUMBER_AT);
}

// A content over zeros, in room for the longest.
fn fill_room(room: &mut [u8], content: &[u8])
    requires { (length room.old ≡ content_room) × (length content.now ≤ content_room) }
    ensures { room.new ≡ padded 0 content_room content.now }
{
    room.fill(0);
    copies::copy(content, &mut room[..content.len()]);
}

// The content, and zeros behind it.
fn put_content(block: &mut [u8], content: &[u8])
    requires { (length block.old ≡ block_size) × (length content.now ≤ content_room) }
    ensures { block.new ≡ put_at content_at (padded 0 content_room content.now) block.old }
{
    fill_room(&mut block[Block::CONTENT_AT..Block::SUM_AT], content);
}

// A block of an entry: its kind, the entry's number, the block behind it, and its content.
pub fn put_entry(block: &mut [u8], kind: u8, number: u32, next: u8, content: &[u8])
    requires { (length block.old ≡ block_size) × (length content.now ≤ content_room) }
    ensures { block.new ≡ entry_block kind number next content.now }
{
    put_front(block, kind, content.len(), next, number);
    put_content(block, content);
    seal(block);
}
