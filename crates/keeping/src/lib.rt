// The register kept in blocks: the calls over a lent area. Each answers whatever the area holds; a refusal changes nothing.
#![tactic(auto)]

ghost use Rattle.std.specs.Prelude.{◌≡◌, ◌≤◌, ◌<◌, true, false, length, MatchResult};
ghost use Rattle.blocks.specs.Block.{new_kind};
ghost use Rattle.blocks.specs.Area.{whole_blocks};
ghost use Rattle.blocks.specs.Entry.{position_bytes};
ghost use Rattle.blocks.specs.Sizes.{content_most};
ghost use Rattle.keeping.specs.Looking.{Refuses, StartSays, LookSays, FindSays};
ghost use Rattle.keeping.specs.Steps.{NewSays, ContentAdded, HandedOut};
ghost use Rattle.keeping.specs.Says.{EmptySays, AddSays, FetchSays, RemoveSays, EntrySays, SurveySays};

use crate::sorts::count_sorts;
use blocks::{Fetched, Listed, Survey};
use chains::{Area, Chain, Firsts, ROOM};
use scope::answers::Placement;
use scope::blocks::Block;
use scope::refusals::{Reason, Refusal};

mod sorts;

// A refusal that tells no place.
fn refused(reason: Reason) -> Refusal
    ensures { (result.reason ≡ reason) × (result.place ≡ 0) }
{
    Refusal { reason, place: 0 }
}

// The area as whole blocks; 26.
fn whole(area: &[u8]) -> Result<Area<'_>, Refusal>
    ensures { MatchResult result (λ w. (whole_blocks area.now ≡ true) × (w.bytes.now ≡ area.now)) (λ e. (whole_blocks area.now ≡ false) × Refuses 26 0 e) }
{
    match Area::of(area) {
        Some(whole) => Ok(whole),
        None => Err(refused(Reason::NotBlocks)),
    }
}

// ---- what is found under a number

// The entry whose first block is b, its content in the room; 25.
fn look_from(
    area: &Area<'_>,
    number: u32,
    b: usize,
    room: &mut [u8; ROOM],
) -> Result<Chain, Refusal>
    requires { b < area.now.blocks }
    ensures { StartSays area.now.bytes.now number b result room.new }
{
    let Some(chain) = area.gather(number, b, room) else {
        return Err(refused(Reason::Damaged));
    };
    if contents::is_stated(&room[..chain.long]) {
        Ok(chain)
    } else {
        Err(refused(Reason::Damaged))
    }
}

// The entry, where there is one. 25 "is given when ..": every call goes by this.
fn look(area: &Area<'_>, number: u32, room: &mut [u8; ROOM]) -> Result<Option<Chain>, Refusal>
    ensures { LookSays area.now.bytes.now number result room.new }
{
    match area.find_first(number) {
        Firsts::One(b) => Ok(Some(look_from(area, number, b, room)?)),
        Firsts::Nothing => {
            if area.all_sound() {
                Ok(None)
            } else {
                Err(refused(Reason::Damaged))
            }
        }
        Firsts::Several => Err(refused(Reason::Damaged)),
    }
}

// The entry that has to be there: 25, 22.
fn find(area: &Area<'_>, number: u32, room: &mut [u8; ROOM]) -> Result<Chain, Refusal>
    ensures { FindSays area.now.bytes.now number result room.new }
{
    match look(area, number, room)? {
        Some(chain) => Ok(chain),
        None => Err(refused(Reason::NoEntry)),
    }
}

// ---- "One call makes an empty area."

pub fn empty(area: &mut [u8]) -> Result<(), Refusal>
    ensures { EmptySays area.old result area.new }
{
    whole(area)?;
    taking::free_all(area);
    Ok(())
}

// ---- add

// A content into free blocks of an area; 24. The area is asked for its blocks anew, since the loan ends before it is written.
fn add_new(area: &mut [u8], number: u32, content: &[u8]) -> Result<(), Refusal>
    requires { (whole_blocks area.old ≡ true) × (1 ≤ length content.now) × (length content.now ≤ content_most) }
    ensures { NewSays area.old number content.now result area.new }
{
    let need = taking::blocks_for(content.len());
    let Some(row) = taking::find_frees(&whole(area)?, need) else {
        return Err(refused(Reason::NoRoom));
    };
    taking::write_chain(area, number, content, &row[..need]);
    Ok(())
}

// A content under a number: 26, 25, 23, 24. Not inlined: the two rooms of `add` are not on the stack while the content is made.
#[inline(never)]
fn add_content(area: &mut [u8], number: u32, content: &[u8]) -> Result<(), Refusal>
    requires { (1 ≤ length content.now) × (length content.now ≤ content_most) }
    ensures { ContentAdded area.old number content.now result area.new }
{
    let mut room = [0u8; ROOM];
    match look(&whole(area)?, number, &mut room)? {
        Some(_) => Err(refused(Reason::Present)),
        None => add_new(area, number, content),
    }
}

// A line with an allowed placement, under a number: the line's own refusals, 18, 26, 25, 23, 24.
pub fn add(area: &mut [u8], number: u32, p: Placement, line: &[u8]) -> Result<(), Refusal>
    ensures { AddSays area.old number p line.now result area.new }
{
    let mut room = [0u8; Block::CONTENT];
    let length = contents::make_content(line, p, &mut room)?;
    add_content(area, number, &room[..length])
}

// ---- fetch

// A content that is as stated, handed out; 15.
fn hand_out(content: &[u8], out: &mut [u8]) -> Result<Fetched, Refusal>
    requires { position_bytes new_kind ≤ length content.now }
    ensures { HandedOut content.now out.old result out.new }
{
    let size = content.len() - Block::POSITIONS;
    if out.len() < size {
        return Err(Refusal {
            reason: Reason::ShortOutput,
            place: size,
        });
    }
    out[..size].copy_from_slice(&content[Block::POSITIONS..]);
    let placement = contents::placement_in(content);
    let at = placement.at;
    Ok(Fetched { size, at })
}

// The entry under a number, its line at the front of an output of any length: 26, 25, 22, 15 at the length needed.
pub fn fetch(area: &[u8], number: u32, out: &mut [u8]) -> Result<Fetched, Refusal>
    ensures { FetchSays area.now number out.old result out.new }
{
    let mut room = [0u8; ROOM];
    let chain = find(&whole(area)?, number, &mut room)?;
    hand_out(&room[..chain.long], out)
}

// ---- remove

// The entry under a number, its blocks made free: 26, 25, 22.
pub fn remove(area: &mut [u8], number: u32) -> Result<(), Refusal>
    ensures { RemoveSays area.old number result area.new }
{
    let mut room = [0u8; ROOM];
    let chain = find(&whole(area)?, number, &mut room)?;
    taking::free_chain(area, chain.in_order());
    Ok(())
}

// ---- the listing

// The first sound first block from a block on, and its number: 26, 17.
pub fn entry_from(area: &[u8], from: usize) -> Result<Listed, Refusal>
    ensures { EntrySays area.now from result }
{
    let whole = whole(area)?;
    let Some(block) = whole.head_from(from) else {
        return Err(refused(Reason::NotFound));
    };
    let number = whole.number(block);
    Ok(Listed { block, number })
}

// ---- the survey

// How many blocks are free, first and further ones of entries, of no such kind, and unsound: 26.
pub fn survey(area: &[u8]) -> Result<Survey, Refusal>
    ensures { SurveySays area.now result }
{
    Ok(count_sorts(&whole(area)?))
}
