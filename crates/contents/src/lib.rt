// The content of an entry: a placement and a canonical line, made of a line, and whether it is as stated.
#![tactic(auto)]

ghost use Rattle.std.specs.Prelude.{◌≡◌, ◌&&◌, ◌≤◌, ◌<◌, length};
ghost use Rattle.scope.specs.Limits.{line_limit};
ghost use Rattle.scope.specs.Lists.{same, laid};
ghost use Rattle.scope.specs.Bytes.{byte_limit};
ghost use Rattle.scope.specs.Refusals.{outcome};
ghost use Rattle.scope.specs.Canonical.{canonical};
ghost use Rattle.basics.specs.Each.{Each};
ghost use Rattle.scope.specs.Layout.{tables_in};
ghost use Rattle.blocks.specs.Block.{new_kind};
ghost use Rattle.blocks.specs.Entry.{position_bytes, placement_in, positions_of, stated, is_stated};
ghost use Rattle.blocks.specs.Sizes.{content_most};
ghost use Rattle.contents.specs.Says.{TableSays, ContentSays, Known};

use areas::{Bytes, Numbers};
use calls::is_allowed_by;
use reader::read;
use scope::answers::Placement;
use scope::blocks::Block;
use scope::refusals::{Reason, Refusal};
use scope::tables::Tables;

// ---- "eight position bytes"

// The placement at the front of a content.
pub fn placement_in(content: &[u8]) -> Placement
    requires { position_bytes new_kind ≤ length content.now }
    ensures { result.at ≡ placement_in new_kind content.now }
{
    let mut at = [0u16; Placement::COPIES];
    for (i, &b) in content[..Block::POSITIONS].iter().enumerate() {
        at[i] = u16::from(b);
    }
    Placement { at }
}

// A placement whose positions are bytes, at the front of a room.
fn put_placement(p: Placement, room: &mut [u8])
    requires { (position_bytes new_kind ≤ length room.old) × Each (λ x. x < byte_limit) p.at }
    ensures { room.new ≡ laid (positions_of p.at) room.old }
{
    let at = p.at;
    for (i, &x) in at.iter().enumerate() {
        room[i] = x as u8;
    }
}

// ---- the line

// Is a line the canonical line of these tables?
fn is_canonical(line: &[u8], bytes: &Bytes, numbers: &Numbers) -> bool
    requires { Known bytes.now numbers.now × (length line.now ≤ line_limit) }
    ensures { result ≡ same (canonical (tables_in bytes.now numbers.now)) line.now }
{
    let mut out = [0u8; Tables::LINE];
    let n = writer::write_line(bytes, numbers, &mut out);
    n == line.len() && &out[..n] == line
}

// Is a line its own canonical line, and is the placement one that it allows?
fn is_entry(line: &[u8], p: Placement) -> bool
    ensures { result ≡ stated (outcome line.now) p.at line.now }
{
    let mut bytes = [0u8; Tables::BYTES];
    let mut numbers = [0i64; Tables::NUMBERS];
    match read(line, &mut bytes, &mut numbers) {
        Ok(()) => is_canonical(line, &bytes, &numbers) && is_allowed_by(&bytes, &numbers, p),
        Err(_) => false,
    }
}

// Is a content as stated? It may have any bytes. Not inlined, as `make_content`: what a caller has on the stack beside it counts against what the header says.
#[inline(never)]
pub fn is_stated(content: &[u8]) -> bool
    ensures { result ≡ is_stated new_kind content.now }
{
    Block::POSITIONS <= content.len()
        && is_entry(&content[Block::POSITIONS..], placement_in(content))
}

// ---- what is added

// Of a line's tables: the placement, where it is allowed, and the canonical line behind it; how many bytes of content that are, or 18.
fn content_of(
    bytes: &Bytes,
    numbers: &Numbers,
    p: Placement,
    room: &mut [u8],
) -> Result<usize, Refusal>
    requires { Known bytes.now numbers.now × (length (canonical (tables_in bytes.now numbers.now)) ≤ line_limit) × (content_most ≤ length room.old) }
    ensures { TableSays (tables_in bytes.now numbers.now) p.at result room.new }
{
    if !is_allowed_by(bytes, numbers, p) {
        return Err(Refusal {
            reason: Reason::NotAllowed,
            place: 0,
        });
    }
    put_placement(p, room);
    Ok(writer::put_line(bytes, numbers, room, Block::POSITIONS))
}

// The content of a line's entry under a placement, at the front of a room, and how many bytes it has; or the line's own refusal, or 18.
#[inline(never)]
pub fn make_content(line: &[u8], p: Placement, room: &mut [u8]) -> Result<usize, Refusal>
    requires { content_most ≤ length room.old }
    ensures { ContentSays line.now p.at result room.new }
{
    let mut bytes = [0u8; Tables::BYTES];
    let mut numbers = [0i64; Tables::NUMBERS];
    read(line, &mut bytes, &mut numbers)?;
    content_of(&bytes, &numbers, p, room)
}
