// Lines out of chunks: a chunk is cut into lines, and their entries are put. "Byte 10 ends a line and is no part of it; nothing after the last one is no line."
//
// Between two chunks there is a state: the number of the line that is begun, how many lines before it were refused, and the bytes that are held of it.
// `feed` goes on from it by a part of a chunk, and `finish` ends the input; what they put is exactly what the definitions put out in that state for those bytes.
#![tactic(auto)]

ghost use Rattle.std.specs.Prelude.{◌≡◌, cond, not, ◌+◌, ◌<◌, ◌≤◌, length, take};
ghost use Rattle.scope.specs.Refusals.{outcome};
ghost use Rattle.entries.specs.Entry.{entry, entry_limit, is_refused, Printed};
ghost use Rattle.store.specs.Filled.{Clean};
ghost use Rattle.chunks.specs.Feeding.{hold_limit, last_put, last_refused, part, plain};
ghost use Rattle.chunks.specs.Cuts.{stride_size, Passed, LineEnd, Keeps, Cuts};
ghost use Rattle.chunks.specs.Lent.{number_limit, Ready};
ghost use Rattle.chunks.specs.Puts.{Fronts, Runs, Feeds};

use areas::{Bytes, Numbers};
use entries::{ENTRY, Entered, NEWLINE, put_entry};
use scope::tables::Tables;
use sheet::Sheet;

// So many bytes are looked at together for the end of a line.
const STRIDE: usize = 16;

// So many bytes of a line are held, one more than a line may have; so many has the output.
pub const HOLD: usize = Tables::LINE + 1;

pub const OUTPUT: usize = 3 * ENTRY;

// What every part of a chunk is taken in with: the bytes that are held of a line, the sheet and the two areas in which a line is judged, and the output.
#[derive(Drop)]
pub struct Desk {
    pub sheet: Sheet,
    pub numbers: Numbers,
    pub bytes: Bytes,
    pub hold: [u8; HOLD],
    pub out: [u8; OUTPUT],
}

impl Desk {
    // An empty one.
    pub fn new() -> Desk
        ensures { Ready result 0 }
    {
        Desk {
            sheet: Sheet::new(),
            numbers: [0; Tables::NUMBERS],
            bytes: [0; Tables::BYTES],
            hold: [0; HOLD],
            out: [0; OUTPUT],
        }
    }
}

// A chunk cut behind the end of a line, or at its own: where the next byte stands, and how many bytes are held of the line.
// A flag and not two cases: both have the same two numbers, and what is said of them (`Cuts`) takes the flag on to the state behind the cut.
#[derive(Clone, Copy, Debug, PartialEq, Eq)]
struct Cut {
    next: usize,
    held: usize,
    ended: bool,
}

// Does a line end in the stride from a place of the chunk on? All its bytes are looked at, many at a time.
fn has_end(chunk: &[u8], at: usize) -> bool
    requires { at + stride_size ≤ length chunk.now }
    ensures { result ≡ not (plain (part at (at + stride_size) chunk.now)) }
{
    let mut so = false;
    for i in 0..STRIDE {
        so |= chunk[at + i] == NEWLINE;
    }
    so
}

// From a place of the chunk on, stride by stride, as long as no line ends in the next one. The cursor stays where a stride is not whole or ends a line: no range
// of `for` has that place as its result.
fn skip_plain(chunk: &[u8], from: usize) -> usize
    requires { from ≤ length chunk.now }
    ensures { Passed chunk.now from result }
{
    let mut i = from;
    while STRIDE <= chunk.len() - i && !has_end(chunk, i) {
        i += STRIDE;
    }
    i
}

// The place of the first byte 10 from a place of the chunk on, or the chunk's length.
fn line_end(chunk: &[u8], from: usize) -> usize
    requires { from ≤ length chunk.now }
    ensures { LineEnd chunk.now from result }
{
    for i in skip_plain(chunk, from)..chunk.len() {
        if chunk[i] == NEWLINE {
            return i;
        }
    }
    chunk.len()
}

// The bytes of the chunk from a place up to another behind those held, as far as there is room; how many are held then.
fn keep(chunk: &[u8], from: usize, end: usize, hold: &mut [u8], held: usize) -> usize
    requires { (from ≤ end) × (end ≤ length chunk.now) × (held ≤ hold_limit) × (length hold.old ≡ hold_limit) }
    ensures { Keeps chunk.now from end hold.old held hold.new result }
{
    let text = &chunk[from..end];
    let n = text.len().min(hold.len() - held);
    hold[held..held + n].copy_from_slice(&text[..n]);
    held + n
}

// Takes bytes of the chunk in from a place on, up to the end of a line or of the chunk. What is past the bytes of a line that are held is passed over.
fn gather(chunk: &[u8], from: usize, hold: &mut [u8], held: usize) -> Cut
    requires { (from ≤ length chunk.now) × (held ≤ hold_limit) × (length hold.old ≡ hold_limit) }
    ensures { Cuts chunk.now from hold.old held hold.new result.held result.next result.ended }
{
    let end = line_end(chunk, from);
    let n = keep(chunk, from, end, hold, held);
    if end < chunk.len() {
        Cut {
            next: end + 1,
            held: n,
            ended: true,
        }
    } else {
        Cut {
            next: end,
            held: n,
            ended: false,
        }
    }
}

// The number of the line that is begun or comes next, how many lines before it were refused, and how many bytes are held of it.
#[derive(Clone, Copy, Debug, PartialEq, Eq)]
pub struct State {
    pub number: u64,
    pub refused: u64,
    pub held: usize,
}

// How far a chunk is taken in, the state there, and how many bytes are put.
#[derive(Clone, Copy, Debug, PartialEq, Eq)]
pub struct Fed {
    pub next: usize,
    pub state: State,
    pub put: usize,
}

// The entry of a line that is a part of some bytes, from a place of the output on.
fn put_part(
    number: u64,
    line: &[u8],
    from: usize,
    end: usize,
    sheet: &mut Sheet,
    bytes: &mut Bytes,
    numbers: &mut Numbers,
    out: &mut [u8],
    at: usize,
) -> Entered
    requires { (from ≤ end) × (end ≤ length line.now) × Clean bytes.old numbers.old × (at + entry_limit ≤ length out.old) }
    ensures { Printed entry_limit out.old at (entry number (part from end line.now)) out.new result.next bytes.old numbers.old bytes.new numbers.new × (result.refused ≡ is_refused (outcome (part from end line.now))) }
{
    put_entry(number, &line[from..end], sheet, bytes, numbers, out, at)
}

// One where it is so, else none: for counting.
pub fn one_if(so: bool) -> u64
    ensures { (result ≡ cond so 1 0) × (result ≤ 1) }
{
    u64::from(so)
}

// The entries of the lines that lie whole in the chunk from a place on, while the output has room for one more.
fn put_lines(chunk: &[u8], from: usize, state: State, desk: &mut Desk, at: usize) -> Fed
    requires { (from ≤ length chunk.now) × (state.number + length chunk.now ≤ number_limit + from) × Clean desk.old.bytes desk.old.numbers × (at ≤ length desk.old.out) × (state.refused < state.number) × (state.held ≡ 0) }
    ensures { Runs chunk.now from state.number state.refused desk.old.out at result.next result.state.number result.state.refused result.state.held desk.new.out result.put × Clean desk.new.bytes desk.new.numbers × (desk.new.hold ≡ desk.old.hold) }
{
    let mut fed = Fed {
        next: from,
        state,
        put: at,
    };
    // it goes on behind the end of a line, and stops where the output is full: no step of one
    while ENTRY <= desk.out.len() - fed.put {
        let end = line_end(chunk, fed.next);
        if end == chunk.len() {
            return fed;
        }
        let entered = put_part(
            fed.state.number,
            chunk,
            fed.next,
            end,
            &mut desk.sheet,
            &mut desk.bytes,
            &mut desk.numbers,
            &mut desk.out,
            fed.put,
        );
        let number = fed.state.number + 1;
        let refused = fed.state.refused + one_if(entered.refused);
        fed = Fed {
            next: end + 1,
            state: State {
                number,
                refused,
                held: 0,
            },
            put: entered.next,
        };
    }
    fed
}

// Takes a chunk in from a place on. The line that is begun goes on to the chunk's end; or it ends there, and its entry and those of the lines behind it
// are put at the front of the output, while it has room. What was held before stays where it is.
pub fn feed(chunk: &[u8], from: usize, state: State, desk: &mut Desk) -> Fed
    requires { (from ≤ length chunk.now) × (state.number + length chunk.now ≤ number_limit + from) × Ready desk.old state.held × (state.refused < state.number) }
    ensures { Feeds chunk.now from state.number state.refused desk.old.hold state.held desk.old.out result.next result.state.number result.state.refused desk.new.hold result.state.held desk.new.out result.put × Ready desk.new result.state.held }
{
    let cut = gather(chunk, from, &mut desk.hold, state.held);
    if cut.ended {
        let entered = put_part(
            state.number,
            &desk.hold,
            0,
            cut.held,
            &mut desk.sheet,
            &mut desk.bytes,
            &mut desk.numbers,
            &mut desk.out,
            0,
        );
        let number = state.number + 1;
        let refused = state.refused + one_if(entered.refused);
        let behind = State {
            number,
            refused,
            held: 0,
        };
        put_lines(chunk, cut.next, behind, desk, entered.next)
    } else {
        Fed {
            next: cut.next,
            state: State {
                held: cut.held,
                ..state
            },
            put: 0,
        }
    }
}

// At the end of the input the entry of a line that is begun is put at the front of the output.
pub fn finish(state: State, desk: &mut Desk) -> Entered
    requires { Ready desk.old state.held }
    ensures { Fronts (last_put state.number (take state.held desk.old.hold)) desk.old.out desk.new.out result.next × (result.refused ≡ last_refused (take state.held desk.old.hold)) × (desk.new.hold ≡ desk.old.hold) }
{
    if state.held == 0 {
        Entered {
            next: 0,
            refused: false,
        }
    } else {
        put_part(
            state.number,
            &desk.hold,
            0,
            state.held,
            &mut desk.sheet,
            &mut desk.bytes,
            &mut desk.numbers,
            &mut desk.out,
            0,
        )
    }
}
