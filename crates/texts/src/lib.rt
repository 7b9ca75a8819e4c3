// Texts: "a text is plain bytes and closed pairs that hold texts".
#![tactic(auto)]

ghost use Rattle.std.specs.Prelude.{◌≡◌, true, [], ◌+◌, ◌*◌, ◌/◌, ◌<◌, drop};
ghost use Rattle.scope.specs.Bytes.{byte_limit, is_shutting, closer_of};
ghost use Rattle.classes.specs.Runs.{span};
ghost use Rattle.texts.specs.Texts.{is_outer, is_inner, scan_text, told, last_of, Closed, Crowded};

use scope::grammar::Stuck;
use scope::tables::Tables;

// Where a text ends, and the first place at which a pair is opened while as many as may be are open, if there is one.
#[derive(Clone, Copy, Debug, PartialEq, Eq)]
pub struct TextEnd {
    pub to: usize,
    pub deep: Option<usize>,
}

// A pair with fewer pairs than these around it is read by a call of its own. One with more is too deep, and is read by `crowd_end`.
const LEVELS: usize = Tables::DEPTH;

// How many closers a byte keeps: a bit each.
const BITS: usize = 8;

// How many bytes of them a call of `crowd_end` has: enough for a line of nothing but openings.
const KEPT: usize = Tables::LINE / BITS;

// Where the text that starts at `at` ends; `hashes` says whether `#` is plain in it.
pub fn text_end(line: &[u8], at: usize, hashes: bool) -> Result<TextEnd, Stuck>
    ensures { result ≡ told line.now at (scan_text hashes [] (drop at line.now) at) }
{
    let mut deep = None;
    let mut to = outer_end(line, at, hashes);
    // each turn jumps behind a whole pair
    while to < line.len() && classes::is_opening(line[to]) {
        let end = pair_end(line, to + 1, closer_of(line[to]), 0, &mut deep)?;
        to = outer_end(line, end, hashes);
    }
    Ok(TextEnd { to, deep })
}

// From inside a pair that `closer` closes, with `level` pairs around it: the place behind its closer. Each pair within is read by a call. `deep` is the first place
// of the text at which a pair is too deep, once one has been met.
fn pair_end(
    line: &[u8],
    at: usize,
    closer: u8,
    level: usize,
    deep: &mut Option<usize>,
) -> Result<usize, Stuck>
    requires { (is_shutting closer ≡ true) × (0 < at) }
    ensures { Closed line.now at closer level deep.old deep.new result }
{
    if LEVELS <= level {
        *deep = deep.or(Some(at - 1));
        return crowd_end(line, at, closer);
    }
    let mut i = inner_end(line, at);
    // each turn jumps behind a whole pair
    while i < line.len() {
        let b = line[i];
        if b == closer {
            return Ok(i + 1);
        }
        if !classes::is_opening(b) {
            return Err(Stuck { at: i });
        }
        let end = pair_end(line, i + 1, closer_of(b), level + 1, deep)?;
        i = inner_end(line, end);
    }
    Err(Stuck { at: i })
}

// The same, for a pair that is too deep: a call for each within would take too much stack. `next` closes the innermost pair that stands open; the closers of
// the `n` pairs around it are kept in a table, a bit each, the innermost one last. The table is full only in a line that is too long: there a pair is read by a call.
fn crowd_end(line: &[u8], at: usize, closer: u8) -> Result<usize, Stuck>
    requires { is_shutting closer ≡ true }
    ensures { Crowded line.now at closer result }
{
    let mut owed = [0u8; KEPT];
    let mut n: usize = 0;
    let mut next = closer;
    let mut i = inner_end(line, at);
    // a turn may jump behind a whole pair
    while i < line.len() {
        let b = line[i];
        if b == next {
            if n == 0 {
                return Ok(i + 1);
            }
            n -= 1;
            let k = n / BITS;
            next = last_of(owed[k]);
            owed[k] = owed[k] / 2;
            i = inner_end(line, i + 1);
        } else if !classes::is_opening(b) {
            return Err(Stuck { at: i });
        } else if n < Tables::LINE {
            let k = n / BITS;
            owed[k] = with_last(owed[k], next);
            n += 1;
            next = closer_of(b);
            i = inner_end(line, i + 1);
        } else {
            let end = crowd_end(line, i + 1, closer_of(b))?;
            i = inner_end(line, end);
        }
    }
    Err(Stuck { at: i })
}

// The closer that the last of some bits stands for.
fn last_of(bits: u8) -> u8
    ensures { result ≡ last_of bits }
{
    if bits % 2 == 1 { b']' } else { b'}' }
}

// The bits with one more, which stands for `closer`.
fn with_last(bits: u8, closer: u8) -> u8
    requires { (is_shutting closer ≡ true) × (2 * bits + 1 < byte_limit) }
    ensures { (result / 2 ≡ bits) × (last_of result ≡ closer) }
{
    if closer == b']' {
        2 * bits + 1
    } else {
        2 * bits
    }
}

// The byte that closes the pair which `b` opens.
fn closer_of(b: u8) -> u8
    ensures { (result ≡ closer_of b) × (is_shutting result ≡ true) }
{
    if b == b'[' { b']' } else { b'}' }
}

// A byte that leaves a text as it is, outside every pair.
#[tactic(auto, unfolding(crate::specs::Texts::is_outer))]
fn is_outer(b: u8, hashes: bool) -> bool
    ensures { result ≡ is_outer hashes b }
{
    classes::is_plain(b) || b == b':' || hashes && b == b'#'
}

// A byte that leaves a text as it is, inside a pair.
#[tactic(auto, using(crate::proofs::Steps::letter_inner), unfolding(crate::specs::Texts::is_inner))]
fn is_inner(b: u8) -> bool
    ensures { result ≡ is_inner b }
{
    classes::is_letter(b)
        || classes::is_printable(b) && !classes::is_shutting(b) && !classes::is_opening(b)
}

fn outer_end(line: &[u8], at: usize, hashes: bool) -> usize
    ensures { result ≡ at + span (is_outer hashes) (drop at line.now) }
{
    classes::run_end(line, at, |b| is_outer(b, hashes))
}

fn inner_end(line: &[u8], at: usize) -> usize
    ensures { result ≡ at + span is_inner (drop at line.now) }
{
    classes::run_end(line, at, is_inner)
}
