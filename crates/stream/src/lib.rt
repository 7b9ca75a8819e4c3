// The register program: standard input is read in chunks, and the entries of its lines go to standard output.
//
// The streams are whatever reads and writes (`Read`, `Write`); main hands over the three of the process. What is said of the bytes that the program reads and
// writes. `receive` says that what it brought was next in the input, and `send` that the bytes which it counts stand behind what the output held, wherever the
// type of a stream knows its bytes; of the three of the process nothing is known, and of the system it is assumed that a read leaves at the front of the room
// what it answers for, and that a write takes the front of what it is handed, in order, as its answer counts. `hand` and `hand_last` alone write to the
// output, and each asks that the bytes handed over are exactly those that the definitions put out, in the state before, for the bytes just taken in (`Owed`,
// `OwedLast`); every caller proves it. `turn` says that the state goes on by the bytes that the room holds from the read, and that as many bytes were taken as
// are put out for them. Pieces owed so, one behind the other from the start, are `register` of what was read (specs/Whole.antt, `handed_over`). That `hand` is
// called once for each part, and `hand_last` once, is to be read in `drain` and `close`. The state counts the refused lines too, and at the end of the input
// there are as many as among the lines of what was read (`refused_in_one`).
#![tactic(auto)]

ghost use Rattle.std.specs.Prelude.{◌≡◌, ◌+◌, ◌<◌, ◌≤◌, length, take};
ghost use Rattle.std.specs.Io.KnownBytes.{Appends};
ghost use Rattle.chunks.specs.Lent.{number_limit, output_limit, Ready};
ghost use Rattle.chunks.specs.Puts.{Fronts};
ghost use Rattle.stream.specs.Owed.{Owed, OwedLast};
ghost use Rattle.stream.specs.Told.{line_ends, notice_room, noticed};
ghost use Rattle.stream.specs.Turns.{read_limit, Received, Brought, Drains, ClosesAt, Turns};

use chunks::{Desk, State, feed, finish, one_if};
use entries::NEWLINE;
use std::io::{Error, ErrorKind, Read, Write};
use std::rt::Clock;
use std::thread;
use std::time::Duration;

// So many bytes are read at once, at most.
const READ: usize = 8192;

// More reads than any run makes: at a million a second, 35 years.
const TURNS: u64 = 1 << 50;

// So often in a row is a call made that is interrupted or would block: days, at a million a second. Where it would block, others run first, and it is years.
const PATIENCE: u64 = 1 << 40;

// How reading ended: with the input, with a read or with a write that failed.
#[derive(Clone, Copy, Debug, PartialEq, Eq)]
enum End {
    Whole,
    Unread,
    Unwritten,
}

// What is kept from one chunk to the next, how many bytes were taken by the output, and how reading ended, if there is no more to do: then the number is that
// of the first line whose entry is not out, and of a whole input all refused lines are counted.
#[derive(Clone, Copy, Debug, PartialEq, Eq)]
struct Kept {
    state: State,
    sent: usize,
    end: Option<End>,
}

// ---- the streams

// Whether a call that failed is to be made again: it was interrupted; or it would have blocked, and then others run first.
fn again<C: Clock>(clock: &C, error: &Error) -> bool {
    match error.kind() {
        ErrorKind::Interrupted => true,
        ErrorKind::WouldBlock => {
            thread::sleep(clock, Duration::ZERO);
            true
        }
        _ => false,
    }
}

// How many bytes of the text a write took; none, where it failed.
fn send_some<W: Write, C: Clock>(clock: &C, to: &mut W, text: &[u8]) -> usize
    ensures within { result ≤ length text.now }
    ensures written { Appends (W.contents to.old) (W.contents to.new) (take result text.now) }
{
    for _ in 0..PATIENCE {
        match to.write(text) {
            Ok(got) => return got,
            Err(error) => {
                if !again(clock, &error) {
                    return 0;
                }
            }
        }
    }
    0
}

// How many bytes of the text were taken: all of them, where no write failed.
fn send<W: Write, C: Clock>(clock: &C, to: &mut W, text: &[u8]) -> usize
    ensures within { result ≤ length text.now }
    ensures written { Appends (W.contents to.old) (W.contents to.new) (take result text.now) }
{
    let mut done: usize = 0;
    // each write takes as many bytes as it likes: no step of one
    while done < text.len() {
        let got = send_some(clock, to, &text[done..]);
        if got == 0 {
            return done;
        }
        done += got;
    }
    done
}

// The entries of the lines that end in a part of a chunk, to the output: the first n bytes of what was put out, which are all that is put out for that
// part. How many were taken.
fn hand<W: Write, C: Clock>(
    clock: &C,
    output: &mut W,
    chunk: &[u8],
    from: usize,
    next: usize,
    state: State,
    desk: &Desk,
    n: usize,
) -> usize
    requires { Owed chunk.now from next state.number state.refused desk.now.hold state.held desk.now.out n }
    ensures within { result ≤ n }
    ensures written { Appends (W.contents output.old) (W.contents output.new) (take result desk.now.out) }
{
    send(clock, output, &desk.out[..n])
}

// The same at the end of the input.
fn hand_last<W: Write, C: Clock>(
    clock: &C,
    output: &mut W,
    state: State,
    desk: &Desk,
    n: usize,
) -> usize
    requires { OwedLast state.number desk.now.hold state.held desk.now.out n }
    ensures within { result ≤ n }
    ensures written { Appends (W.contents output.old) (W.contents output.new) (take result desk.now.out) }
{
    send(clock, output, &desk.out[..n])
}

// What a read brought: so many bytes at the front of the room; none, where it failed.
fn receive<R: Read, C: Clock>(clock: &C, input: &mut R, room: &mut [u8]) -> Option<usize>
    ensures fits { Received (length room.old) result }
    ensures brought { Brought (R.remaining input.old) (R.remaining input.new) room.new result }
{
    for _ in 0..PATIENCE {
        match input.read(room) {
            Ok(got) => return Some(got),
            Err(error) => {
                if !again(clock, &error) {
                    return None;
                }
            }
        }
    }
    None
}

// ---- a failure, told

// How many lines end in a text.
fn lines_in(text: &[u8]) -> u64
    ensures { (result ≡ line_ends text.now) × (result ≤ length text.now) }
{
    let mut ends: u64 = 0;
    for &b in text {
        ends += one_if(b == NEWLINE);
    }
    ends
}

// Words and a number as a line at the front of the output; how many bytes it has.
fn notice(words: &[u8], number: u64, out: &mut [u8]) -> usize
    requires { (length words.now + notice_room ≤ length out.old) × (length out.old ≤ output_limit) }
    ensures { Fronts (noticed words.now number) out.old out.new result }
{
    let n = words.len();
    out[..n].copy_from_slice(words);
    let a = figures::put_decimal(number, out, n);
    figures::put(out, a, NEWLINE)
}

// A notice to standard error. Whether it is taken is not asked.
fn say<W: Write, C: Clock>(clock: &C, errors: &mut W, words: &[u8], number: u64, text: &[u8])
    requires { text.now ≡ noticed words.now number }
{
    send(clock, errors, text);
}

fn tell<W: Write, C: Clock>(clock: &C, errors: &mut W, words: &[u8], number: u64, out: &mut [u8])
    requires { (length words.now + notice_room ≤ length out.old) × (length out.old ≤ output_limit) }
{
    let n = notice(words, number, out);
    say(clock, errors, words, number, &out[..n]);
}

// ---- the program

// Takes a whole chunk in and hands over what it ends, piece by piece.
fn drain<W: Write, C: Clock>(
    clock: &C,
    output: &mut W,
    chunk: &[u8],
    state: State,
    desk: &mut Desk,
) -> Kept
    requires { (length chunk.now ≤ read_limit) × (state.number + read_limit + output_limit ≤ number_limit) × Ready desk.old state.held × (state.refused < state.number) }
    ensures { Drains chunk.now state.number state.refused desk.old.hold state.held result.state.number result.state.refused desk.new.hold result.state.held result.sent result.end × Ready desk.new result.state.held }
{
    let mut from: usize = 0;
    let mut kept = Kept {
        state,
        sent: 0,
        end: None,
    };
    // a piece ends where the output is full: no step of one
    while from < chunk.len() {
        let fed = feed(chunk, from, kept.state, desk);
        let taken = hand(
            clock, output, chunk, from, fed.next, kept.state, desk, fed.put,
        );
        let sent = kept.sent + taken;
        if taken < fed.put {
            let number = kept.state.number + lines_in(&desk.out[..taken]);
            return Kept {
                state: State {
                    number,
                    ..kept.state
                },
                sent,
                end: Some(End::Unwritten),
            };
        }
        from = fed.next;
        kept = Kept {
            state: fed.state,
            sent,
            end: None,
        };
    }
    kept
}

// The input is at its end, and a line that is begun ends with it.
fn close<W: Write, C: Clock>(clock: &C, output: &mut W, state: State, desk: &mut Desk) -> Kept
    requires { Ready desk.old state.held × (state.refused < state.number) }
    ensures { ClosesAt state.number state.refused desk.old.hold state.held result.state.number result.state.refused result.sent result.end }
{
    let last = finish(state, desk);
    let put = last.next;
    let taken = hand_last(clock, output, state, desk, put);
    if taken < put {
        Kept {
            state,
            sent: taken,
            end: Some(End::Unwritten),
        }
    } else {
        let refused = state.refused + one_if(last.refused);
        Kept {
            state: State { refused, ..state },
            sent: taken,
            end: Some(End::Whole),
        }
    }
}

// What a read brought is taken in; where it brought nothing, that is all.
fn take_in<W: Write, C: Clock>(
    clock: &C,
    output: &mut W,
    text: &[u8],
    state: State,
    desk: &mut Desk,
) -> Kept
    requires { (length text.now ≤ read_limit) × (state.number + read_limit + output_limit ≤ number_limit) × Ready desk.old state.held × (state.refused < state.number) }
    ensures { Turns text.now state.number state.refused desk.old.hold state.held result.state.number result.state.refused desk.new result.state.held result.sent result.end }
{
    if text.is_empty() {
        close(clock, output, state, desk)
    } else {
        drain(clock, output, text, state, desk)
    }
}

// One read. A line that is begun when a read fails is not answered: nothing says that it has ended.
fn turn<R: Read, W: Write, C: Clock>(
    clock: &C,
    input: &mut R,
    output: &mut W,
    room: &mut [u8],
    state: State,
    desk: &mut Desk,
) -> Kept
    requires { (length room.old ≤ read_limit) × (state.number + read_limit + output_limit ≤ number_limit) × Ready desk.old state.held × (state.refused < state.number) }
    ensures { Turns room.new state.number state.refused desk.old.hold state.held result.state.number result.state.refused desk.new result.state.held result.sent result.end }
{
    match receive(clock, input, room) {
        Some(n) => take_in(clock, output, &room[..n], state, desk),
        None => Kept {
            state,
            sent: 0,
            end: Some(End::Unread),
        },
    }
}

// Reads to the end of the input. A proved loop has to end, and nothing says that the input does: so the loop counts its turns.
fn serve<R: Read, W: Write, C: Clock>(
    clock: &C,
    input: &mut R,
    output: &mut W,
    room: &mut [u8],
    desk: &mut Desk,
) -> Kept
    requires { (length room.old ≤ read_limit) × Ready desk.old 0 }
    ensures { 1 ≤ result.state.number }
{
    let mut kept = Kept {
        state: State {
            number: 1,
            refused: 0,
            held: 0,
        },
        sent: 0,
        end: None,
    };
    for _turns in 0..TURNS {
        kept = turn(clock, input, output, room, kept.state, desk);
        if kept.end.is_some() {
            return kept;
        }
    }
    Kept {
        end: Some(End::Unread),
        ..kept
    }
}

// How many lines of the whole input were refused, where there are any. A program has no status: who wants to know looks here.
fn tell_refused<W: Write, C: Clock>(clock: &C, errors: &mut W, refused: u64, out: &mut [u8])
    requires { length out.old ≡ output_limit }
{
    if refused > 0 {
        tell(clock, errors, b"register: lines refused: ", refused, out);
    }
}

// The register program: the lines of the input, and their entries to the output. At the end a line to the third stream, standard error, says how many lines
// were refused, where there are any; or, where a read or a write fails for good, after which line what was read, or what is out, ends.
pub fn run<R: Read, W: Write, E: Write, C: Clock>(
    clock: &C,
    input: &mut R,
    output: &mut W,
    errors: &mut E,
) {
    let mut room = [0u8; READ];
    let mut desk = Desk::new();
    let last = serve(clock, input, output, &mut room, &mut desk);
    let line = last.state.number - 1;
    match last.end {
        Some(End::Whole) => tell_refused(clock, errors, last.state.refused, &mut desk.out),
        Some(End::Unread) | None => tell(
            clock,
            errors,
            b"register: the input could not be read: it ends after line ",
            line,
            &mut desk.out,
        ),
        Some(End::Unwritten) => tell(
            clock,
            errors,
            b"register: the output could not be written: it ends after line ",
            line,
            &mut desk.out,
        ),
    }
}
