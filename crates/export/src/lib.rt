// The boundary to C, Rust and Python: numbers and lent slices. A refusal leaves what is lent as it was, but for its place; a success leaves the place.
#![tactic(auto)]

pub mod handed;
pub mod kept;
pub mod printed;
pub mod tables;

ghost use Rattle.std.specs.Prelude.{◌≡◌};
ghost use Rattle.export.specs.Numbers.{Numbered, Judged, Exported, number_of};
ghost use Rattle.export.specs.Handed.{Counted};
ghost use Rattle.export.specs.Shapes.{Measured, PiecesHanded};
ghost use Rattle.scope.specs.Answers.{says};

use scope::refusals::{Reason, Refusal};

// 0, or the number of a refusal.
fn number_of(answer: Result<(), Refusal>) -> u8
    ensures { result ≡ number_of (says answer) }
{
    match answer {
        Ok(()) => 0,
        Err(refusal) => refusal.reason as u8,
    }
}

// The same, with the place of a refusal.
fn tell(answer: Result<(), Refusal>, place: &mut usize) -> u8
    ensures { Numbered (says answer) place.old result place.new }
{
    match answer {
        Ok(()) => 0,
        Err(refusal) => {
            *place = refusal.place;
            refusal.reason as u8
        }
    }
}

// A count, handed out.
fn tell_count(answer: Result<usize, Refusal>, count: &mut usize) -> u8
    ensures { Counted (says answer) count.old result count.new }
{
    match answer {
        Ok(n) => {
            *count = n;
            0
        }
        Err(refusal) => refusal.reason as u8,
    }
}

// How long what was written is, or with 15 the length needed.
fn tell_length(answer: Result<usize, Refusal>, length: &mut usize) -> u8
    ensures { Measured (says answer) length.old result length.new }
{
    match answer {
        Ok(n) => {
            *length = n;
            0
        }
        Err(refusal) => {
            if refusal.reason == Reason::ShortOutput {
                *length = refusal.place;
            }
            refusal.reason as u8
        }
    }
}

// 0 where the line is accepted, else the number of its refusal, with the place in `place`. Takes any bytes.
pub fn hwemiduk_verdict(line: &[u8], place: &mut usize) -> u8
    ensures { Judged line.now place.old result place.new }
{
    tell(verdict::verdict_on(line), place)
}

// Reads any bytes into the two areas: 0 where the line is accepted, with its tables in the areas and what lies past the fixed sizes as it was; else the number of
// the refusal, with the place in `place` and the areas as they were.
pub fn hwemiduk_read(line: &[u8], bytes: &mut [u8], numbers: &mut [i64], place: &mut usize) -> u8
    ensures { Exported line.now bytes.old numbers.old place.old result place.new bytes.new numbers.new }
{
    tell(reader::read(line, bytes, numbers), place)
}

// The pieces of a text behind `Glycan:`, two bytes each, into an output of any length: 0 and how many bytes were written, with those behind them as they were; else 15
// and the length needed, or 19, with the output as it was. Takes any bytes.
pub fn hwemiduk_composition(text: &[u8], pieces: &mut [u8], length: &mut usize) -> u8
    ensures { PiecesHanded text.now pieces.old length.old result length.new pieces.new }
{
    tell_length(glycans::pieces(text, pieces), length)
}
