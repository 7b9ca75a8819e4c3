// The exports to C: each calls the function of crates/export that has its name, and states its clauses again.
#![tactic(auto)]

mod handed;
mod kept;
mod printed;
mod tables;

ghost use Rattle.export.specs.Numbers.{Judged, Exported};
ghost use Rattle.export.specs.Shapes.{PiecesHanded};

// 0 where the line is accepted, else the number of its refusal, with the place in `place`. Takes any bytes.
#[unsafe(no_mangle)]
pub extern "C" fn hwemiduk_verdict(line: &[u8], place: &mut usize) -> u8
    ensures { Judged line.now place.old result place.new }
{
    export::hwemiduk_verdict(line, place)
}

// Reads any bytes into the two areas: 0 where the line is accepted, with its tables in the areas and what lies past the fixed sizes as it was; else the number of
// the refusal, with the place in `place` and the areas as they were.
#[unsafe(no_mangle)]
pub extern "C" fn hwemiduk_read(
    line: &[u8],
    bytes: &mut [u8],
    numbers: &mut [i64],
    place: &mut usize,
) -> u8
    ensures { Exported line.now bytes.old numbers.old place.old result place.new bytes.new numbers.new }
{
    export::hwemiduk_read(line, bytes, numbers, place)
}

// The pieces of a text behind `Glycan:`, two bytes each, into an output of any length: 0 and how many bytes were written, with those behind them as they were; else 15
// and the length needed, or 19, with the output as it was. Takes any bytes.
#[unsafe(no_mangle)]
pub extern "C" fn hwemiduk_composition(text: &[u8], pieces: &mut [u8], length: &mut usize) -> u8
    ensures { PiecesHanded text.now pieces.old length.old result length.new pieces.new }
{
    export::hwemiduk_composition(text, pieces, length)
}
