// What the register prints of a line, into a lent output.
ghost use Rattle.export.specs.Shapes.{Fitted, EntryHanded};

use entries::{ENTRY, put_entry};
use scope::refusals::Reason;
use scope::tables::Tables;
use sheet::Sheet;

// A text into an output of any length: 0 with its length; else 15 with the length needed, and the output as it was.
fn hand_out(text: &[u8], out: &mut [u8], needed: &mut usize) -> u8
    ensures { Fitted text.now out.old needed.old result needed.new out.new }
{
    let n = text.len();
    *needed = n;
    if out.len() < n {
        Reason::ShortOutput as u8
    } else {
        out[..n].copy_from_slice(text);
        0
    }
}

// What the register prints of a line with this number, and byte 10: 0 and how many bytes were written, with those behind them as they were; else 15 and the length
// needed, with the output as it was.
pub fn hwemiduk_entry(number: u64, line: &[u8], out: &mut [u8], length: &mut usize) -> u8
    ensures { EntryHanded number line.now out.old length.old result length.new out.new }
{
    let mut sheet = Sheet::new();
    let mut bytes = [0u8; Tables::BYTES];
    let mut numbers = [0i64; Tables::NUMBERS];
    let mut text = [0u8; ENTRY];
    let e = put_entry(
        number,
        line,
        &mut sheet,
        &mut bytes,
        &mut numbers,
        &mut text,
        0,
    );
    hand_out(&text[..e.next], out, length)
}
