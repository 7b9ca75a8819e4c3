// What the register prints of a line, into a lent output.
ghost use Rattle.std.specs.Prelude.{length};
ghost use Rattle.export.specs.Shapes.{EntryHanded};

// What the register prints of a line with this number, and byte 10: 0 and how many bytes were written, with those behind them as they were; else 15 and the length
// needed, with the output as it was.
#[unsafe(no_mangle)]
pub extern "C" fn hwemiduk_entry(number: u64, line: &[u8], out: &mut [u8], length: &mut usize) -> u8
    ensures { EntryHanded number line.now out.old length.old result length.new out.new }
{
    export::printed::hwemiduk_entry(number, line, out, length)
}
