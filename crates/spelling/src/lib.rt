// Writes keys and places, each in the spelling that a canonical line gives it.
#![tactic(auto)]

ghost use Rattle.std.specs.Prelude.{◌+◌, ◌≤◌};
ghost use Rattle.scope.specs.Keys.{written, key_in};
ghost use Rattle.scope.specs.Places.{site_text};
ghost use Rattle.figures.specs.Written.{Puts, ceiling};
ghost use Rattle.spelling.specs.Widths.{key_most, site_most};

use figures::{put, word};
use scope::tables::Tables;

// The prefixes and key words, "written in the spelling given here", and the colon behind them; nothing for no key.
pub fn put_key(c: usize, out: &mut [u8], at: usize) -> usize
    requires { at + key_most ≤ ceiling }
    ensures { Puts key_most out.old at (written (key_in c)) out.new result }
{
    let w = words::word_of(words::key_of(c));
    if w.is_empty() {
        at
    } else {
        let a = word(w, out, at);
        put(out, a, b':')
    }
}

// A place of a declaration: the word of a terminus, or a letter.
pub fn put_site(s: u8, out: &mut [u8], at: usize) -> usize
    requires { at + site_most ≤ ceiling }
    ensures { Puts site_most out.old at (site_text s) out.new result }
{
    match s {
        Tables::N_TERMINUS => word(b"N-term", out, at),
        Tables::C_TERMINUS => word(b"C-term", out, at),
        _ => put(out, at, s),
    }
}
