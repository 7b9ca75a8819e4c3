// Bytes copied over others.
#![tactic(auto)]

ghost use Rattle.std.specs.Prelude.{◌≡◌, length};

// Bytes over as many others, one after another. Std's `copy_from_slice` would need `memmove` where it is not known that they lie apart, and the header of the library
// asks for `memcpy` and `memset` alone.
pub fn copy(from: &[u8], to: &mut [u8])
    requires { length to.old ≡ length from.now }
    ensures { to.new ≡ from.now }
{
    for i in 0..from.len() {
        to[i] = from[i];
    }
}
