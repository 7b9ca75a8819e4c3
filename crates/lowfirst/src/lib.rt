// Numbers in bytes, low bytes first, from a place of a slice on.
#![tactic(auto)]

ghost use Rattle.std.specs.Prelude.{◌≡◌, ◌+◌, ◌^◌, ◌≤◌, ◌<◌, length};
ghost use Rattle.scope.specs.Bytes.{wide_limit};
ghost use Rattle.scope.specs.Lists.{part};
ghost use Rattle.blocks.specs.LowFirst.{little, low_first};
ghost use Rattle.blocks.specs.Area.{put_at};

// The number in two bytes.
pub fn two_at(s: &[u8], at: usize) -> usize
    requires { at + 2 ≤ length s.now }
    ensures { (result ≡ little (part at 2 s.now)) × (result < wide_limit) }
{
    usize::from(u16::from_le_bytes([s[at], s[at + 1]]))
}

// The number in four bytes.
pub fn four_at(s: &[u8], at: usize) -> u32
    requires { at + 4 ≤ length s.now }
    ensures { result ≡ little (part at 4 s.now) }
{
    u32::from_le_bytes([s[at], s[at + 1], s[at + 2], s[at + 3]])
}

// A number into two bytes.
pub fn put_two(n: usize, s: &mut [u8], at: usize)
    requires { (n < wide_limit) × (at + 2 ≤ length s.old) }
    ensures { s.new ≡ put_at at (low_first 2 n) s.old }
{
    let bytes = (n as u16).to_le_bytes();
    s[at..at + 2].copy_from_slice(&bytes);
}

// A number into four bytes.
pub fn put_four(n: u32, s: &mut [u8], at: usize)
    requires { at + 4 ≤ length s.old }
    ensures { s.new ≡ put_at at (low_first 4 n) s.old }
{
    let bytes = n.to_le_bytes();
    s[at..at + 4].copy_from_slice(&bytes);
}
