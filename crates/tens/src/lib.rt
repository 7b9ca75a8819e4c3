// The powers of ten that 64 bits hold.
#![tactic(auto)]

ghost use Rattle.std.specs.Prelude.{◌≡◌, ◌^◌, ◌<◌};
ghost use Rattle.tens.specs.Tens.{power_count};

pub const TEN: u64 = 10;

pub const HUNDRED: u64 = 10 * TEN;

pub const THOUSAND: u64 = 10 * HUNDRED;

pub const TEN_THOUSAND: u64 = 10 * THOUSAND;

pub const HUNDRED_THOUSAND: u64 = 10 * TEN_THOUSAND;

// A unit, in millionths.
pub const MILLION: u64 = 10 * HUNDRED_THOUSAND;

// 10^d. A match is a table in the program; an array would be laid on the stack at each call.
pub fn power(d: usize) -> u64
    requires { d < power_count }
    ensures { result ≡ 10 ^ d }
{
    match d {
        0 => 1,
        1 => TEN,
        2 => HUNDRED,
        3 => THOUSAND,
        4 => TEN_THOUSAND,
        5 => HUNDRED_THOUSAND,
        6 => MILLION,
        7 => 10000000,
        8 => 100000000,
        9 => 1000000000,
        10 => 10000000000,
        11 => 100000000000,
        12 => 1000000000000,
        13 => 10000000000000,
        14 => 100000000000000,
        15 => 1000000000000000,
        16 => 10000000000000000,
        17 => 100000000000000000,
        18 => 1000000000000000000,
        _ => 10000000000000000000,
    }
}
