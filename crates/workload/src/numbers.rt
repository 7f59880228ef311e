//! The numbers that a session draws.
ghost use Rattle.std.specs.Prelude.{◌≡◌, ◌<◌, ◌≤◌, ◌/◌, ◌%◌, ◌^◌};
ghost use Rattle.workload.specs.Numbers.{next_number, value_of};

/// The number after this one: a linear congruential generator modulo 2^31, with the multiplier and the
/// increment of the example in the C standard (ISO/IEC 9899:2011, section 7.22.2).
pub(crate) fn next_number(number: u64) -> u64
    requires { number ≤ 2 ^ 32 }
    ensures value { result ≡ next_number number }
    ensures small { result < 2 ^ 31 }
{
    (number * 1_103_515_245 + 12_345) % 2_147_483_648
}

/// The value that a number gives: three digits of its upper bits, since the lower ones of such a generator
/// repeat soon.
pub(crate) fn value_of(number: u64) -> u64
    ensures { result ≡ value_of number }
{
    number / 65_536 % 1000
}
