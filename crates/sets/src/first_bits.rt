//! Numbers whose first bits are set.
ghost use Rattle.std.specs.Prelude.{◌≡◌, ◌-◌, ◌^◌, min};

/// The number whose first `count` bits, of 64 at most, are set, and no other.
pub fn first_bits(count: u8) -> u64
    ensures { result ≡ 2 ^ min count 64 - 1 }
{
    if count < 64 {
        (1u64 << count) - 1
    } else {
        u64::MAX
    }
}
