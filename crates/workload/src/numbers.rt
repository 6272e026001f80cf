// The numbers that a benchmark draws.
ghost use Rattle.std.specs.Prelude.{◌≡◌, ◌/◌, ◌^◌};
ghost use Rattle.workload.specs.Numbers.{next};

/// The number behind a number.
pub(crate) fn next(number: u64) -> u64
    ensures { result ≡ next number }
{
    number
        .wrapping_mul(6_364_136_223_846_793_005)
        .wrapping_add(1_442_695_040_888_963_407)
}

/// The upper 32 bits of a number.
pub(crate) fn upper_half(number: u64) -> u32
    ensures { result ≡ number / 2 ^ 32 }
{
    (number >> 32) as u32
}
