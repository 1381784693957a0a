//! The numbers from which steps are made.
ghost use Rattle.std.specs.Prelude.{◌≡◌, ◌<◌, ◌^◌};
ghost use Rattle.wm_generate.specs.Numbers.{drawn, next};

/// The multiplier of the sequence.
const MULTIPLIER: u64 = 6_364_136_223_846_793_005;

/// The increment of the sequence.
const INCREMENT: u64 = 1_442_695_040_888_963_407;

/// The number after this one in the sequence.
pub fn next(number: u64) -> u64
    ensures { result ≡ next number }
{
    number.wrapping_mul(MULTIPLIER).wrapping_add(INCREMENT)
}

/// What is drawn by a number: its upper 31 bits.
pub fn drawn(number: u64) -> u32
    ensures { result ≡ drawn number }
{
    (number >> 33) as u32
}
