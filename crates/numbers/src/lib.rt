//! Products and shifts of 64-bit numbers that stop at 2^64 - 1, a number's exponent, and how many
//! bytes it needs. Public for the crates above alone.
#![tactic(auto)]

ghost use Rattle.std.specs.Prelude.{◌≡◌, ◌*◌, ◌^◌, ◌≤◌, ◌<◌};
ghost use Rattle.numbers.specs.Numbers.{saturated, log2, TopExponent, bytes_needed, BytesAreFewest};

/// A size below it, 2^48, times any width stays below 2^64.
const SMALL_SIZE: u64 = 0x1_0000_0000_0000;

/// The product, or 2^64 - 1 where it is larger. A small size takes no division.
#[tactic(auto, using(crate::proofs::Saturating::products))]
pub fn saturating_mul(size: u64, width: u16) -> u64
    ensures { result ≡ saturated (size * width) }
{
    let times = width as u64;
    if size < SMALL_SIZE {
        return size * times;
    }
    if times <= u64::MAX / size {
        size * times
    } else {
        u64::MAX
    }
}

/// The product with 2^bits, or 2^64 - 1 where it is larger. The caller has tested that it is a
/// shift.
#[tactic(auto, using(crate::proofs::Saturating::shifts))]
pub fn saturating_shl(size: u64, bits: u64) -> u64
    requires { bits < 64 }
    ensures { result ≡ saturated (size * 2 ^ bits) }
{
    if size <= u64::MAX >> bits {
        size << bits
    } else {
        u64::MAX
    }
}

/// The exponent of the largest power of two that is at most `v`; 0 of 0.
#[tactic(auto, using(crate::proofs::Log2::exponents))]
pub fn log2_floor(v: u64) -> u64
    ensures exponent { result ≡ log2 v }
    ensures largest_power { 0 < v → TopExponent v result }
{
    if v == 0 {
        return 0;
    }
    (63 - u64::leading_zeros(v)) as u64
}

/// The fewest bytes that hold a number; none hold 0.
#[tactic(auto, using(crate::proofs::Bytes::fewest))]
pub fn bytes_needed(x: u64) -> u64
    ensures fewest { result ≡ bytes_needed x }
    ensures bound { result ≤ 8 }
{
    if x == 0 {
        return 0;
    }
    log2_floor(x) / 8 + 1
}

/// Of every number the bytes that it needs hold it, and no fewer do.
pub fn needed_bytes_are_fewest()
    ensures { BytesAreFewest }
{}
