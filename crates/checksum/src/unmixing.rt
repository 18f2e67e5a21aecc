//! The mixing of Bob Jenkins' lookup3.c undone: one line of its macros mix and final is undone by
//! one function here; the inverse of each macro goes from its last line to its first.
ghost use Rattle.std.specs.Prelude.{◌≡◌};
ghost use Rattle.checksum.specs.Mix.{mixed, final_mixed};
ghost use Rattle.checksum.specs.Unmix.{xor_add, add_xor, unmix_a, unmix_b, unmix_c, unmixed};
ghost use Rattle.checksum.specs.Unmix.{unfinal_a, unfinal_b, unfinal_c, unfinal_mixed};
ghost use Rattle.checksum.specs.Undoing.{Undoes, Injective};

use crate::mixing::MixState;

// What `sub_xor` did is undone: `x` is exclusive-ored with `y` rotated by `k`, then `y` is added to
// it.
fn xor_add(x: u32, y: u32, k: u32) -> u32
    ensures { result ≡ xor_add x y k }
{
    (x ^ y.rotate_left(k)).wrapping_add(y)
}

// What `xor_sub` did is undone: `y` rotated by `k` is added to `x`, then `x` is exclusive-ored with
// `y`.
fn add_xor(x: u32, y: u32, k: u32) -> u32
    ensures { result ≡ add_xor x y k }
{
    x.wrapping_add(y.rotate_left(k)) ^ y
}

// A line of mix for a undone: b is taken from c again, and what c did to a is undone.
fn unmix_a(s: MixState, k: u32) -> MixState
    ensures { result ≡ unmix_a k s }
{
    let c = s.c.wrapping_sub(s.b);
    MixState {
        a: xor_add(s.a, c, k),
        b: s.b,
        c,
    }
}

// A line of mix for b undone: likewise c from a, and what a did to b.
fn unmix_b(s: MixState, k: u32) -> MixState
    ensures { result ≡ unmix_b k s }
{
    let a = s.a.wrapping_sub(s.c);
    MixState {
        a,
        b: xor_add(s.b, a, k),
        c: s.c,
    }
}

// A line of mix for c undone: likewise a from b, and what b did to c.
fn unmix_c(s: MixState, k: u32) -> MixState
    ensures { result ≡ unmix_c k s }
{
    let b = s.b.wrapping_sub(s.a);
    MixState {
        a: s.a,
        b,
        c: xor_add(s.c, b, k),
    }
}

/// The inverse of the mix of three words.
pub fn unmix(s: MixState) -> MixState
    ensures { result ≡ unmixed s }
{
    let s = unmix_c(s, 4);
    let s = unmix_b(s, 19);
    let s = unmix_a(s, 16);
    let s = unmix_c(s, 8);
    let s = unmix_b(s, 6);
    unmix_a(s, 4)
}

// A line of final for c undone: what b did to it.
fn unfinal_c(s: MixState, k: u32) -> MixState
    ensures { result ≡ unfinal_c k s }
{
    MixState {
        c: add_xor(s.c, s.b, k),
        ..s
    }
}

// A line of final for a undone: likewise what c did.
fn unfinal_a(s: MixState, k: u32) -> MixState
    ensures { result ≡ unfinal_a k s }
{
    MixState {
        a: add_xor(s.a, s.c, k),
        ..s
    }
}

// A line of final for b undone: likewise what a did.
fn unfinal_b(s: MixState, k: u32) -> MixState
    ensures { result ≡ unfinal_b k s }
{
    MixState {
        b: add_xor(s.b, s.a, k),
        ..s
    }
}

/// The inverse of the final mix of three words.
pub fn unfinal_mix(s: MixState) -> MixState
    ensures { result ≡ unfinal_mixed s }
{
    let s = unfinal_c(s, 24);
    let s = unfinal_b(s, 14);
    let s = unfinal_a(s, 4);
    let s = unfinal_c(s, 16);
    let s = unfinal_b(s, 25);
    let s = unfinal_a(s, 11);
    unfinal_c(s, 14)
}

/// A law: the mix and its inverse undo each other, before and after, on any three 32-bit words.
pub fn the_mix_is_undone()
    ensures { Undoes mixed unmixed }
{}

/// A law: so do the final mix and its inverse.
pub fn the_final_mix_is_undone()
    ensures { Undoes final_mixed unfinal_mixed }
{}

/// A law: two states of three 32-bit words with the same mix, or the same final mix, are the same.
pub fn the_mixes_lose_nothing()
    ensures mix { Injective mixed }
    ensures final_mix { Injective final_mixed }
{}
