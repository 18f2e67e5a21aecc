//! The switch of hashlittle, which adds the tail, and the final mix: a function for each case,
//! below its line of lookup3.c, adds its byte and falls through to the next. `s` are the words
//! before the switch, and `added` is what its cases have added so far, so that `plus s added` are
//! the switch's three words at each case. The two are kept apart until case 1, since the compiler
//! then makes one load of the bytes of a word.
#![tactic(auto, using(crate::proofs::Switch::next_case))]

ghost use Rattle.std.specs.Prelude.{◌≡◌, ◌+◌, ◌-◌, ◌*◌, ◌^◌, ◌≤◌, length};
ghost use Rattle.checksum.specs.Words.{add32};
ghost use Rattle.checksum.specs.Lookup3.{plus, after, ended};
ghost use Rattle.checksum.specs.declared.mixing.MixState.{MixState};

use crate::GROUP_SIZE;
use crate::mixing::{MixState, final_mix};

fn add_byte(x: u32, byte: u8, shift: u32) -> u32
    requires { shift ≤ 24 }
    ensures { result ≡ add32 x (byte * 2 ^ shift) }
{
    x.wrapping_add((byte as u32) << shift)
}

fn add_a(s: MixState, byte: u8, shift: u32) -> MixState
    requires { shift ≤ 24 }
    ensures { result ≡ record { a = add32 s.a (byte * 2 ^ shift); b = s.b; c = s.c } }
{
    MixState {
        a: add_byte(s.a, byte, shift),
        ..s
    }
}

fn add_b(s: MixState, byte: u8, shift: u32) -> MixState
    requires { shift ≤ 24 }
    ensures { result ≡ record { a = s.a; b = add32 s.b (byte * 2 ^ shift); c = s.c } }
{
    MixState {
        b: add_byte(s.b, byte, shift),
        ..s
    }
}

fn add_c(s: MixState, byte: u8, shift: u32) -> MixState
    requires { shift ≤ 24 }
    ensures { result ≡ record { a = s.a; b = s.b; c = add32 s.c (byte * 2 ^ shift) } }
{
    MixState {
        c: add_byte(s.c, byte, shift),
        ..s
    }
}

fn plus(s: MixState, added: MixState) -> MixState
    ensures { result ≡ plus s added }
{
    MixState {
        a: s.a.wrapping_add(added.a),
        b: s.b.wrapping_add(added.b),
        c: s.c.wrapping_add(added.c),
    }
}

// case 12: c+=((uint32_t)k[11])<<24;
#[inline(always)]
fn case_12(s: MixState, added: MixState, k: &[u8]) -> MixState
    requires met { 12 ≤ length k.now }
    requires words { plus s added ≡ after 13 k.now s }
    ensures { result ≡ after 1 k.now s }
{
    case_11(s, add_c(added, k[11], 24), k)
}

// case 11: c+=((uint32_t)k[10])<<16;
#[inline(always)]
fn case_11(s: MixState, added: MixState, k: &[u8]) -> MixState
    requires met { 11 ≤ length k.now }
    requires words { plus s added ≡ after 12 k.now s }
    ensures { result ≡ after 1 k.now s }
{
    case_10(s, add_c(added, k[10], 16), k)
}

// case 10: c+=((uint32_t)k[9])<<8;
#[inline(always)]
fn case_10(s: MixState, added: MixState, k: &[u8]) -> MixState
    requires met { 10 ≤ length k.now }
    requires words { plus s added ≡ after 11 k.now s }
    ensures { result ≡ after 1 k.now s }
{
    case_9(s, add_c(added, k[9], 8), k)
}

// case 9 : c+=k[8];
#[inline(always)]
fn case_9(s: MixState, added: MixState, k: &[u8]) -> MixState
    requires met { 9 ≤ length k.now }
    requires words { plus s added ≡ after 10 k.now s }
    ensures { result ≡ after 1 k.now s }
{
    case_8(s, add_c(added, k[8], 0), k)
}

// case 8 : b+=((uint32_t)k[7])<<24;
#[inline(always)]
fn case_8(s: MixState, added: MixState, k: &[u8]) -> MixState
    requires met { 8 ≤ length k.now }
    requires words { plus s added ≡ after 9 k.now s }
    ensures { result ≡ after 1 k.now s }
{
    case_7(s, add_b(added, k[7], 24), k)
}

// case 7 : b+=((uint32_t)k[6])<<16;
#[inline(always)]
fn case_7(s: MixState, added: MixState, k: &[u8]) -> MixState
    requires met { 7 ≤ length k.now }
    requires words { plus s added ≡ after 8 k.now s }
    ensures { result ≡ after 1 k.now s }
{
    case_6(s, add_b(added, k[6], 16), k)
}

// case 6 : b+=((uint32_t)k[5])<<8;
#[inline(always)]
fn case_6(s: MixState, added: MixState, k: &[u8]) -> MixState
    requires met { 6 ≤ length k.now }
    requires words { plus s added ≡ after 7 k.now s }
    ensures { result ≡ after 1 k.now s }
{
    case_5(s, add_b(added, k[5], 8), k)
}

// case 5 : b+=k[4];
#[inline(always)]
fn case_5(s: MixState, added: MixState, k: &[u8]) -> MixState
    requires met { 5 ≤ length k.now }
    requires words { plus s added ≡ after 6 k.now s }
    ensures { result ≡ after 1 k.now s }
{
    case_4(s, add_b(added, k[4], 0), k)
}

// case 4 : a+=((uint32_t)k[3])<<24;
#[inline(always)]
fn case_4(s: MixState, added: MixState, k: &[u8]) -> MixState
    requires met { 4 ≤ length k.now }
    requires words { plus s added ≡ after 5 k.now s }
    ensures { result ≡ after 1 k.now s }
{
    case_3(s, add_a(added, k[3], 24), k)
}

// case 3 : a+=((uint32_t)k[2])<<16;
#[inline(always)]
fn case_3(s: MixState, added: MixState, k: &[u8]) -> MixState
    requires met { 3 ≤ length k.now }
    requires words { plus s added ≡ after 4 k.now s }
    ensures { result ≡ after 1 k.now s }
{
    case_2(s, add_a(added, k[2], 16), k)
}

// case 2 : a+=((uint32_t)k[1])<<8;
#[inline(always)]
fn case_2(s: MixState, added: MixState, k: &[u8]) -> MixState
    requires met { 2 ≤ length k.now }
    requires words { plus s added ≡ after 3 k.now s }
    ensures { result ≡ after 1 k.now s }
{
    case_1(s, add_a(added, k[1], 8), k)
}

// case 1 : a+=k[0];
#[inline(always)]
fn case_1(s: MixState, added: MixState, k: &[u8]) -> MixState
    requires met { 1 ≤ length k.now }
    requires words { plus s added ≡ after 2 k.now s }
    ensures { result ≡ after 1 k.now s }
{
    plus(s, add_a(added, k[0], 0))
}

// The switch, entered at the case of the tail's length, and the final mix; case 0, without bytes,
// has none. Tried: case 1 as the last arm: one byte takes 0.94 to 0.96 of the original's time and
// not 1.00 to 1.02, but no byte 1.11 and not 0.80.
#[tactic(auto, using(crate::proofs::Switch::entering))]
#[inline(always)]
pub fn ended(s: MixState, k: &[u8]) -> u32
    requires { length k.now ≤ GROUP_SIZE }
    ensures { result ≡ ended k.now s }
{
    let nothing_added = MixState { a: 0, b: 0, c: 0 };
    let s = match k.len() {
        12 => case_12(s, nothing_added, k),
        11 => case_11(s, nothing_added, k),
        10 => case_10(s, nothing_added, k),
        9 => case_9(s, nothing_added, k),
        8 => case_8(s, nothing_added, k),
        7 => case_7(s, nothing_added, k),
        6 => case_6(s, nothing_added, k),
        5 => case_5(s, nothing_added, k),
        4 => case_4(s, nothing_added, k),
        3 => case_3(s, nothing_added, k),
        2 => case_2(s, nothing_added, k),
        1 => case_1(s, nothing_added, k),
        _ => return s.c,
    };
    let s = final_mix(s);
    s.c
}
