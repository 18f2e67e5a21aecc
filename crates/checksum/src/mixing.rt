//! The mixing of Bob Jenkins' lookup3.c. One line of its macros mix and final is one function here,
//! from a state to a state; a state is its three words.
ghost use Rattle.std.specs.Prelude.{◌≡◌};
ghost use Rattle.checksum.specs.Words.{sub_xor, xor_sub};
ghost use Rattle.checksum.specs.Mix.{mix_a, mix_b, mix_c, mixed, final_a, final_b, final_c};
ghost use Rattle.checksum.specs.Mix.{final_mixed};

/// The three words a, b and c.
#[derive(Clone, Copy)]
pub struct MixState {
    pub a: u32,
    pub b: u32,
    pub c: u32,
}

// `y` is taken from `x`, then `x` is exclusive-ored with `y` rotated by `k`.
fn sub_xor(x: u32, y: u32, k: u32) -> u32
    ensures { result ≡ sub_xor x y k }
{
    x.wrapping_sub(y) ^ y.rotate_left(k)
}

// `x` is exclusive-ored with `y`, then `y` rotated by `k` is taken from it.
fn xor_sub(x: u32, y: u32, k: u32) -> u32
    ensures { result ≡ xor_sub x y k }
{
    (x ^ y).wrapping_sub(y.rotate_left(k))
}

// A line of mix for a: c is taken from it, then it is exclusive-ored with c rotated by `k`; b is
// added to c.
fn mix_a(s: MixState, k: u32) -> MixState
    ensures { result ≡ mix_a k s }
{
    MixState {
        a: sub_xor(s.a, s.c, k),
        b: s.b,
        c: s.c.wrapping_add(s.b),
    }
}

// A line of mix for b: likewise with a; c is added to a.
fn mix_b(s: MixState, k: u32) -> MixState
    ensures { result ≡ mix_b k s }
{
    MixState {
        a: s.a.wrapping_add(s.c),
        b: sub_xor(s.b, s.a, k),
        c: s.c,
    }
}

// A line of mix for c: likewise with b; a is added to b.
fn mix_c(s: MixState, k: u32) -> MixState
    ensures { result ≡ mix_c k s }
{
    MixState {
        a: s.a,
        b: s.b.wrapping_add(s.a),
        c: sub_xor(s.c, s.b, k),
    }
}

/// The mix of three words, after each group of 12 bytes.
pub fn mix(s: MixState) -> MixState
    ensures { result ≡ mixed s }
{
    let s = mix_a(s, 4);
    let s = mix_b(s, 6);
    let s = mix_c(s, 8);
    let s = mix_a(s, 16);
    let s = mix_b(s, 19);
    mix_c(s, 4)
}

// A line of final for c: it is exclusive-ored with b, then b rotated by `k` is taken from it.
fn final_c(s: MixState, k: u32) -> MixState
    ensures { result ≡ final_c k s }
{
    MixState {
        a: s.a,
        b: s.b,
        c: xor_sub(s.c, s.b, k),
    }
}

// A line of final for a: likewise with c.
fn final_a(s: MixState, k: u32) -> MixState
    ensures { result ≡ final_a k s }
{
    MixState {
        a: xor_sub(s.a, s.c, k),
        b: s.b,
        c: s.c,
    }
}

// A line of final for b: likewise with a.
fn final_b(s: MixState, k: u32) -> MixState
    ensures { result ≡ final_b k s }
{
    MixState {
        a: s.a,
        b: xor_sub(s.b, s.a, k),
        c: s.c,
    }
}

/// The final mix of three words.
pub fn final_mix(s: MixState) -> MixState
    ensures { result ≡ final_mixed s }
{
    let s = final_c(s, 14);
    let s = final_a(s, 11);
    let s = final_b(s, 25);
    let s = final_c(s, 16);
    let s = final_a(s, 4);
    let s = final_b(s, 14);
    final_c(s, 24)
}
