//! The checksum of bytes of which four, at a place, count as zero: that of a direct block, which
//! covers its own field. One pass, with no buffer and no copy: what the field is about to add to
//! the words is taken from them before.
ghost use Rattle.std.specs.Prelude.{◌≡◌, ◌+◌, ◌≤◌, length};
ghost use Rattle.fields.specs.LittleEndian.{le_at};
ghost use Rattle.checksum.specs.Words.{add32};
ghost use Rattle.checksum.specs.Lookup3.{grouped, hashlittle};
ghost use Rattle.checksum.specs.Zeroed.{zeroed};

use crate::mixing::{MixState, mix};
use crate::tail::ended;
use crate::{GROUP_SIZE, add_group, begun};
use fields::little_endian::read_u32_le;

/// The bytes that count as zero.
const FIELD_SIZE: usize = 4;

// What the field's bytes are in the word at `p`, of which none, some or all are the field's.
#[tactic(auto, using(crate::proofs::Zeroing::word_parts))]
fn field_in_word(bytes: &[u8], p: usize, place: usize) -> u32
    requires { place + FIELD_SIZE ≤ length bytes.now }
    ensures { le_at (zeroed bytes.now place) p 4 + result ≡ le_at bytes.now p 4 }
{
    let field = read_u32_le(bytes, place);
    if p <= place {
        let before = place - p;
        if before < 4 { field << (8 * before) } else { 0 }
    } else {
        let past = p - place;
        if past < 4 { field >> (8 * past) } else { 0 }
    }
}

// A word to which the bytes at `p` are yet to be added, without the field among them.
#[tactic(auto, using(crate::proofs::Zeroing::taken_before))]
fn word_without_field(x: u32, bytes: &[u8], p: usize, place: usize) -> u32
    requires { place + FIELD_SIZE ≤ length bytes.now }
    ensures { add32 result (le_at bytes.now p 4) ≡ add32 x (le_at (zeroed bytes.now place) p 4) }
{
    x.wrapping_sub(field_in_word(bytes, p, place))
}

// The words to which the group at `at`, or the tail there, is yet to be added: likewise. A group
// that ends before the field or begins behind it leaves them as they are.
#[tactic(auto, using(crate::proofs::Zeroing::groups_apart))]
fn without_field(s: MixState, bytes: &[u8], at: usize, place: usize) -> MixState
    requires here { at ≤ length bytes.now }
    requires room { place + FIELD_SIZE ≤ length bytes.now }
    ensures { grouped bytes.now at result ≡ grouped (zeroed bytes.now place) at s }
{
    if at + GROUP_SIZE <= place {
        return s;
    }
    if place + FIELD_SIZE <= at {
        return s;
    }
    MixState {
        a: word_without_field(s.a, bytes, at, place),
        b: word_without_field(s.b, bytes, at + 4, place),
        c: word_without_field(s.c, bytes, at + 8, place),
    }
}

/// The checksum of the bytes with the four at `place` as zero. The caller has tested that they are
/// there.
pub fn lookup3_zeroed(bytes: &[u8], place: usize) -> u32
    requires { place + FIELD_SIZE ≤ length bytes.now }
    ensures { result ≡ hashlittle (zeroed bytes.now place) }
{
    let mut s = begun(bytes.len());
    let mut at: usize = 0;
    while bytes.len() - at > GROUP_SIZE {
        s = mix(add_group(without_field(s, bytes, at, place), bytes, at));
        at += GROUP_SIZE;
    }
    ended(without_field(s, bytes, at, place), &bytes[at..])
}
