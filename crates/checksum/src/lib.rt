//! HDF5's metadata checksum: hashlittle of Bob Jenkins' lookup3.c with initial value 0.
#![tactic(auto)]

pub mod mixing;
mod tail;
pub mod unmixing;
pub mod zeroed;

ghost use Rattle.std.specs.Prelude.{◌≡◌, ◌+◌, ◌<◌, ◌≤◌, length};
ghost use Rattle.fields.specs.LittleEndian.{le_at};
ghost use Rattle.checksum.specs.Words.{add32};
ghost use Rattle.checksum.specs.Lookup3.{begun, grouped, hashlittle};
ghost use Rattle.checksum.specs.Laws.{MixedWhileMore, SwitchedByCase, TailsSwitched};
ghost use Rattle.checksum.specs.Damage.{GroupsShow, PartsShow};
ghost use Rattle.checksum.specs.declared.mixing.MixState.{MixState};

use crate::mixing::mix;
use crate::tail::ended;
use fields::little_endian::read_u32_le;
pub use mixing::MixState;

/// The bytes of a group, four for each of three words; of a tail there are as many at most.
const GROUP_SIZE: usize = 12;

/// How many values a word has: 2^32.
const WORD_VALUES: u64 = 0x1_0000_0000;

/// What each word is at the start, before the length is added.
const START_WORD: u32 = 0xdeadbeef;

// A word with the four bytes at `p` added.
fn add_word(x: u32, bytes: &[u8], p: usize) -> u32
    requires { p + 4 ≤ length bytes.now }
    ensures { result ≡ add32 x (le_at bytes.now p 4) }
{
    x.wrapping_add(read_u32_le(bytes, p))
}

// The group at `at` added to the words, four to each.
fn add_group(s: MixState, bytes: &[u8], at: usize) -> MixState
    requires { at + GROUP_SIZE ≤ length bytes.now }
    ensures { result ≡ grouped bytes.now at s }
{
    MixState {
        a: add_word(s.a, bytes, at),
        b: add_word(s.b, bytes, at + 4),
        c: add_word(s.c, bytes, at + 8),
    }
}

fn begun(n: usize) -> MixState
    ensures { result ≡ begun n }
{
    let first = START_WORD.wrapping_add((n as u64 % WORD_VALUES) as u32);
    MixState {
        a: first,
        b: first,
        c: first,
    }
}

// More than 12 bytes: groups of 12 are mixed while more remain, and 1 to 12 bytes are left. It is
// not inlined, so that what is short does not pay for the loop's registers.
#[inline(never)]
fn mix_groups(bytes: &[u8]) -> u32
    requires { GROUP_SIZE < length bytes.now }
    ensures { result ≡ hashlittle bytes.now }
{
    let mut s = begun(bytes.len());
    let mut at: usize = 0;
    while bytes.len() - at > GROUP_SIZE {
        s = mix(add_group(s, bytes, at));
        at += GROUP_SIZE;
    }
    ended(s, &bytes[at..])
}

/// The checksum that seals HDF5's metadata: hashlittle(bytes, length, 0).
#[tactic(auto, using(crate::proofs::Loop::few_ended))]
pub fn jenkins_lookup3(bytes: &[u8]) -> u32
    ensures { result ≡ hashlittle bytes.now }
{
    if bytes.len() > GROUP_SIZE {
        return mix_groups(bytes);
    }
    ended(begun(bytes.len()), bytes)
}

/// A law: the loop of hashlittle mixes a group of 12 bytes exactly while more than 12 remain.
pub fn groups_are_mixed_while_more_remain()
    ensures { MixedWhileMore }
{}

/// A law: the words after each case of the switch of hashlittle, by the case's number.
pub fn the_switch_goes_case_by_case()
    ensures { SwitchedByCase }
{}

/// A law: what the switch of hashlittle adds, byte by byte, is what the 1 to 12 bytes of a tail are
/// as words.
pub fn tails_are_added_as_words()
    ensures { TailsSwitched }
{}

/// A law: inputs of one length that differ in one group of 12 bytes alone, with more bytes behind
/// it, have different words after that group's mix.
pub fn a_changed_group_shows()
    ensures { GroupsShow }
{}

/// A law: inputs of one length that differ in one group of 12 bytes alone, or in the tail alone,
/// have different words at the end. The checksum is the third of them, and may be the same.
pub fn a_changed_part_shows()
    ensures { PartsShow }
{}
