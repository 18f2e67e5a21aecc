//! The checksum, and the inverses of its mixes.
ghost use Rattle.std.specs.Prelude.{◌≡◌, ◌<◌, ◌≤◌, length};
ghost use Rattle.checksum.specs.Lookup3.{hashlittle};
ghost use Rattle.checksum.specs.Unmix.{unmixed, unfinal_mixed};
ghost use Rattle.tools_c.specs.MixTools.{state_of, state_words, put_state, mix_number};

use checksum::unmixing::{unfinal_mix, unmix};
use checksum::{MixState, jenkins_lookup3};
use refusals::SLICE_TOO_SHORT;

// How many words a state of lookup3 has.
const STATE_WORDS: usize = 3;

/// The lookup3 checksum of the bytes.
#[unsafe(no_mangle)]
pub extern "C" fn tools_jenkins_lookup3(bytes: &[u8]) -> u32
    ensures { result ≡ hashlittle bytes.now }
{
    jenkins_lookup3(bytes)
}

fn state_of(words: &[u32]) -> MixState
    requires { state_words ≤ length words.now }
    ensures { result ≡ state_of words.now }
{
    MixState {
        a: words[0],
        b: words[1],
        c: words[2],
    }
}

fn put_state(words: &mut [u32], s: MixState)
    requires { state_words ≤ length words.old }
    ensures { words.new ≡ put_state words.old s }
{
    words[0] = s.a;
    words[1] = s.b;
    words[2] = s.c;
}

/// The first three words become what they were before the mix of lookup3: 13 where there are fewer.
#[unsafe(no_mangle)]
pub extern "C" fn tools_unmix(words: &mut [u32]) -> u32
    ensures number { result ≡ mix_number words.old }
    ensures unmixed { result ≡ 0 → words.new ≡ put_state words.old (unmixed (state_of words.old)) }
    ensures untouched { 0 < result → words.new ≡ words.old }
{
    if words.len() < STATE_WORDS {
        return SLICE_TOO_SHORT;
    }
    let s = unmix(state_of(words));
    put_state(words, s);
    0
}

/// The first three words become what they were before the final mix of lookup3: 13 where there are fewer.
#[unsafe(no_mangle)]
pub extern "C" fn tools_unfinal_mix(words: &mut [u32]) -> u32
    ensures number { result ≡ mix_number words.old }
    ensures unfinal_mixed { result ≡ 0
        → words.new ≡ put_state words.old (unfinal_mixed (state_of words.old)) }
    ensures untouched { 0 < result → words.new ≡ words.old }
{
    if words.len() < STATE_WORDS {
        return SLICE_TOO_SHORT;
    }
    let s = unfinal_mix(state_of(words));
    put_state(words, s);
    0
}
