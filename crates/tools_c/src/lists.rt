//! Refusals in a lent list of numbers.
ghost use Rattle.std.specs.Prelude.{◌≡◌, ◌≤◌, length};
ghost use Rattle.fields.specs.LittleEndian.{put};
ghost use Rattle.refusals.specs.Refusals.{refusal};
ghost use Rattle.tools_c.specs.Lists.{pair_of};

use refusals::{FormatError, Reported};

/// Puts a refusal's two values into the first places of the list, and returns its number.
#[tactic(auto, unfolding(fields::specs::LittleEndian::put))]
pub fn put_refusal(list: &mut [u64], refused: FormatError) -> u32
    requires { 2 ≤ length list.old }
    ensures number { result ≡ (refusal refused).number }
    ensures list_after { list.new ≡ put list.old 0 (pair_of (refusal refused)) }
{
    let answer = refused.answer();
    list[..2].copy_from_slice(&[answer.first, answer.second]);
    answer.number
}
