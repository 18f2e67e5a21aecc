//! What the programs print, as values that write themselves: bytes, lists and answers; and what
//! several of them work on, lists of sizes and pseudo-random bytes. It serves the programs alone:
//! what is printed is held to a recorded file.
#![tactic(auto)]

pub mod worked;

ghost use Rattle.std.specs.Prelude.{◌≡◌, ◌%◌, ◌^◌, length, sum};
ghost use Rattle.run_report.specs.Sequence.{next, bytes_after};

use std::fmt;

/// Bytes in hexadecimal.
#[derive(Clone, Copy)]
pub struct Hex<'a> {
    pub bytes: &'a [u8],
}

impl<'a> fmt::Display for Hex<'a> {
    fn fmt<W: fmt::Write>(&self, f: &mut fmt::Formatter<W>) -> fmt::Result {
        for byte in self.bytes {
            write!(f, "{byte:02x}")?;
        }
        Ok(())
    }
}

/// Numbers, each after a space.
#[derive(Clone, Copy)]
pub struct Spaced<'a> {
    pub numbers: &'a [u64],
}

impl<'a> fmt::Display for Spaced<'a> {
    fn fmt<W: fmt::Write>(&self, f: &mut fmt::Formatter<W>) -> fmt::Result {
        for number in self.numbers {
            write!(f, " {number}")?;
        }
        Ok(())
    }
}

/// A list of which the first `known` numbers are written, at most six, and then the sum of all its
/// places.
#[derive(Clone, Copy)]
pub struct List<'a> {
    pub numbers: &'a [u64],
    pub known: usize,
}

impl<'a> fmt::Display for List<'a> {
    fn fmt<W: fmt::Write>(&self, f: &mut fmt::Formatter<W>) -> fmt::Result {
        let few = self.known.min(6).min(self.numbers.len());
        let front = Spaced {
            numbers: &self.numbers[..few],
        };
        let sum = sum_in_order(self.numbers);
        write!(f, "{front} sum {sum}")
    }
}

/// The start of a case's line: its width and sizes.
#[derive(Clone, Copy)]
pub struct Heading<'a> {
    pub sizes: &'a [u64],
    pub width: u8,
}

impl<'a> fmt::Display for Heading<'a> {
    fn fmt<W: fmt::Write>(&self, f: &mut fmt::Formatter<W>) -> fmt::Result {
        let sizes = List {
            numbers: self.sizes,
            known: self.sizes.len(),
        };
        let width = self.width;
        write!(f, "width {width}, sizes{sizes}")
    }
}

/// Both lists of a plan: the objects' offsets and the blocks' starts.
#[derive(Clone, Copy)]
pub struct Lists<'a> {
    pub offsets: List<'a>,
    pub blocks: List<'a>,
}

impl<'a> fmt::Display for Lists<'a> {
    fn fmt<W: fmt::Write>(&self, f: &mut fmt::Formatter<W>) -> fmt::Result {
        let offsets = self.offsets;
        let blocks = self.blocks;
        write!(f, "; offsets{offsets}; blocks{blocks}")
    }
}

/// An answer by number: the numbers of what was accepted, or a refusal's number and its pair.
#[derive(Clone, Copy)]
pub struct Answered<'a> {
    pub refusal: u32,
    pub numbers: &'a [u64],
}

impl<'a> fmt::Display for Answered<'a> {
    fn fmt<W: fmt::Write>(&self, f: &mut fmt::Formatter<W>) -> fmt::Result {
        let refusal = self.refusal;
        if refusal == 0 {
            let all = Spaced {
                numbers: self.numbers,
            };
            write!(f, "; accepted{all}")
        } else {
            let pair = Spaced {
                numbers: &self.numbers[..self.numbers.len().min(2)],
            };
            write!(f, "; refused {refusal}{pair}")
        }
    }
}

// A prime, below which the sums of lists stay.
const MODULUS: u64 = 1_000_000_007;

// What a sum is multiplied by before the next number of its list is added.
const STEP: u64 = 31;

// The numbers of a list in their order, as one: sum' = (STEP sum + number) mod MODULUS.
fn sum_in_order(numbers: &[u64]) -> u64 {
    let mut sum: u64 = 0;
    for number in numbers {
        sum = (sum * STEP + *number % MODULUS) % MODULUS;
    }
    sum
}

/// How many bytes objects of these sizes have together, modulo 2^32.
pub fn joined(sizes: &[u64]) -> usize
    ensures { result ≡ sum sizes.now % 2 ^ 32 }
{
    let mut total: u32 = 0;
    for size in sizes {
        total = total.wrapping_add((*size % 0x1_0000_0000) as u32);
    }
    total as usize
}

/// The multiplier and the increment of the pseudo-random sequence.
const MULTIPLIER: u32 = 1_103_515_245;

const INCREMENT: u32 = 12_345;

/// The number after `x` in the pseudo-random sequence.
pub fn following(x: u32) -> u32
    ensures { result ≡ next x }
{
    x.wrapping_mul(MULTIPLIER).wrapping_add(INCREMENT)
}

/// Pseudo-random bytes: bits 16 to 23 of each number of the sequence, from 1 on.
pub fn fill(bytes: &mut [u8])
    ensures { bytes.new ≡ bytes_after 1 (length bytes.old) }
{
    let mut x: u32 = 1;
    for byte in bytes.iter_mut() {
        x = following(x);
        *byte = (x / 0x1_0000 % 256) as u8;
    }
}
