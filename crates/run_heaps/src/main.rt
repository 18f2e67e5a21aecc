//! Plans the worked heaps, lists at every width, lists that are refused and pseudo-random ones, and
//! prints a line for each: its width and sizes, then the eight totals or the refusal, then what the
//! two lists hold. The file stdout beside src/ holds what the original answers.
#![tactic(auto)]

ghost use Rattle.std.specs.Prelude.{◌<◌, ◌≤◌};

use plan::report::put_planned;
use plan::{ManagedPlan, TOTAL_COUNT};
use run_report::worked::{FIRST_BLOCK, HEADER_BYTES, LARGEST_BLOCK, Listed, NO_WIDTH, WORKED};
use run_report::{Answered, Heading, List, Lists, following};
use std::io;

// What a lent place holds before a call.
const MARK: u64 = 42_405;

// The most places of a list that a case is lent.
const PLACES: usize = 260;

// A call of planning: what it is given, and how many places it is lent.
#[derive(Clone, Copy)]
struct Case<'a> {
    name: &'a str,
    sizes: &'a [u64],
    width: u8,
    offset_places: usize,
    block_places: usize,
}

impl<'a> Case<'a> {
    // In lists that are long enough for every case.
    fn new(name: &'a str, sizes: &'a [u64], width: u8) -> Self {
        Case {
            name,
            sizes,
            width,
            offset_places: PLACES,
            block_places: PLACES,
        }
    }

    // The same in lists of so many places.
    fn with_places(self, offset_places: usize, block_places: usize) -> Self {
        Case {
            offset_places,
            block_places,
            ..self
        }
    }
}

// Where the cases are printed, and the two lists that a call is lent.
#[derive(Drop)]
struct Runner<'a, R: Print> {
    rt: &'a R,
    offsets: [u64; PLACES],
    blocks: [u64; PLACES],
}

impl<'a, R: Print> Runner<'a, R> {
    fn new(rt: &'a R) -> Self {
        Runner {
            rt,
            offsets: [MARK; PLACES],
            blocks: [MARK; PLACES],
        }
    }

    // Plans in lists of marks, and prints what is given, the answer, and what the lists hold then.
    fn run(&mut self, case: &Case<'_>) -> io::Result<()> {
        self.offsets.fill(MARK);
        self.blocks.fill(MARK);
        let rt = self.rt;
        let heading = Heading {
            sizes: case.sizes,
            width: case.width,
        };
        let (offsets, blocks) = (&mut self.offsets[..], &mut self.blocks[..]);
        let offsets = &mut offsets[..case.offset_places.min(PLACES)];
        let blocks = &mut blocks[..case.block_places.min(PLACES)];
        let planned = ManagedPlan::new(case.sizes, offsets, blocks, case.width);
        let (objects, placed) = match &planned {
            Ok(plan) => (case.sizes.len(), plan.block_count as usize),
            Err(_) => (0, 0),
        };
        let mut numbers = [0u64; TOTAL_COUNT];
        let refusal = put_planned(&mut numbers, planned);
        let answered = Answered {
            refusal,
            numbers: &numbers,
        };
        let lists = Lists {
            offsets: List {
                numbers: offsets,
                known: objects,
            },
            blocks: List {
                numbers: blocks,
                known: placed,
            },
        };
        println!(rt; "{}: {heading}{answered}{lists}", case.name)
    }

    fn run_all(&mut self, cases: &[Case<'_>]) -> io::Result<()> {
        for case in cases {
            self.run(case)?;
        }
        Ok(())
    }

    fn run_lists(&mut self, lists: &[Listed]) -> io::Result<()> {
        for (name, sizes, width) in lists {
            self.run(&Case::new(name, sizes, *width))?;
        }
        Ok(())
    }

    // Too few places for offsets, for blocks, or for both; then places enough, and a size that is
    // too large. Without objects one block is needed.
    fn run_short(&mut self) -> io::Result<()> {
        let sizes = [10, LARGEST_BLOCK, 30];
        self.run_all(&[
            Case::new("short offsets", &sizes, 8).with_places(2, 3),
            Case::new("no places", &sizes, 2).with_places(0, 3),
            Case::new("short blocks", &sizes, 8).with_places(3, 1),
            Case::new("both short", &sizes, 4).with_places(2, 1),
            Case::new("width and both short", &sizes, 16).with_places(2, 1),
            Case::new("exact, too large", &sizes, 8).with_places(3, 3),
            Case::new("no block", &[], 8).with_places(1, 0),
            Case::new("one block", &[], 8).with_places(0, 1),
        ])
    }

    // Sizes of one kind, by the pseudo-random sequence from 1 on.
    fn run_random(
        &mut self,
        name: &str,
        sizes: &mut [u64],
        kind: Kind,
        width: u8,
    ) -> io::Result<()> {
        let mut x: u32 = 1;
        for size in sizes.iter_mut() {
            x = following(x);
            *size = drawn(x, kind, width);
        }
        self.run(&Case::new(name, sizes, width))
    }

    // Long lists: of each kind, and objects that fill the largest block.
    fn run_long(&mut self, width: u8) -> io::Result<()> {
        let mut few = [0; 40];
        self.run_random("40 small", &mut few, Kind::Small, width)?;
        self.run_random("40 mixed", &mut few, Kind::Mixed, width)?;
        self.run_random("40 edges", &mut few, Kind::Edges, width)?;
        let mut many = [0; 256];
        self.run_random("256 small", &mut many, Kind::Small, width)?;
        self.run_random("256 mixed", &mut many, Kind::Mixed, width)?;
        self.run_random("256 edges", &mut many, Kind::Edges, width)?;
        let largest = [LARGEST_BLOCK - HEADER_BYTES - u64::from(width); 250];
        self.run(&Case::new("250 largest", &largest, width))
    }
}

// A block of 1,024, .., 65,536 bytes.
fn block(k: u64) -> u64
    ensures least_block { FIRST_BLOCK ≤ result }
    ensures largest_block { result ≤ LARGEST_BLOCK }
{
    match k {
        0 => FIRST_BLOCK,
        1 => 2_048,
        2 => 4_096,
        3 => 8_192,
        4 => 16_384,
        5 => 32_768,
        _ => LARGEST_BLOCK,
    }
}

// What a block holds, two less to two more, at most what the largest block holds.
fn edge(k: u64, d: u64, width: u8) -> u64
    requires { d < 5 }
{
    let header = HEADER_BYTES + u64::from(width);
    let size = block(k) + d - 2 - header;
    size.min(LARGEST_BLOCK - header)
}

// The kinds of pseudo-random sizes.
#[derive(Clone, Copy)]
enum Kind {
    Small, // below 200
    Mixed, // up to 65,504, mostly below 4,096
    Edges, // around what a block holds
}

// A size from a number's bits 16 to 31.
fn drawn(x: u32, kind: Kind, width: u8) -> u64 {
    let a = u64::from(x / 0x1_0000 % 256);
    let b = u64::from(x / 0x100_0000 % 256);
    match kind {
        Kind::Small => a % 200,
        Kind::Mixed => (a * 256 + b) / (1 + b % 32),
        Kind::Edges => edge(a % 7, b % 5, width),
    }
}

fn main(rt: HostRuntime) -> io::Result<()> {
    println!(rt;
        "The original Rust's answers (refusals 2, 11 and 13: by the rules' table), from compare/run --record"
    )?;
    let mut runner = Runner::new(&rt);
    runner.run_lists(&WORKED)?;
    runner.run_lists(&NO_WIDTH)?;
    runner.run_short()?;
    for width in [2, 4, 8] {
        runner.run_long(width)?;
    }
    Ok(())
}
