//! Writes the regions of the worked heaps, of lists at every width and of one with nested indirect
//! blocks, and makes calls that are refused. It prints for each what is given, the eight totals or
//! the refusal, what the two lists hold, and the lookup3 of the lent bytes that are not written;
//! then of a region its lookup3, its first bytes and its root. The file stdout beside src/ holds
//! what the original answers.
#![tactic(auto)]

use checksum::jenkins_lookup3;
use fractal_heap_write::serialize;
use plan::report::put_planned;
use plan::{ManagedPlan, TOTAL_COUNT};
use refusals::FormatError;
use region_blocks::Site;
use run_report::worked::{Listed, NO_WIDTH, WORKED};
use run_report::{Answered, Heading, Hex, List, Lists, fill, following, joined};
use std::alloc::{AllocError, Global};
use std::{fmt, io};

// What a place of a lent list, and a byte of a lent region, holds before a call, so that it shows
// what is not written.
const MARK: u64 = 42_405;

const MARKED_BYTE: u8 = 0xA5;

// The most places, object bytes and region bytes that a case is lent.
const PLACES: usize = 64;

const OBJECT_BYTES: usize = 327_600;

const REGION_BYTES: usize = 350_000;

// The undefined address of width 8.
const UNDEFINED: u64 = 0xFFFF_FFFF_FFFF_FFFF;

// A name, a width, a region's address and a heap header's.
type Addressed = (&'static str, u8, u64, u64);

// Around the undefined address of each width, at which a region of 2,062 bytes and five addresses
// may end; the region's end in the last call at width 8 would wrap. Then addresses that are 0 in as
// many bytes as the width has.
const ADDRESSES: [Addressed; 19] = [
    ("last region address", 2, 0xF7E7, 0),
    ("region past the end", 2, 0xF7E8, 0),
    ("last header address", 2, 0, 0xFFFE),
    ("undefined header", 2, 0, 0xFFFF),
    ("undefined region", 2, UNDEFINED, 0),
    ("last region address", 4, 0xFFFF_F7DD, 0),
    ("region past the end", 4, 0xFFFF_F7DE, 0),
    ("last header address", 4, 0, 0xFFFF_FFFE),
    ("undefined header", 4, 0, 0xFFFF_FFFF),
    ("undefined region", 4, UNDEFINED, 0),
    ("last region address", 8, 0xFFFF_FFFF_FFFF_F7C9, 0),
    ("region past the end", 8, 0xFFFF_FFFF_FFFF_F7CA, 0),
    ("last header address", 8, 0, UNDEFINED - 1),
    ("undefined header", 8, 0, UNDEFINED),
    ("undefined region", 8, UNDEFINED, 0),
    ("wide region address", 2, 0x1_0000, 0),
    ("wide header address", 2, 0, 0x1_0000),
    ("wide region address", 4, 0x1_0000_0000, 0),
    ("wide header address", 4, 0, 0x1_0000_0000),
];

// As much of an address as a width holds; all of it where the number is no width.
fn low(address: u64, width: u8) -> u64 {
    match width {
        2 => address % 0x1_0000,
        4 => address % 0x1_0000_0000,
        _ => address,
    }
}

// A call of `serialize`: what it is given, and how much it is lent.
#[derive(Clone, Copy)]
struct Case<'a> {
    name: &'a str,
    sizes: &'a [u64],
    width: u8,
    object_bytes: usize,
    region_bytes: usize,
    region_address: u64,
    header_address: u64,
    offset_places: usize,
    block_places: usize,
}

impl<'a> Case<'a> {
    // All the bytes that the sizes ask for, more places and region bytes than are needed, and
    // addresses whose bytes differ, as much of them as the width holds.
    fn new(name: &'a str, sizes: &'a [u64], width: u8) -> Self {
        Case {
            name,
            sizes,
            width,
            object_bytes: joined(sizes),
            region_bytes: REGION_BYTES,
            region_address: low(0x0102_0304_0506_0708, width),
            header_address: low(0x1122_3344_5566_7788, width),
            offset_places: PLACES,
            block_places: PLACES,
        }
    }

    // The same in lists of so many places.
    fn with_places(self, name: &'a str, offset_places: usize, block_places: usize) -> Self {
        Case {
            name,
            offset_places,
            block_places,
            ..self
        }
    }

    // The same with other numbers of bytes.
    fn with_bytes(self, name: &'a str, object_bytes: usize, region_bytes: usize) -> Self {
        Case {
            name,
            object_bytes,
            region_bytes,
            ..self
        }
    }

    // The same at other addresses.
    fn at(self, name: &'a str, region_address: u64, header_address: u64) -> Self {
        Case {
            name,
            region_address,
            header_address,
            ..self
        }
    }

    fn site(&self) -> Site {
        Site {
            offset_size: self.width,
            heap_header_address: self.header_address,
            region_address: self.region_address,
        }
    }
}

impl<'a> fmt::Display for Case<'a> {
    fn fmt<W: fmt::Write>(&self, f: &mut fmt::Formatter<W>) -> fmt::Result {
        let heading = Heading {
            sizes: self.sizes,
            width: self.width,
        };
        write!(f, "{}: {heading}", self.name)?;
        write!(
            f,
            ", object bytes {}, region bytes {} at 0x{:x}, header at 0x{:x}",
            self.object_bytes, self.region_bytes, self.region_address, self.header_address
        )
    }
}

// What a call answers, and what it leaves in the lists and the region.
#[derive(Clone, Copy)]
struct Outcome<'a> {
    planned: Result<ManagedPlan, FormatError>,
    objects: usize,
    offsets: &'a [u64],
    blocks: &'a [u64],
    region: &'a [u8],
}

impl<'a> fmt::Display for Outcome<'a> {
    fn fmt<W: fmt::Write>(&self, f: &mut fmt::Formatter<W>) -> fmt::Result {
        let mut numbers = [0u64; TOTAL_COUNT];
        let refusal = put_planned(&mut numbers, self.planned);
        let answered = Answered {
            refusal,
            numbers: &numbers,
        };
        let (objects, blocks, region_size) = match self.planned {
            Ok(plan) => (
                self.objects,
                plan.block_count as usize,
                plan.region_size as usize,
            ),
            Err(_) => (0, 0, 0),
        };
        let lists = Lists {
            offsets: List {
                numbers: self.offsets,
                known: objects,
            },
            blocks: List {
                numbers: self.blocks,
                known: blocks,
            },
        };
        let (bytes, untouched) = self.region.split_at(region_size.min(self.region.len()));
        let untouched = jenkins_lookup3(untouched);
        write!(f, "{answered}{lists}; untouched {untouched:08x}")?;
        match self.planned {
            Ok(plan) => write!(f, "{}", Region { plan, bytes }),
            Err(_) => Ok(()),
        }
    }
}

// A region that was written for a plan.
#[derive(Clone, Copy)]
struct Region<'a> {
    plan: ManagedPlan,
    bytes: &'a [u8],
}

impl<'a> Region<'a> {
    // The bytes of a root that is an indirect block. It is the last of these, and the direct blocks
    // follow it.
    fn root(&self) -> &'a [u8] {
        let indirect_bytes = self
            .plan
            .region_size
            .saturating_sub(self.plan.allocated_space);
        let end = (indirect_bytes as usize).min(self.bytes.len());
        let start = (self.plan.root_place as usize).min(end);
        &self.bytes[start..end]
    }
}

impl<'a> fmt::Display for Region<'a> {
    fn fmt<W: fmt::Write>(&self, f: &mut fmt::Formatter<W>) -> fmt::Result {
        let sum = jenkins_lookup3(self.bytes);
        let front = Hex {
            bytes: &self.bytes[..self.bytes.len().min(40)],
        };
        write!(f, "\n  region {sum:08x} begins {front}")?;
        // without rows the root is the direct block that the region begins with
        if self.plan.root_rows > 0 {
            write!(f, "\n  root {}", Hex { bytes: self.root() })?;
        }
        Ok(())
    }
}

// Where the cases are printed, and what they are lent: the objects' bytes, and the two lists and
// the region that a call writes in.
#[derive(Drop)]
struct Runner<'a, R: Print> {
    rt: &'a R,
    objects: Vec<u8>,
    offsets: [u64; PLACES],
    blocks: [u64; PLACES],
    region: Vec<u8>,
}

impl<'a, R: Print> Runner<'a, R> {
    fn new(alloc: Global, rt: &'a R) -> Result<Self, AllocError> {
        let mut objects = vec![in alloc; 0u8; OBJECT_BYTES]?;
        fill(&mut objects);
        Ok(Runner {
            rt,
            objects,
            offsets: [MARK; PLACES],
            blocks: [MARK; PLACES],
            region: vec![in alloc; MARKED_BYTE; REGION_BYTES]?,
        })
    }

    // Marks what is lent, lends as much of it as the case says, writes, and prints what is given
    // and what comes of it.
    fn run(&mut self, case: &Case<'_>) -> io::Result<()> {
        self.offsets.fill(MARK);
        self.blocks.fill(MARK);
        self.region.fill(MARKED_BYTE);
        let rt = self.rt;
        let objects = &self.objects[..case.object_bytes.min(self.objects.len())];
        let (offsets, blocks) = (&mut self.offsets[..], &mut self.blocks[..]);
        let offsets = &mut offsets[..case.offset_places.min(PLACES)];
        let blocks = &mut blocks[..case.block_places.min(PLACES)];
        let region_bytes = case.region_bytes.min(self.region.len());
        let region = &mut self.region[..region_bytes];
        let planned = serialize(case.sizes, objects, case.site(), offsets, blocks, region);
        let outcome = Outcome {
            planned,
            objects: case.sizes.len(),
            offsets,
            blocks,
            region,
        };
        println!(rt; "{case}{outcome}")
    }

    fn run_all(&mut self, cases: &[Case<'_>]) -> io::Result<()> {
        for case in cases {
            self.run(case)?;
        }
        Ok(())
    }

    fn run_lists(&mut self, lists: &[Listed]) -> io::Result<()> {
        for (name, sizes, width) in lists {
            self.run(&Case::new(name, sizes, *width))?;
        }
        Ok(())
    }

    // Of 40 sizes at width 8: four that fill row 7, then small ones, which an indirect block of row
    // 8 takes, and one at the end for which only that of row 9 has room.
    fn run_nested(&mut self) -> io::Result<()> {
        let mut sizes = [0u64; 40];
        let mut x: u32 = 1;
        for (i, size) in sizes.iter_mut().enumerate() {
            x = following(x);
            *size = match i {
                0..=3 => 65_514,
                39 => 20_000,
                _ => u64::from(x / 0x1_0000 % 2_048),
            };
        }
        self.run(&Case::new("40 nested", &sizes, 8))
    }

    // Lists that are too short, and lists that just hold the plan. Without objects one block is
    // needed.
    fn run_places(&mut self) -> io::Result<()> {
        let three = Case::new("three", &[10, 20, 30], 8);
        let none = Case::new("none", &[], 8);
        self.run_all(&[
            three.with_places("short offsets", 2, 3),
            three.with_places("no offsets", 0, 3),
            three.with_places("short blocks", 3, 1),
            three.with_places("both short", 2, 1),
            three.with_places("exact lists", 3, 3),
            none.with_places("one block", 0, PLACES),
            none.with_places("no block", 0, 0),
        ])
    }

    // Heap 4, whose region has 2,102 bytes, with other numbers of bytes.
    fn run_bytes(&mut self) -> io::Result<()> {
        let heap = Case::new("heap 4", &[1_002, 1], 8);
        self.run_all(&[
            heap.with_bytes("an object byte fewer", 1_002, 2_102),
            heap.with_bytes("an object byte more", 1_004, 2_102),
            heap.with_bytes("no object bytes", 0, 2_102),
            heap.with_bytes("a region byte fewer", 1_003, 2_101),
            heap.with_bytes("no region bytes", 1_003, 0),
            heap.with_bytes("exact region", 1_003, 2_102),
        ])
    }

    // Two blocks and a root of one row, which have 2,102 bytes at width 8 and fewer at the others.
    fn run_addresses(&mut self) -> io::Result<()> {
        for (name, width, region_address, header_address) in ADDRESSES {
            let sizes = [1_010 - u64::from(width), 1];
            self.run(&Case {
                region_bytes: 2_102,
                region_address,
                header_address,
                ..Case::new(name, &sizes, width)
            })?;
        }
        Ok(())
    }

    // Heap 4 with everything wrong; then from call to call the first cause is mended.
    fn run_mended(&mut self) -> io::Result<()> {
        let all_wrong = Case {
            name: "all wrong",
            sizes: &[1_002, 65_536],
            width: 3,
            object_bytes: 1_002,
            region_bytes: 2_101,
            region_address: UNDEFINED,
            header_address: UNDEFINED,
            offset_places: 0,
            block_places: 1,
        };
        let right_width = Case {
            name: "right width",
            width: 8,
            ..all_wrong
        };
        let right_offsets = right_width.with_places("right offsets", 2, 1);
        let right_blocks = right_offsets.with_places("right blocks", 2, 2);
        let right_sizes = Case {
            name: "right sizes",
            sizes: &[1_002, 1],
            ..right_blocks
        };
        let right_objects = right_sizes.with_bytes("right objects", 1_003, 2_101);
        let right_region_bytes = right_objects.with_bytes("right region bytes", 1_003, 2_102);
        let right_header_address = right_region_bytes.at("right header address", UNDEFINED, 0);
        let all_right = right_header_address.at("all right", 0, 0);
        self.run_all(&[
            all_wrong,
            right_width,
            right_offsets,
            right_blocks,
            right_sizes,
            right_objects,
            right_region_bytes,
            right_header_address,
            all_right,
        ])
    }
}

fn main(rt: HostRuntime) -> io::Result<()> {
    println!(rt;
        "The original Rust's answers (refusals: by the rules' table), from compare/run --record"
    )?;
    let mut runner = Runner::new(rt.alloc(), &rt)?;
    runner.run_lists(&WORKED)?;
    runner.run_nested()?;
    runner.run_lists(&NO_WIDTH)?;
    runner.run_places()?;
    runner.run_bytes()?;
    runner.run_addresses()?;
    runner.run_mended()
}
