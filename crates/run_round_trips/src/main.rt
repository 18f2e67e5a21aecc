//! Goes the whole way of a heap: plans a list of sizes, writes the region into a file, and reads every object back by
//! its written ID (`round_trip`), once more one by one (`write_and_fetch`, whose contract says that the bytes fetched
//! are the object's). The file's other bytes are marks, or what an earlier list left there. It prints for each list
//! what is given; the number of objects, how many nonempty ones come back with all their bytes, the lookup3 of the
//! joined IDs and of the file; and for each empty object what reading answers. The file stdout beside src/ holds what
//! the original answers.
#![tactic(auto)]

use Size::{Bytes, FullBlock, Largest};
use checksum::jenkins_lookup3;
use fractal_heap::FractalHeapHeader;
use ids::write_managed_id;
use plan::ManagedPlan;
use refusals::{FormatError, Reported};
use region_blocks::Site;
use round_trip::by_id::{fixed_header, read_object};
use round_trip::{round_trip, write_and_fetch};
use run_report::worked::{FIRST_BLOCK, HEADER_BYTES, LARGEST_BLOCK};
use run_report::{Answered, Heading, fill, following, joined};
use std::alloc::{AllocError, Global};
use std::{fmt, io};

// How many places are lent for offsets, and for blocks; no list has more objects.
const PLACES: usize = 64;

// The bytes of the file, and those that there are for objects.
const FILE: usize = 360_000;

const OBJECTS: usize = 327_600;

// Room for the largest object of a list.
const LARGEST: usize = LARGEST_BLOCK as usize;

// Where the region begins in the file, and where the heap's header is said to be.
const REGION: u64 = 4_321;

const HEADER: u64 = 1_234;

// Every list is tried at each of these widths of an address.
const WIDTHS: [u8; 3] = [8, 4, 2];

// A size of a given list.
#[derive(Clone, Copy)]
enum Size {
    Bytes(u64),
    FullBlock, // what a first block holds
    Largest, // what the largest block holds
}

impl Size {
    fn bytes(self, width: u8) -> u64 {
        let header = HEADER_BYTES + u64::from(width);
        match self {
            Bytes(bytes) => bytes,
            FullBlock => FIRST_BLOCK - header,
            Largest => LARGEST_BLOCK - header,
        }
    }
}

// The kinds of random sizes; in each of them one in eight is 0.
#[derive(Clone, Copy)]
enum Kind {
    Small, // up to 200
    Medium, // up to 2,000
    Large, // up to 65,000
    FourLarge, // four from 64,000 to 65,000, medium ones behind them
}

impl Kind {
    // At width 2 a region ends below 65,536, where no large object has room.
    fn at_width(self, width: u8) -> Kind {
        match (width, self) {
            (2, Kind::Large) => Kind::Small,
            (2, Kind::FourLarge) => Kind::Medium,
            _ => self,
        }
    }

    // The size at a place of a list, from 16 random bits.
    fn size(self, place: usize, bits: u64) -> u64 {
        match self {
            _ if bits % 8 == 0 => 0,
            Kind::Small => bits % 201,
            Kind::Medium => bits % 2_001,
            Kind::Large => bits % 65_001,
            Kind::FourLarge if place < 4 => 64_000 + bits % 1_001,
            Kind::FourLarge => bits % 2_001,
        }
    }
}

// How a list comes by its sizes.
#[derive(Clone, Copy)]
enum List {
    Given(&'static [Size]),
    Random(Kind, usize), // of a kind, so many
}

const LISTS: [List; 22] = [
    // the worked heaps 1 to 7
    List::Given(&[]),
    List::Given(&[Bytes(1_002)]),
    List::Given(&[Bytes(1_003)]),
    List::Given(&[Bytes(1_002), Bytes(1)]),
    List::Given(&[Bytes(1_002), Bytes(0)]),
    List::Given(&[Bytes(65_514)]),
    List::Given(&[Bytes(65_514); 5]),
    // the first empty object lies in a slot that is placed after it, the second in one that never is
    List::Given(&[FullBlock, Bytes(0), FullBlock, Bytes(0)]),
    // the empty object lies where the root's rows end
    List::Given(&[Largest, Largest, Largest, Largest, Bytes(0)]),
    List::Random(Kind::Large, 5),
    List::Random(Kind::FourLarge, 31),
    List::Random(Kind::Small, 32),
    List::Random(Kind::Medium, 33),
    List::Random(Kind::Large, 5),
    List::Random(Kind::FourLarge, 35),
    List::Random(Kind::Small, 36),
    List::Random(Kind::Medium, 37),
    List::Random(Kind::Large, 5),
    List::Random(Kind::FourLarge, 39),
    List::Random(Kind::Small, 40),
    List::Random(Kind::Medium, 41),
    List::Random(Kind::Large, 5),
];

impl List {
    // The list at a width; random sizes by bits 16 to 31 of the pseudo-random sequence, from `seed` on.
    fn sizes(self, alloc: Global, width: u8, seed: u32) -> Result<Vec<u64>, AllocError> {
        let mut sizes = Vec::new(alloc);
        match self {
            List::Given(given) => {
                for size in given {
                    sizes.push(size.bytes(width))?;
                }
            }
            List::Random(kind, length) => {
                let kind = kind.at_width(width);
                let mut x = seed;
                for place in 0..length {
                    x = following(x);
                    sizes.push(kind.size(place, u64::from(x / 0x1_0000)))?;
                }
            }
        }
        Ok(sizes)
    }
}

// What came of a list that was written.
#[derive(Clone, Copy)]
struct Written {
    objects: usize,
    back: u64, // the nonempty objects that came back
    ids: u32,
    file: u32,
    header: FractalHeapHeader,
}

impl fmt::Display for Written {
    fn fmt<W: fmt::Write>(&self, f: &mut fmt::Formatter<W>) -> fmt::Result {
        let Written {
            objects,
            back,
            ids,
            file,
            ..
        } = *self;
        write!(f, "; accepted {objects} {back} {ids} {file}")
    }
}

// A list of objects on its way into the file and back, with what is lent for it.
#[derive(Drop)]
struct Trip<'a> {
    sizes: &'a [u64],
    objects: &'a [u8],
    site: Site,
    offsets: &'a mut [u64],
    blocks: &'a mut [u64],
    file: &'a mut [u8],
}

impl Trip<'_> {
    // Plans the list, writes its region, and reads it back both ways.
    fn go(&mut self) -> Result<Written, FormatError> {
        let plan = ManagedPlan::new(self.sizes, self.offsets, self.blocks, self.site.offset_size)?;
        let back = round_trip(
            self.sizes,
            self.objects,
            self.site,
            self.offsets,
            self.blocks,
            self.file,
        )?;
        // of what `round_trip` left, before `fetched` writes it anew
        let ids = self.sum_of_ids();
        let file = jenkins_lookup3(self.file);
        let root = self.site.region_address.saturating_add(plan.root_place);
        Ok(Written {
            objects: self.sizes.len(),
            back: back.min(self.fetched()),
            ids,
            file,
            header: fixed_header(
                self.site.offset_size,
                root,
                (plan.root_rows % 0x1_0000) as u16,
            ),
        })
    }

    // The lookup3 of the IDs of all objects, one after another.
    fn sum_of_ids(&self) -> u32 {
        let mut ids = [0u8; 8 * PLACES];
        let objects = self.sizes.iter().zip(self.offsets.iter());
        for (id, (size, offset)) in ids.chunks_mut(8).zip(objects) {
            // an offset that has no ID leaves zeros
            let _ = write_managed_id(*offset, *size, id);
        }
        jenkins_lookup3(&ids[..8 * self.sizes.len().min(PLACES)])
    }

    // How many nonempty objects are fetched with all their bytes, each written and fetched by its ID anew.
    fn fetched(&mut self) -> u64 {
        let mut found = [0u8; LARGEST];
        let mut count: u64 = 0;
        let sizes = self.sizes;
        let mut rest = self.objects;
        for i in 0..sizes.len() {
            let size = sizes[i] as usize;
            let (object, others) = rest.split_at(size.min(rest.len()));
            if size > 0 && size <= LARGEST {
                // by the ID that it was given when the run had no more
                let early = i + 1;
                let got = write_and_fetch(
                    sizes,
                    self.objects,
                    self.site,
                    self.offsets,
                    self.blocks,
                    self.file,
                    early,
                    i,
                    &mut found,
                );
                let same = got == Ok(size) && &found[..size] == object;
                count = count.saturating_add(u64::from(same));
            }
            rest = others;
        }
        count
    }

    fn report(&mut self, rt: &impl Print) -> io::Result<()> {
        match self.go() {
            Ok(written) => {
                println!(rt; "{written}")?;
                self.report_empties(rt, &written.header)
            }
            Err(refusal) => report_refusal(rt, refusal),
        }
    }

    // What reading answers for each empty object; no bytes have no place.
    fn report_empties(&self, rt: &impl Print, header: &FractalHeapHeader) -> io::Result<()> {
        for (i, (size, offset)) in self.sizes.iter().zip(self.offsets.iter()).enumerate() {
            if *size == 0 {
                print!(rt; "  empty {i}")?;
                match read_object(self.file, header, *offset, 0, self.site.offset_size) {
                    Ok(place) => println!(rt; "; accepted {}", place.length)?,
                    Err(refusal) => report_refusal(rt, refusal)?,
                }
            }
        }
        Ok(())
    }
}

fn report_refusal(rt: &impl Print, refusal: FormatError) -> io::Result<()> {
    let answer = refusal.answer();
    let values = [answer.first, answer.second];
    println!(rt;
        "{}",
        Answered {
            refusal: answer.number,
            numbers: &values
        }
    )
}

fn main(rt: HostRuntime) -> io::Result<()> {
    println!(rt;
        "The original Rust's answers (IDs and refusals of writing: by the rules' words), from compare/run --record"
    )?;
    let mut objects = vec![in rt.alloc(); 0u8; OBJECTS]?;
    fill(&mut objects);
    let mut file = vec![in rt.alloc(); 0xA5u8; FILE]?;
    for number in 0..WIDTHS.len() * LISTS.len() {
        let width = WIDTHS[number / LISTS.len()];
        let sizes = LISTS[number % LISTS.len()].sizes(rt.alloc(), width, number as u32)?;
        print!(rt;
            "list {number}: {}",
            Heading {
                sizes: &sizes,
                width
            }
        )?;
        let end = joined(&sizes).min(objects.len());
        let mut trip = Trip {
            sizes: &sizes,
            objects: &objects[..end],
            site: Site {
                offset_size: width,
                heap_header_address: HEADER,
                region_address: REGION,
            },
            offsets: &mut [0; PLACES],
            blocks: &mut [0; PLACES],
            file: &mut file,
        };
        trip.report(&rt)?;
    }
    Ok(())
}
