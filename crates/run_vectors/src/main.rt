//! Runs the published vectors of lookup3.c and the recorded answers of the original Rust: checksums
//! of every length from 0 to 200 and of some long ones, the mixes of states and the inverses behind
//! and before them, the published texts' states walked back to the first, fields read and stored at
//! every kind of place and width. The file stdout beside src/ holds what the original answers.
#![tactic(auto)]

use checksum::mixing::{final_mix, mix};
use checksum::unmixing::{unfinal_mix, unmix};
use checksum::{MixState, jenkins_lookup3};
use fields::convert::is_undefined_addr;
use fields::stores::{write_offset, write_undef_offset};
use fields::{read_length, read_offset};
use refusals::{Answer, Reported};
use run_report::{Hex, fill};
use std::alloc::{AllocError, Global};
use std::{fmt, io};

const WIDTHS: [u8; 10] = [0, 1, 2, 3, 4, 5, 8, 9, 128, 255];

const PLACES: [u64; 9] = [
    0,
    1,
    8,
    14,
    16,
    17,
    18,
    0xFFFF_FFFF_FFFF_FFF8,
    0xFFFF_FFFF_FFFF_FFFF,
];

const ADDRESSES: [u64; 7] = [
    0,
    0xFFFE,
    0xFFFF,
    0x1_0000,
    0xFFFF_FFFF,
    0xFFFF_FFFF_FFFF_FFFE,
    0xFFFF_FFFF_FFFF_FFFF,
];

// The bytes that fields are read from and stored in, and what each holds before a store.
const FIELD_BYTES: usize = 18;

const MARKED_BYTE: u8 = 0xA5;

const LONG: [usize; 6] = [255, 1000, 4096, 10_007, 65_535, 65_536];

// A number and its two values, these in hexadecimal.
#[derive(Clone, Copy)]
struct InHex(Answer);

impl fmt::Display for InHex {
    fn fmt<W: fmt::Write>(&self, f: &mut fmt::Formatter<W>) -> fmt::Result {
        let InHex(answer) = *self;
        write!(
            f,
            "{} {:x} {:x}",
            answer.number, answer.first, answer.second
        )
    }
}

// The texts that lookup3.c publishes with their checksums.
const PUBLISHED: [&str; 2] = ["", "Four score and seven years ago"];

// States that are mixed.
const STATES: [MixState; 6] = [
    MixState { a: 0, b: 0, c: 0 },
    MixState {
        a: 1,
        b: 0,
        c: 0x8000_0000,
    },
    MixState {
        a: 0xFFFF_FFFF,
        b: 0xFFFF_FFFF,
        c: 0xFFFF_FFFF,
    },
    MixState {
        a: 0xDEAD_BEEF,
        b: 0xDEAD_BEEF,
        c: 0xDEAD_BEEF,
    },
    MixState {
        a: 0x0123_4567,
        b: 0x89AB_CDEF,
        c: 0xFEDC_BA98,
    },
    MixState {
        a: 0x9E37_79B9,
        b: 0x7F4A_7C15,
        c: 0xF39C_C060,
    },
];

// A state's three words.
#[derive(Clone, Copy)]
struct Words(MixState);

impl fmt::Display for Words {
    fn fmt<W: fmt::Write>(&self, f: &mut fmt::Formatter<W>) -> fmt::Result {
        let Words(s) = *self;
        write!(f, "{:08x} {:08x} {:08x}", s.a, s.b, s.c)
    }
}

// The i-th 12 bytes, or those that are left, as three words.
fn words_at(bytes: &[u8], i: usize) -> MixState {
    let mut group = [0u8; 12];
    let behind = bytes.get(i.saturating_mul(12)..).unwrap_or(b"");
    for (to, from) in group.iter_mut().zip(behind) {
        *to = *from;
    }
    MixState {
        a: u32::from_le_bytes([group[0], group[1], group[2], group[3]]),
        b: u32::from_le_bytes([group[4], group[5], group[6], group[7]]),
        c: u32::from_le_bytes([group[8], group[9], group[10], group[11]]),
    }
}

fn add(s: MixState, t: MixState) -> MixState {
    MixState {
        a: s.a.wrapping_add(t.a),
        b: s.b.wrapping_add(t.b),
        c: s.c.wrapping_add(t.c),
    }
}

fn take(s: MixState, t: MixState) -> MixState {
    MixState {
        a: s.a.wrapping_sub(t.a),
        b: s.b.wrapping_sub(t.b),
        c: s.c.wrapping_sub(t.c),
    }
}

// Where the answers are printed, and the bytes that they are of.
#[derive(Drop)]
struct Runner<'a, R: Print> {
    rt: &'a R,
    bytes: Vec<u8>,
}

impl<'a, R: Print> Runner<'a, R> {
    fn new(alloc: Global, rt: &'a R) -> Result<Self, AllocError> {
        let mut bytes = vec![in alloc; 0u8; 65_536]?;
        fill(&mut bytes);
        Ok(Runner { rt, bytes })
    }

    fn run_published(&self) -> io::Result<()> {
        let rt = self.rt;
        for text in PUBLISHED {
            println!(rt; "lookup3 {text:?} {:08x}", jenkins_lookup3(text.as_bytes()))?;
        }
        Ok(())
    }

    // The checksum of the first `n` bytes.
    fn run_front(&self, n: usize) -> io::Result<()> {
        let rt = self.rt;
        match self.bytes.get(..n) {
            Some(front) => println!(rt; "lookup3 {n} {:08x}", jenkins_lookup3(front)),
            None => Ok(()),
        }
    }

    fn run_fronts(&self) -> io::Result<()> {
        for n in 0..=200 {
            self.run_front(n)?;
        }
        for n in LONG {
            self.run_front(n)?;
        }
        Ok(())
    }

    // Of each state its mix and final mix, and twice the state itself of each: by the inverse
    // behind it, and before it.
    fn run_states(&self) -> io::Result<()> {
        let rt = self.rt;
        for s in STATES {
            let (mixed, ended) = (mix(s), final_mix(s));
            println!(rt;
                "mix of {} {} undone {} {}",
                Words(s),
                Words(mixed),
                Words(unmix(mixed)),
                Words(mix(unmix(s)))
            )?;
            println!(rt;
                "final mix of {} {} undone {} {}",
                Words(s),
                Words(ended),
                Words(unfinal_mix(ended)),
                Words(final_mix(unfinal_mix(s)))
            )?;
        }
        Ok(())
    }

    // The states of a text, from its last back to its first.
    fn run_back(&self, text: &str) -> io::Result<()> {
        let rt = self.rt;
        let bytes = text.as_bytes();
        let first = 0xDEAD_BEEFu32.wrapping_add((bytes.len() as u64 % 0x1_0000_0000) as u32);
        let mut s = MixState {
            a: first,
            b: first,
            c: first,
        };
        if bytes.is_empty() {
            return println!(rt; "back {text:?} {}", Words(s));
        }
        let groups = (bytes.len() - 1) / 12;
        for i in 0..groups {
            s = mix(add(s, words_at(bytes, i)));
        }
        s = final_mix(add(s, words_at(bytes, groups)));
        println!(rt; "back {text:?} {}", Words(s))?;
        s = take(unfinal_mix(s), words_at(bytes, groups));
        println!(rt; "back {text:?} {}", Words(s))?;
        for i in 0..groups {
            s = take(unmix(s), words_at(bytes, groups - 1 - i));
            println!(rt; "back {text:?} {}", Words(s))?;
        }
        Ok(())
    }

    fn run_read(&self, bytes: &[u8], pos: u64, width: u8) -> io::Result<()> {
        let rt = self.rt;
        let at = pos as usize;
        let offset = InHex(read_offset(bytes, at, width).answer());
        let length = InHex(read_length(bytes, at, width).answer());
        println!(rt; "offset {pos:x} {width} {offset}\nlength {pos:x} {width} {length}")
    }

    // Stores into bytes that are marked.
    fn run_store(&self, pos: u64, width: u8) -> io::Result<()> {
        let rt = self.rt;
        let mut bytes = [MARKED_BYTE; FIELD_BYTES];
        let stored = write_offset(&mut bytes, pos as usize, 0x0123_4567_89AB_CDEF, width);
        println!(rt;
            "store {pos:x} {width} {} {}",
            InHex(stored.answer()),
            Hex { bytes: &bytes }
        )?;
        let mut bytes = [MARKED_BYTE; FIELD_BYTES];
        let stored = write_undef_offset(&mut bytes, pos as usize, width);
        println!(rt;
            "undefined {pos:x} {width} {} {}",
            InHex(stored.answer()),
            Hex { bytes: &bytes }
        )
    }

    // Fields in the first bytes.
    fn run_fields(&self) -> io::Result<()> {
        let front = &self.bytes[..FIELD_BYTES.min(self.bytes.len())];
        for pos in PLACES {
            for width in WIDTHS {
                self.run_read(front, pos, width)?;
                self.run_store(pos, width)?;
            }
        }
        Ok(())
    }

    fn run_undefined(&self) -> io::Result<()> {
        let rt = self.rt;
        for addr in ADDRESSES {
            for width in WIDTHS {
                let said = u32::from(is_undefined_addr(addr, width));
                println!(rt; "is undefined {addr:x} {width} {said}")?;
            }
        }
        Ok(())
    }
}

fn main(rt: HostRuntime) -> io::Result<()> {
    println!(rt;
        "The original Rust's answers (stores: by the facts of docs/DECISIONS.md), from compare/run --record"
    )?;
    let runner = Runner::new(rt.alloc(), &rt)?;
    runner.run_published()?;
    runner.run_fronts()?;
    runner.run_states()?;
    for text in PUBLISHED {
        runner.run_back(text)?;
    }
    runner.run_fields()?;
    runner.run_undefined()
}
