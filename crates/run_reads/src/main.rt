//! Replays recorded answers of the original for headers, IDs and reading: runs each case of the list that
//! it reads, and prints for each kind how many cases there are and how many are answered otherwise than
//! recorded. The file stdin beside src/ is the list; its last cases are recorded wrongly on purpose, and
//! stdout says how many of each kind have to differ.
//
// A case, all numbers little-endian: kind (1 byte: 0 parse, 1 decode, 2 read, 3 tiny, 4 ID type), offset
// size (1), length size (1), offset size of the read (1), heap ID length (2), bytes of the file (4), bytes
// of the ID (4), the header's place (8), the refusal's number (4), n (1); then n words of 8 bytes, the
// file, the ID. An accepted parse has 26 words, the header's fields by the format and what is kept of its
// filters; any other answer has two values.
#![tactic(auto)]

mod one_case;

ghost use Rattle.std.specs.Prelude.{◌≡◌, ◌+◌, ◌^◌, ◌<◌, ◌≤◌, if◌then◌else◌};
ghost use Rattle.std.specs.List.{sum_by, count_by};
ghost use Rattle.run_reads.specs.Cases.{case_size, cases_of};
ghost use Rattle.run_reads.specs.Answered.{is_of, differs, asks, answers_otherwise};

use crate::one_case::{Case, DECODE, ID_TYPE, PARSE, READ, TINY};
use std::fmt;
use std::io::{self, Read};

// A list of this many bytes is too long.
const MOST: u64 = 1_048_576;

// The kinds of cases, with their names.
const KINDS: [(u8, &str); 5] = [
    (PARSE, "parse"),
    (DECODE, "decode"),
    (READ, "read"),
    (TINY, "tiny"),
    (ID_TYPE, "id type"),
];

// The cases of a kind, and those among them that are answered otherwise than recorded.
#[derive(Clone, Copy)]
struct Tally {
    cases: u64,
    differ: u64,
}

impl fmt::Display for Tally {
    fn fmt<W: fmt::Write>(&self, f: &mut fmt::Formatter<W>) -> fmt::Result {
        write!(f, "{} cases, {} differ", self.cases, self.differ)
    }
}

impl Tally {
    // The cases of a kind, up to the first place where no case begins.
    #[tactic(auto, using(crate::proofs::Counting::counting))]
    fn of(list: &[u8], kind: u8) -> Tally
        ensures cases { result.cases ≡ count_by (is_of kind) (cases_of list.now) }
        ensures differ { result.differ ≡ count_by (differs kind) (cases_of list.now) }
    {
        let mut tally = Tally {
            cases: 0,
            differ: 0,
        };
        let mut rest = list;
        while let Some((case, behind)) = Case::first(rest) {
            tally = tally.with_case(kind, &case);
            rest = behind;
        }
        tally
    }

    // One case more, if it is of the kind.
    fn with_case(self, kind: u8, case: &Case<'_>) -> Tally
        requires differing { self.differ ≤ self.cases }
        requires room { self.cases < 2 ^ 63 }
        ensures cases { result.cases ≡ self.cases + (if asks kind case.now.head.now then 1 else 0) }
        ensures differ { result.differ ≡ self.differ + (if answers_otherwise kind
            case.now.head.now case.now.file.now case.now.id.now then 1 else 0) }
    {
        if kind != case.head[0] {
            return self;
        }
        self.with(case.is_same())
    }

    // One case more.
    fn with(self, same: bool) -> Tally
        requires differing { self.differ ≤ self.cases }
        requires room { self.cases < 2 ^ 63 }
        ensures cases { result.cases ≡ self.cases + 1 }
        ensures differ { result.differ ≡ self.differ + (if same then 0 else 1) }
    {
        let differ = if same { self.differ } else { self.differ + 1 };
        Tally {
            cases: self.cases + 1,
            differ,
        }
    }
}

// The first place where no case begins.
#[tactic(auto, using(crate::proofs::Counting::summing))]
fn end(list: &[u8]) -> usize
    ensures { result ≡ sum_by case_size (cases_of list.now) }
{
    let mut rest = list;
    while let Some((_, behind)) = Case::first(rest) {
        rest = behind;
    }
    list.len() - rest.len()
}

fn replay(rt: &impl Print, list: &[u8]) -> io::Result<()> {
    for (kind, name) in KINDS {
        println!(rt; "{name} {}", Tally::of(list, kind))?;
    }
    let end = end(list);
    if end == list.len() {
        println!(rt; "end of the list")
    } else {
        println!(rt; "the list is damaged at {end}")
    }
}

fn main(rt: HostRuntime) -> io::Result<()> {
    let mut list = Vec::new(rt.alloc());
    rt.reader().take(MOST).read_to_end(&mut list)?;
    if (list.len() as u64) < MOST {
        replay(&rt, &list)
    } else {
        println!(rt; "the list has more than 1,048,575 bytes")
    }
}
