//! One case of the list: what is asked, and whether the answer is the recorded one.
ghost use Rattle.std.specs.Prelude.{◌≡◌, ◌≤◌, length, drop, is_some, IfSome};
ghost use Rattle.run_reads.specs.Head.{words_place, word_place};
ghost use Rattle.run_reads.specs.Recorded.{has_words, is_recorded, is_answer, is_parsed};

use fields::convert::to_usize;
use fields::little_endian::{read_u16_le, read_u32_le, read_u64_le};
use fractal_heap::{FractalHeapHeader, ManagedId, NUMBER_COUNT, Place};
use ids::tiny::read_tiny_object;
use refusals::{Answer, FormatError, Reported};

// Where the parts of a head stand.
const KIND: usize = 0;

const OFFSET_SIZE: usize = 1;

const LENGTH_SIZE: usize = 2;

const READ_SIZE: usize = 3;

const ID_LENGTH: usize = 4;

const FILE_BYTES: usize = 6;

const ID_BYTES: usize = 10;

const HEADER_PLACE: usize = 14;

const NUMBER: usize = 22;

const WORD_COUNT: usize = 26;

const WORDS: usize = 27;

// Bytes of a word.
const WORD_SIZE: usize = 8;

// How many words are recorded of an answer; of a header as many as it has numbers.
const ANSWER_WORDS: usize = 2;

/// The kinds of cases, of which the last is that of an ID's type.
pub const PARSE: u8 = 0;

pub const DECODE: u8 = 1;

pub const READ: u8 = 2;

pub const TINY: u8 = 3;

pub const ID_TYPE: u8 = 4;

// Whether these words stand in a head, one after another.
#[tactic(auto, using(crate::proofs::Words::comparing))]
fn has_words(head: &[u8], words: &[u64]) -> bool
    requires { length head.now ≡ word_place (length words.now) }
    ensures { result ≡ has_words head.now WORDS words.now }
{
    for i in 0..words.len() {
        if words[i] != read_u64_le(head, WORDS + WORD_SIZE * i) {
            return false;
        }
    }
    true
}

// Whether a head records this number and these words.
fn is_recorded(head: &[u8], number: u32, words: &[u64]) -> bool
    ensures { result ≡ is_recorded head.now number words.now }
{
    if head.len() != WORDS + WORD_SIZE * words.len() {
        return false;
    }
    if number != read_u32_le(head, NUMBER) {
        return false;
    }
    has_words(head, words)
}

/// A case in its parts: what is asked and what is recorded as the answer to it; the file, and the ID.
#[derive(Clone, Copy)]
pub struct Case<'a> {
    pub head: &'a [u8],
    pub file: &'a [u8],
    pub id: &'a [u8],
    ghost long: { words_place ≤ length head.now },
}

impl<'a> Case<'a> {
    ghost use Rattle.run_reads.specs.Cases.{case_size, begins_case, IsCase};
    ghost use Rattle.run_reads.specs.Answered.{file_header, id_of, object_of, answered_as_recorded};

    /// The case that a list begins with, and the list behind it; none where no whole case does.
    pub fn first(list: &'a [u8]) -> Option<(Case<'a>, &'a [u8])>
        ensures found { is_some result ≡ begins_case list.now }
        ensures parts { IfSome result (λ found. IsCase found.0 list.now) }
        ensures behind { IfSome result (λ found. found.1.now ≡ drop (case_size list.now) list.now) }
        ensures in_list { IfSome result (λ found. case_size list.now ≤ length list.now) }
    {
        if list.len() < WORDS {
            return None;
        }
        let n = usize::from(list[WORD_COUNT]);
        if list[KIND] > ID_TYPE {
            return None;
        }
        if n != ANSWER_WORDS && n != NUMBER_COUNT {
            return None;
        }
        let head_bytes = WORDS + WORD_SIZE * n;
        let file_bytes = read_u32_le(list, FILE_BYTES) as usize;
        let id_bytes = read_u32_le(list, ID_BYTES) as usize;
        let size = head_bytes + file_bytes + id_bytes;
        if size <= list.len() {
            let (head, behind) = list.split_at(head_bytes);
            let (file, behind) = behind.split_at(file_bytes);
            let (id, _) = behind.split_at(id_bytes);
            let (_, rest) = list.split_at(size);
            Some((Case { head, file, id }, rest))
        } else {
            None
        }
    }

    // The header, with which the first three kinds begin: its refusal is the answer to each of them.
    fn header(&self) -> Result<FractalHeapHeader, FormatError>
        ensures { result ≡ file_header self.now.head.now self.now.file.now }
    {
        let head = self.head;
        let place = to_usize(read_u64_le(head, HEADER_PLACE));
        FractalHeapHeader::parse(self.file, place, head[OFFSET_SIZE], head[LENGTH_SIZE])
    }

    fn managed_id(&self) -> Result<ManagedId, FormatError>
        ensures { result ≡ id_of self.now.head.now self.now.file.now self.now.id.now }
    {
        self.header()?.decode_managed_id(self.id)
    }

    fn managed_object(&self) -> Result<Place, FormatError>
        ensures { result ≡ object_of self.now.head.now self.now.file.now self.now.id.now }
    {
        self.header()?
            .read_managed_object_unchecked(self.file, self.id, self.head[READ_SIZE])
    }

    // Whether this answer is the recorded one.
    fn records(&self, answer: Answer) -> bool
        ensures { result ≡ is_answer self.now.head.now answer }
    {
        let words = [answer.first, answer.second];
        is_recorded(self.head, answer.number, &words)
    }

    // The same of what parsing gives: an accepted header is recorded by its numbers.
    fn records_header(&self, parsed: Result<FractalHeapHeader, FormatError>) -> bool
        ensures { result ≡ is_parsed self.now.head.now parsed }
    {
        match parsed {
            Ok(header) => is_recorded(self.head, 0, &header.numbers()),
            Err(refusal) => self.records(refusal.answer()),
        }
    }

    /// Whether it is answered as recorded.
    pub fn is_same(&self) -> bool
        ensures { result
            ≡ answered_as_recorded self.now.head.now self.now.file.now self.now.id.now }
    {
        match self.head[KIND] {
            PARSE => self.records_header(self.header()),
            DECODE => self.records(self.managed_id().answer()),
            READ => self.records(self.managed_object().answer()),
            TINY => self.records(read_tiny_object(
                read_u16_le(self.head, ID_LENGTH),
                self.id,
            ).answer()),
            _ => self.records(FractalHeapHeader::heap_id_type(self.id).answer()),
        }
    }
}
