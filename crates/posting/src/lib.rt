// Works through a list of requests on a book: the records are lent by the caller, and each receives its own answer.

#![tactic(auto)]

pub mod working;

ghost use Rattle.std.specs.Prelude.{◌≤◌, length, take};
ghost use Rattle.rules.specs.Image.{plan_of};
ghost use Rattle.rules.specs.Index.{index_length};
ghost use Rattle.rules.specs.Said.{said, written};
ghost use Rattle.rules.proofs.Reading.{LawfulImage};
ghost use Rattle.posting.specs.Records.{the_request};
ghost use Rattle.posting.specs.Standing.{Standing};
ghost use Rattle.posting.specs.Posting.{PostedAll, Words, Unmarked, Begun, Finished, Settled, Posts, PostsOne, AllNodes, listed, PostsFirst};

use image::Book;
use rules::refusals::Refusal;
use writer::transcribing;

// A list has up to 64 requests.
pub const MOST: usize = 64;

// The words of an index for tiles of 32 slots.
const OWN: usize = 6400;

// An array of requests has room for a list that is too long.
pub const LISTED: usize = 100;

// A request: an open of a stream on the account of the number or a close of the one of the id, and its answer.
#[repr(C)]
#[derive(Clone, Copy)]
pub struct Request {
    pub opens: bool,
    pub second: bool,
    pub source: u8,
    pub destination: u8,
    pub id: u16,
    pub period: u16,
    pub account: u16,
    // A number, since the C interface fixes the record.
    pub answer: u8,
}

// Where a list is: the length of the image, which there is in any case, and whether a record was done.
#[derive(Clone, Copy)]
pub struct State {
    pub length: usize,
    pub done: bool,
}

// An array of requests after a posting, and what the whole call says.
#[derive(Clone, Copy)]
pub struct Listed {
    pub answer: Result<usize, Refusal>,
    pub requests: [Request; LISTED],
}

// Works through the records in list order, on the image of so many bytes and its index, with only members of the set in
// the middle of a route.
pub fn post_all(
    mains: u64,
    requests: &mut [Request],
    book: &mut [u8; Book::LONGEST],
    index: &mut [u64; index::WORDS],
    length: usize,
) -> State
    requires { Standing book.old length index.old }
    ensures { PostedAll mains requests.old book.old length result requests.new book.new index.new }
{
    let mut next = [0u8; Book::LONGEST];
    let mut state = State {
        length,
        done: false,
    };
    for q in requests.iter_mut() {
        match working::work(mains, book, state.length, index, *q, &mut next) {
            Ok(length) => {
                q.answer = 0;
                state = State { length, done: true };
            }
            Err(refusal) => q.answer = refusal.number(),
        }
    }
    state
}

// How many words the index of an image's book has: two for each slot of its tiles.
fn words_of(image: &[u8]) -> usize
    requires { LawfulImage image.now }
    ensures { Words image.now result }
{
    index::words_for(Book::read(image).plan.slots)
}

// The whole call's refusals, with so many words lent for an index and so many bytes for an image; where there is none, the
// image in the newest version, of so many bytes, and its index, which had no marks.
fn begin(
    image: &[u8],
    mains: u64,
    count: usize,
    words: usize,
    room: usize,
    book: &mut [u8; Book::LONGEST],
    index: &mut [u64; index::WORDS],
) -> Result<usize, Refusal>
    requires { Unmarked index.old }
    ensures { Begun image.now mains count words room result book.new index.new }
{
    lawful::verdict(image, index)?;
    if !bitset::within(mains, Book::read(image).nodes) {
        return Err(Refusal::NoSuchMember);
    }
    if MOST < count {
        return Err(Refusal::TooManyRequests);
    }
    if room < Book::LONGEST {
        return Err(Refusal::NoRoom);
    }
    if words < words_of(image) {
        return Err(Refusal::NoRoom);
    }
    Ok(transcribing::transcribe(image, book))
}

// Writes the image where a record was done, and otherwise nothing; how many bytes it wrote.
fn finish(book: &[u8], state: State, out: &mut [u8]) -> usize
    requires { (state.length ≤ length book.now) × (length book.now ≤ length out.old) }
    ensures { Finished book.now state out.old result out.new }
{
    let length = state.length;
    if !state.done {
        return 0;
    }
    out[..length].copy_from_slice(&book[..length]);
    length
}

// Gives the index of the last book, and writes its image where a record was done; how many bytes it wrote.
fn settle(book: &[u8], words: &[u64], state: State, index: &mut [u64], out: &mut [u8]) -> usize
    requires { Standing book.now state.length words.now × (length book.now ≤ length out.old) × (index_length (plan_of (take state.length book.now)) ≤ length index.old) }
    ensures { Settled book.now words.now state index.old out.old result index.new out.new }
{
    let length = state.length;
    let slots = Book::read(&book[..length]).plan.slots;
    index::tens::lend(words, slots, index);
    finish(book, state, out)
}

// Posts a list of requests, with only members of the set in the middle of a route: each record receives its own answer,
// the lent index becomes that of the last book, and the image is written once.
pub fn post(
    image: &[u8],
    mains: u64,
    requests: &mut [Request],
    index: &mut [u64],
    out: &mut [u8],
) -> Result<usize, Refusal>
    ensures { Posts image.now mains requests.old index.old out.old (said result) (written result) requests.new index.new out.new }
{
    let mut book = [0u8; Book::LONGEST];
    let mut words = [0u64; index::WORDS];
    let length = begin(
        image,
        mains,
        requests.len(),
        index.len(),
        out.len(),
        &mut book,
        &mut words,
    )?;
    let state = post_all(mains, requests, &mut book, &mut words, length);
    Ok(settle(&book, &words, state, index, out))
}

// All nodes of the book that the image holds, and where it holds none any set.
pub fn all_nodes(image: &[u8]) -> u64
    ensures { AllNodes image.now result }
{
    if image.len() < image::HEADER {
        return 0;
    }
    bitset::below(Book::read(image).nodes)
}

// Posts a list of one, with an index of its own that nobody is given: the whole call's refusal, or the record's.
pub fn post_one(image: &[u8], mains: u64, q: Request, out: &mut [u8]) -> Result<usize, Refusal>
    ensures { PostsOne image.now mains (the_request q) out.old (said result) (written result) out.new }
{
    let mut book = [0u8; Book::LONGEST];
    let mut words = [0u64; index::WORDS];
    let length = begin(image, mains, 1, OWN, out.len(), &mut book, &mut words)?;
    let mut next = [0u8; Book::LONGEST];
    let length = working::work(mains, &mut book, length, &mut words, q, &mut next)?;
    out[..length].copy_from_slice(&book[..length]);
    Ok(length)
}

// Posts the first so many records of an array, and gives the array back.
pub fn post_array(
    image: &[u8],
    mains: u64,
    requests: [Request; LISTED],
    count: usize,
    index: &mut [u64],
    out: &mut [u8],
) -> Listed
    requires { count ≤ listed }
    ensures { PostsFirst image.now mains requests count index.old out.old (said result.answer) (written result.answer) result.requests index.new out.new }
{
    let mut list = requests;
    let answer = post(image, mains, &mut list[..count], index, out);
    Listed {
        answer,
        requests: list,
    }
}
