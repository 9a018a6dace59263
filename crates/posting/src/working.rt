// One request on the book that is worked on.
ghost use Rattle.std.specs.Prelude.{◌≡◌, ◌≤◌, length, take, drop};
ghost use Rattle.rules.specs.Image.{header_length};
ghost use Rattle.rules.specs.Said.{said, written};
ghost use Rattle.index.specs.Beside.{ImageBeside, Works};
ghost use Rattle.changing.specs.finding.Spot.{SpotOf, place_in};
ghost use Rattle.writer.specs.Over.{over};
ghost use Rattle.posting.specs.Records.{the_request};
ghost use Rattle.posting.specs.Standing.{Standing};
ghost use Rattle.posting.specs.Posting.{Worked};

use crate::Request;
use changing::finding::Spot;
use changing::{closing, finding};
use image::Book;
use rules::refusals::Refusal;
use rules::{Asked, Node, Tile};

// Opens, with only members of the set in the middle of a route, or closes a stream, which has its spot in the image, on the
// image and its index, and lays out the image after it from there on.
fn serve(
    image: &[u8],
    index: &mut [u64; index::WORDS],
    mains: u64,
    q: Request,
    spot: Spot,
    out: &mut [u8; Book::LONGEST],
) -> Result<usize, Refusal>
    requires { ImageBeside image.now index.old × SpotOf image.now q.id spot }
    ensures { Works mains image.now (the_request q) (place_in spot) (said result) (written result) out.new index.new }
{
    if q.opens {
        let asked = Asked {
            id: q.id,
            source: Node(q.source),
            destination: Node(q.destination),
            period: Tile(q.period),
            second: q.second,
            account: q.account,
        };
        opening::open_on(image, index, mains, asked, spot, out)
    } else {
        closing::close_on(image, index, q.id, spot, out)
    }
}

// Puts an image in the place of the book's: its header, and what it has from a place on.
fn take_over(book: &mut [u8], at: usize, next: &[u8])
    requires { (header_length ≤ at) × (at ≤ length next.now) × (length next.now ≤ length book.old) }
    ensures { book.new ≡ over (over book.old 0 (take header_length next.now)) at (drop at next.now) }
{
    writer::put_part(&next[..image::HEADER], book, 0);
    writer::put_part(&next[at..], book, at);
}

// Does what the request asks for, on the image of so many bytes and its index, and puts the image after it in its place, of
// which it says the length; that image is laid out in the buffer beside the book.
pub fn work(
    mains: u64,
    book: &mut [u8],
    length: usize,
    index: &mut [u64; index::WORDS],
    q: Request,
    next: &mut [u8; Book::LONGEST],
) -> Result<usize, Refusal>
    requires { Standing book.old length index.old }
    ensures { Worked mains book.old length (the_request q) result book.new index.new }
{
    let spot = finding::find(&book[..length], q.id);
    let length = serve(&book[..length], index, mains, q, spot, next)?;
    take_over(book, finding::place(spot), &next[..length]);
    Ok(length)
}
