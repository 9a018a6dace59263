// Closes a stream on the image of a lawful book in the newest version, and in the index of its rows.
ghost use Rattle.std.specs.Prelude.{◌≡◌, ℕ, length};
ghost use Rattle.rules.specs.Image.{plan_of};
ghost use Rattle.rules.specs.Calls.Request.{Close};
ghost use Rattle.rules.specs.Said.{said, written};
ghost use Rattle.rules.proofs.Reading.{LawfulImage};
ghost use Rattle.index.specs.Index.{index_length};
ghost use Rattle.index.specs.Beside.{ImageBeside, Done, Works};
ghost use Rattle.changing.specs.finding.Spot.{Taken, SpotOf, place_in};
ghost use Rattle.changing.specs.closing.Gone.{RowMarked, RowOut, GoneAt};

use crate::finding::Spot;
use image::Book;
use image::row::Row;
use rules::Slot;
use rules::refusals::Refusal;

// The rows of an id: how many, their hops, and the place after them.
#[derive(Clone, Copy)]
struct Gone {
    rows: usize,
    hops: usize,
    next: usize,
}

// Takes the hops of the row out of the index, which has so many slots to a tile.
fn unmark_row(row: &Row<'_>, slots: Slot, index: &mut [u64; index::WORDS])
    requires { RowMarked slots.0 row.now × (length index.old ≡ index_length) }
    ensures { RowOut slots.0 row.now index.old index.new }
{
    let repeats = index::repeats_of(slots, row.period());
    for i in 0..row.hops() {
        index::unmark(index, repeats, row.offset(i), row.node(i), row.node(i + 1));
    }
}

// Takes the rows of the id out of the index: that at the place, which is the first, and the next where it has the id too.
fn rows_of(image: &[u8], index: &mut [u64; index::WORDS], id: u16, at: usize, slots: Slot) -> Gone
    requires { ImageBeside image.now index.old × Taken image.now id at × (slots.0 ≡ (plan_of image.now).slots) }
    ensures { GoneAt image.now id at index.new result }
{
    let first = Row::new(image, at);
    let next = image::next(image, at);
    unmark_row(&first, slots, index);
    let alone = next == image.len() || image::id_at(image, next) != id;
    if alone {
        return Gone {
            rows: 1,
            hops: first.hops(),
            next,
        };
    }
    let second = Row::new(image, next);
    unmark_row(&second, slots, index);
    Gone {
        rows: 2,
        hops: first.hops() + second.hops(),
        next: image::next(image, next),
    }
}

// Lays out the image without the rows of the id, of which the first is at the place, from there on, and takes them out of
// the index; how many bytes the image has then.
fn take_out(
    image: &[u8],
    index: &mut [u64; index::WORDS],
    id: u16,
    at: usize,
    out: &mut [u8; Book::LONGEST],
) -> usize
    requires { ImageBeside image.now index.old × Taken image.now id at }
    ensures { (mains : ℕ) → Done mains image.now (Close id) at result out.new index.new }
{
    let book = Book::read(image);
    let gone = rows_of(image, index, id, at, book.plan.slots);
    let next = gone.next;
    writer::put_head(
        image,
        out,
        (book.streams - gone.rows) as u8,
        (book.hops - gone.hops) as u16,
    );
    writer::put_part(&image[next..], out, at);
    at + (image.len() - next)
}

// Closes the stream of the id, which has its spot in the image, whichever nodes may stand in the middle of a route.
pub fn close_on(
    image: &[u8],
    index: &mut [u64; index::WORDS],
    id: u16,
    spot: Spot,
    out: &mut [u8; Book::LONGEST],
) -> Result<usize, Refusal>
    requires { ImageBeside image.now index.old × SpotOf image.now id spot }
    ensures { (mains : ℕ) → Works mains image.now (Close id) (place_in spot) (said result) (written result) out.new index.new }
{
    if id == 0 {
        return Err(Refusal::ZeroId);
    }
    match spot {
        Spot::Between(_) => Err(Refusal::NoSuchStream),
        Spot::Here(at) => Ok(take_out(image, index, id, at, out)),
    }
}
