// Salvages what can be kept of a damaged image: the rows that can be cut out are judged one after the other, those kept are
// written as a book of the same version, and a report says of each row whether it was kept, or why not.
ghost use Rattle.std.specs.Prelude.{◌≡◌, ◌∷◌, ◌-◌, ◌<◌, ◌≤◌, length, take, drop};
ghost use Rattle.rules.specs.Image.{header_length, image_length, word, FieldsInRange, rows_place};
ghost use Rattle.rules.specs.Salvage.{Salvage};
ghost use Rattle.rules.specs.Said.{said};
ghost use Rattle.accounts.specs.Lists.{ListRead};
ghost use Rattle.writer.specs.Over.{over, headed};
ghost use Rattle.damaged.specs.judging.Keeping.{SiteRead};
ghost use Rattle.rescue.specs.salvaging.Walk.{PutIf, LaidIf, Walked, Measured, TooLong};
ghost use Rattle.rescue.specs.salvaging.Replies.{Headed, HasRoom, rows_refusals, site_refusals, counts, Replied};

use accounts::purses;
use damaged::judging::Kept;
use damaged::{cutting, judging};
use image::{Book, fields};
use placing::plain;
use rules::refusals::Refusal;

// What a salvage makes: the length of the book, how many rows were cut, and how many bytes lost.
#[derive(Clone, Copy)]
pub struct Salvaged {
    pub length: usize,
    pub rows: usize,
    pub lost: usize,
}

// What was kept of the rows cut, how many these are, and where the last of them ends.
#[derive(Clone, Copy)]
pub struct Walk {
    pub kept: Kept,
    pub rows: usize,
    pub end: usize,
}

// The bytes of a row in the report.
pub const NOTE: usize = 3;

// The length of a book of the site with so many rows and hops.
fn book_length(book: Book, rows: usize, hops: usize) -> usize
    requires { (book.nodes < 256) × (rows ≤ 64) × (hops ≤ 512) }
    ensures { result ≡ image_length book.version book.accounts book.nodes rows hops }
{
    let kept = Book {
        streams: rows,
        hops,
        ..book
    };
    kept.image_length()
}

// Reports a row, where the report has room for it: the reason, then its id.
fn note(report: &mut [u8], at: usize, reason: u8, id: u16)
    ensures { PutIf report.old at (reason ∷ word id) report.new }
{
    if NOTE <= report.len() && at <= report.len() - NOTE {
        writer::put(report, at, reason);
        writer::put_word(report, at + 1, id);
    }
}

// The number of the reason against a row, as a byte of the report, 0 where there is none.
fn reason_of(judged: Result<Kept, Refusal>) -> u8
    ensures { result ≡ said judged }
{
    match judged {
        Ok(_) => 0,
        Err(refusal) => refusal.number(),
    }
}

// Lays the row that ends at `next` to a place of the output, where there is no reason against it, and room.
fn lay(image: &[u8], at: usize, next: usize, reason: u8, out: &mut [u8], place: usize)
    requires { (at ≤ next) × (next ≤ length image.now) }
    ensures { LaidIf (take (next - at) (drop at image.now)) reason out.old place out.new }
{
    let row = &image[at..next];
    if reason == 0 && row.len() <= out.len() && place <= out.len() - row.len() {
        writer::put_part(row, out, place);
    }
}

// Judges the rows that can be cut out one after the other: lays those kept where the rows of a book start, and reports each, as
// far as there is room.
fn keep_rows(
    image: &[u8],
    book: Book,
    links: &[u64],
    hearing: &[u64],
    out: &mut [u8],
    report: &mut [u8],
) -> Walk
    requires { SiteRead image.now book links.now hearing.now × (rows_place image.now ≤ length image.now) }
    ensures { Walked image.now out.old report.old result out.new report.new }
{
    let mut places = [0usize; plain::ROWS];
    let mut left = [0u32; Book::ACCOUNTS];
    purses::fill(image, book, &mut left);
    let mut index = [0u64; index::WORDS];
    let mut walk = Walk {
        kept: Kept::default(),
        rows: 0,
        end: book.rows_start(),
    };
    // A `while`: how many rows there are is known only where none can be cut out.
    while let Some(row) = cutting::cuttable(image, walk.end) {
        let kept = walk.kept;
        let judged = judging::judge(
            image,
            book,
            links,
            hearing,
            walk.end,
            kept,
            &mut places,
            &mut left,
            &mut index,
        );
        let reason = reason_of(judged);
        let next = image::next(image, walk.end);
        note(report, NOTE * walk.rows, reason, row.id());
        let place = book_length(book, kept.rows, kept.hops);
        lay(image, walk.end, next, reason, out, place);
        walk = Walk {
            kept: judged.unwrap_or(kept),
            rows: walk.rows + 1,
            end: next,
        };
    }
    walk
}

// Writes the front of the book: that of the image up to where its rows start, with the counts of the rows kept.
fn put_front(image: &[u8], start: usize, kept: Kept, out: &mut [u8])
    requires { (header_length ≤ start) × (start ≤ length image.now) × (start ≤ length out.old) × (kept.rows ≤ 64) × (kept.hops ≤ 512) }
    ensures { out.new ≡ over out.old 0 (headed image.now start kept.rows kept.hops) }
{
    writer::put_part(&image[..12], out, 0);
    writer::put(out, 12, kept.rows as u8);
    writer::put_word(out, 13, kept.hops as u16);
    writer::put_part(&image[15..start], out, 15);
}

// How long the book of the rows kept is. Into empty buffers nothing is written.
fn measure(image: &[u8], book: Book, links: &[u64], hearing: &[u64]) -> usize
    requires { SiteRead image.now book links.now hearing.now × (rows_place image.now ≤ length image.now) }
    ensures { Measured image.now result }
{
    let kept = keep_rows(image, book, links, hearing, &mut [], &mut []).kept;
    book_length(book, kept.rows, kept.hops)
}

// Whether the book is longer than the room. Where the longest book of the site has room, none is measured.
fn is_too_long(image: &[u8], book: Book, links: &[u64], hearing: &[u64], room: usize) -> bool
    requires { SiteRead image.now book links.now hearing.now × (rows_place image.now ≤ length image.now) }
    ensures { TooLong image.now room result }
{
    room < book_length(book, Book::STREAMS, Book::HOPS)
        && room < measure(image, book, links, hearing)
}

// Writes the book and the report, for which there is room.
fn write_both(
    image: &[u8],
    book: Book,
    links: &[u64],
    hearing: &[u64],
    out: &mut [u8],
    report: &mut [u8],
) -> Result<Salvaged, Refusal>
    requires { SiteRead image.now book links.now hearing.now × Headed image.now × HasRoom image.now (length out.old) (length report.old) }
    ensures { Replied (rows_refusals image.now (length out.old) (length report.old)) image.now out.old report.old result
        out.new report.new }
{
    let walk = keep_rows(image, book, links, hearing, out, report);
    let kept = walk.kept;
    put_front(image, book.rows_start(), kept, out);
    Ok(Salvaged {
        length: book_length(book, kept.rows, kept.hops),
        rows: walk.rows,
        lost: image.len() - walk.end,
    })
}

// Salvages the rows of an image whose header, accounts and topologies are in order.
fn salvage_rows(
    image: &[u8],
    book: Book,
    links: &[u64],
    hearing: &[u64],
    out: &mut [u8],
    report: &mut [u8],
) -> Result<Salvaged, Refusal>
    requires { SiteRead image.now book links.now hearing.now × Headed image.now }
    ensures { Replied (rows_refusals image.now (length out.old) (length report.old)) image.now out.old report.old result
        out.new report.new }
{
    let cut = cutting::cut(image, book.rows_start());
    if report.len() < NOTE * cut.rows || is_too_long(image, book, links, hearing, out.len()) {
        return Err(Refusal::NoRoom);
    }
    write_both(image, book, links, hearing, out, report)
}

// Salvages an image whose header and accounts are in order and that has its topologies.
fn salvage_site(
    image: &[u8],
    book: Book,
    out: &mut [u8],
    report: &mut [u8],
) -> Result<Salvaged, Refusal>
    requires { FieldsInRange image.now × ListRead image.now book × Headed image.now }
    ensures { Replied (site_refusals image.now (length out.old) (length report.old)) image.now out.old report.old result
        out.new report.new }
{
    let n = book.nodes;
    let linked = topologies::sets(image, book.links_place(), n);
    let heard = topologies::sets(image, book.hearing_place(), n);
    let links = &linked[..n];
    let hearing = &heard[..n];
    if !topologies::soundness::both_sound(links, hearing) {
        return Err(Refusal::UnsoundTopology);
    }
    salvage_rows(image, book, links, hearing, out, report)
}

// Salvages an image: writes the book of the rows that can be kept, in its own version, and the report of those cut.
pub fn salvage(image: &[u8], out: &mut [u8], report: &mut [u8]) -> Result<Salvaged, Refusal>
    ensures { Salvage image.now out.old report.old (said result) (counts result).length out.new
        (counts result).rows (counts result).lost report.new }
{
    if image.len() < image::HEADER {
        return Err(Refusal::WrongLength);
    }
    if !image::is_marked(image) {
        return Err(Refusal::NoBook);
    }
    let book = Book::read(image);
    if !fields::fields_in_range(image, book) {
        return Err(Refusal::OutOfRange);
    }
    if image.len() < book.links_place() {
        return Err(Refusal::WrongLength);
    }
    if !accounts::list_holds(image, book) {
        return Err(Refusal::OutOfRange);
    }
    if image.len() < book.rows_start() {
        return Err(Refusal::WrongLength);
    }
    salvage_site(image, book, out, report)
}
