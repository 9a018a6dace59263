// Writes the image of a lawful book again in the newest version.
ghost use Rattle.std.specs.Prelude.{◌≡◌, ◌+◌, ◌*◌, ◌≤◌, length};
ghost use Rattle.rules.specs.Book.{hops};
ghost use Rattle.rules.specs.Image.{newest, header_length, row_length, longest_image, encode_accounts, encode_row, accounts_of};
ghost use Rattle.rules.proofs.Reading.{book_in, LawfulImage};
ghost use Rattle.image.specs.Header.{HeaderOf};
ghost use Rattle.writer.specs.Over.{over};
ghost use Rattle.writer.specs.transcribing.Again.{renewed, front, Put, Transcribed};

use image::Book;
use image::row::{Row, Rows};

// The account list of older books: one account, number 0, that has bought the largest 32-bit number.
const OLD_LIST: [u8; 7] = [1, 0, 0, 255, 255, 255, 255];

// The header of an image, with the newest version.
fn put_front(image: &[u8], out: &mut [u8])
    requires { (header_length ≤ length image.now) × (header_length ≤ length out.old) }
    ensures { out.new ≡ over out.old 0 (renewed image.now) }
{
    crate::put_part(&image::MARK, out, 0);
    let version_at = image::MARK.len();
    crate::put_word(out, version_at, image::NEWEST);
    let plan_at = version_at + 2;
    crate::put_part(&image[plan_at..image::HEADER], out, plan_at);
}

// The account list behind the header: that of the image, or that of older books where it holds none. The place after it.
fn put_list(image: &[u8], book: Book, out: &mut [u8]) -> usize
    requires { LawfulImage image.now × HeaderOf image.now book × (length out.old ≡ longest_image newest) }
    ensures { Put (encode_accounts (accounts_of image.now)) out.old header_length result out.new }
{
    let links = book.links_place();
    if links <= image::HEADER {
        crate::put_part(&OLD_LIST, out, image::HEADER);
        return image::HEADER + OLD_LIST.len();
    }
    crate::put_part(&image[image::HEADER..links], out, image::HEADER);
    links
}

// What stands before the rows, as the newest version has it: the header, the accounts, the links and the hearing. The place after it.
fn put_site(image: &[u8], book: Book, out: &mut [u8]) -> usize
    requires { LawfulImage image.now × HeaderOf image.now book × (length out.old ≡ longest_image newest) }
    ensures { Put (front (book_in image.now)) out.old 0 result out.new }
{
    put_front(image, out);
    let links_at = put_list(image, book, out);
    let size = image::SET * book.nodes;
    let links = book.links_place();
    crate::put_part(&image[links..links + size], out, links_at);
    let hearing = book.hearing_place();
    crate::put_part(&image[hearing..hearing + size], out, links_at + size);
    links_at + size + size
}

// A row, as the newest version has it: its id, its way, its period, its hops as they stand, and its account. The place after it.
fn put_again(row: &Row<'_>, out: &mut [u8], to: usize) -> usize
    requires { to + (row_length newest + 3 * hops row.now) ≤ length out.old }
    ensures { Put (encode_row newest row.now) out.old to result out.new }
{
    crate::put_word(out, to, row.id());
    let way_at = to + 2;
    crate::put(out, way_at, row.way());
    let period_at = way_at + 1;
    crate::put_word(out, period_at, row.period().0);
    let hops_at = period_at + 2;
    let bytes = row.hop_bytes();
    crate::put_part(bytes, out, hops_at);
    let account_at = hops_at + bytes.len();
    crate::put_word(out, account_at, row.account());
    account_at + 2
}

// The image of the same book in the newest version, which is its own bytes where it is in that version already; its length.
pub fn transcribe(image: &[u8], out: &mut [u8; Book::LONGEST]) -> usize
    requires { LawfulImage image.now }
    ensures { Transcribed image.now result out.new }
{
    let book = Book::read(image);
    if book.version == image::NEWEST {
        crate::put_part(image, out, 0);
        return image.len();
    }
    let mut to = put_site(image, book, out);
    for row in Rows::of(image, book) {
        to = put_again(&row, out, to);
    }
    to
}
