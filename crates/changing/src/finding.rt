// Finds the rows of an id on the image of a lawful book.
ghost use Rattle.std.specs.Prelude.{◌≡◌};
ghost use Rattle.rules.proofs.Reading.{LawfulImage};
ghost use Rattle.changing.specs.finding.Spot.{SpotOf, place_in};

use crate::reader;
use image::Book;

// Where the first row of an id stands, or between which rows it would: each case holds a place, so neither is none or an error.
#[derive(Clone, Copy)]
pub enum Spot {
    Between(usize),
    Here(usize),
}

// The place of a spot.
pub fn place(spot: Spot) -> usize
    ensures { result ≡ place_in spot }
{
    match spot {
        Spot::Between(at) | Spot::Here(at) => at,
    }
}

// Seeks the first row of the id.
pub fn find(image: &[u8], id: u16) -> Spot
    requires { LawfulImage image.now }
    ensures { SpotOf image.now id result }
{
    let book = Book::read(image);
    let at = reader::seek(image, id, book.rows_start(), book.streams);
    if at < image.len() && image::id_at(image, at) == id {
        Spot::Here(at)
    } else {
        Spot::Between(at)
    }
}
