// Whether the rows of a book keep to a set: only its members stand in the middle of a route.
ghost use Rattle.std.specs.Prelude.{◌↔◌, IsTrue, All};
ghost use Rattle.rules.specs.Words.{Tests};
ghost use Rattle.rules.specs.Topology.{KeepsTo};
ghost use Rattle.rules.specs.Book.{Row as Line};
ghost use Rattle.rules.specs.Calls.{BookKeepsTo};
ghost use Rattle.rules.proofs.Reading.{book_in, LawfulImage};
ghost use Rattle.image.specs.Places.{InRange};
ghost use Rattle.image.specs.Header.{HeaderOf};

use image::Book;
use image::row::{Row, Rows};

// Whether a row does.
fn row_keeps(row: &Row<'_>, mains: u64) -> bool
    requires { InRange row.now }
    ensures { Tests result (KeepsTo mains row.now.route) }
{
    bitset::difference(crate::pair::middles_of(row), mains) == 0
}

// Whether each of some rows does.
fn all_keep(mut rows: Rows<'_>, mains: u64) -> bool
    requires { All InRange rows }
    ensures { IsTrue result ↔ All (λ (r : Line). KeepsTo mains r.route) rows.entry }
{
    rows.all(|row| row_keeps(&row, mains))
}

// Whether every row of a book does.
pub fn rows_keep(image: &[u8], book: Book, mains: u64) -> bool
    requires { LawfulImage image.now × HeaderOf image.now book }
    ensures { Tests result (BookKeepsTo mains (book_in image.now)) }
{
    all_keep(Rows::of(image, book), mains)
}
