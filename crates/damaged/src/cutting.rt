// The rows that can be cut out of an image by their hop counts, one after the other.
ghost use Rattle.std.specs.Prelude.{◌≡◌, ◌≤◌, ◌↔◌, IsSome, IfSome, length, drop};
ghost use Rattle.rules.specs.Image.{version_of};
ghost use Rattle.rules.specs.Salvage.{Cuttable};
ghost use Rattle.image.specs.Places.{row_at};
ghost use Rattle.damaged.specs.cutting.Cutting.{CutsTo};

use image::Book;
use image::row::Row;

// How many rows were cut, and where the last of them ends.
#[derive(Clone, Copy)]
pub struct Cutting {
    pub rows: usize,
    pub end: usize,
}

// The row that can be cut out at the place, if one can: it has 1 to 15 hops, and as many bytes as it needs.
pub fn cuttable(image: &[u8], at: usize) -> Option<Row<'_>>
    requires { at ≤ length image.now }
    ensures there { IsSome result ↔ Cuttable (version_of image.now) (drop at image.now) }
    ensures row { IfSome result (λ r. r ≡ row_at image.now at) }
{
    Row::at(image, at).filter(|row| (1..=Book::ROUTE_HOPS).contains(&row.hops()))
}

// Cuts rows from a place on while one can be cut out.
pub fn cut(image: &[u8], start: usize) -> Cutting
    requires { start ≤ length image.now }
    ensures { CutsTo image.now start result }
{
    let mut at = start;
    let mut rows = 0;
    // A `while`: how many rows there are is known only where none can be cut out.
    while cuttable(image, at).is_some() {
        at = image::next(image, at);
        rows += 1;
    }
    Cutting { rows, end: at }
}
