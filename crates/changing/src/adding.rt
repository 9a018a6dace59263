// Lays out the image of a book in the newest version with the rows of a stream more, but for what stands before them, which stays.
ghost use Rattle.std.specs.Prelude.{◌≡◌, [], ◌∷◌, ◌+◌, ◌*◌, ◌≤◌, length};
ghost use Rattle.rules.specs.Topology.{most_route_hops};
ghost use Rattle.rules.specs.Records.{the_asked, the_offsets};
ghost use Rattle.rules.specs.Book.{most_streams, most_hops};
ghost use Rattle.rules.specs.Image.{newest, row_length, streams_of, hops_of};
ghost use Rattle.rules.proofs.Reading.{NewestImage};
ghost use Rattle.changing.specs.adding.Puts.{SomeVacant, PutIn, PutsRows, RoutesPut, rows_on};

use image::Book;
use rules::{Asked, FIRST_WAY, Placed};

// The bytes of the rows of a stream, at most.
const LONGEST_ROWS: usize = 108;

// Lays out the image with rows more at the place: so many, of so many hops. What stands between the header and the place is left out.
fn put_in(
    image: &[u8],
    at: usize,
    new: &[u8],
    rows: usize,
    hops: usize,
    out: &mut [u8; Book::LONGEST],
) -> usize
    requires newest_image { NewestImage image.now × SomeVacant image.now at × (length new.now ≡ row_length newest * rows + 3 * hops) }
    requires rows_bound { (streams_of image.now + rows ≤ most_streams) × (hops_of image.now + hops ≤ most_hops) }
    ensures { PutsRows image.now at new.now rows hops result out.new }
{
    let book = Book::read(image);
    let size = new.len();
    writer::put_head(
        image,
        out,
        (book.streams + rows) as u8,
        (book.hops + hops) as u16,
    );
    writer::put_part(new, out, at);
    writer::put_part(&image[at..], out, at + size);
    image.len() + size
}

// The bytes of the row of a placed route, which has as many offsets as hops.
fn row_size(placed: Placed) -> usize
    requires { placed.route.hops ≤ most_route_hops }
    ensures { (result ≡ row_length newest + 3 * placed.route.hops) × (result ≤ 54) × (length (the_offsets placed) ≡ placed.route.hops) }
{
    image::row_length(image::NEWEST) + image::HOP * placed.route.hops
}

// Lays out the image with a row of the stream for each of its placed routes, of which it has one or two.
pub fn put(
    image: &[u8],
    at: usize,
    q: Asked,
    routes: &[Placed],
    out: &mut [u8; Book::LONGEST],
) -> usize
    requires { RoutesPut image.now at (the_asked q) routes.now }
    ensures { PutIn image.now at (rows_on (the_asked q) 1 routes.now) result out.new }
{
    let mut new = [0u8; LONGEST_ROWS];
    let mut size = 0;
    let mut hops = 0;
    for (placed, way) in routes.iter().zip(FIRST_WAY..) {
        let end = size + row_size(*placed);
        writer::put_row(&mut new, size, q.id, way, q.period, *placed, q.account);
        size = end;
        hops += placed.route.hops;
    }
    put_in(image, at, &new[..size], routes.len(), hops, out)
}
