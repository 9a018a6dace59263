// The search for an id among the rows of an image, from row to row.
ghost use Rattle.changing.specs.reader.Seeks.{Passed, Reached};

// Where, from a place with so many rows left on, the first row stands whose id is not lower; or the image's end.
pub fn seek(image: &[u8], id: u16, mut at: usize, rows: usize) -> usize
    requires { Passed image.now id at rows }
    ensures { Reached image.now id result }
{
    for _ in 0..rows {
        if id <= image::id_at(image, at) {
            break;
        }
        at = image::next(image, at);
    }
    at
}
