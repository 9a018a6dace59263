// The list for two nodes of a book, and a set of nodes that may stand in the middle.
ghost use Rattle.rules.proofs.Reading.{LawfulImage};
ghost use Rattle.routes.specs.choices.Listing.{BookSays};

use crate::choices::Listed;
use image::Book;
use rules::Node;
use rules::refusals::Refusal;

// Writes the list over the links of the book that the image holds, with only members of the set in the middle; or says what is wrong with the question.
pub fn list_on(
    image: &[u8],
    mains: u64,
    source: Node,
    destination: Node,
    out: &mut [u8],
) -> Result<Listed, Refusal>
    requires { LawfulImage image.now }
    ensures { BookSays image.now mains source.0 destination.0 out.old result out.new }
{
    let book = Book::read(image);
    let n = book.nodes;
    if !bitset::within(mains, n) {
        return Err(Refusal::NoSuchMember);
    }
    if n <= usize::from(source.0) || n <= usize::from(destination.0) {
        return Err(Refusal::NoSuchNode);
    }
    if source == destination {
        return Err(Refusal::SameNode);
    }
    let links = topologies::sets(image, book.links_place(), n);
    crate::choices::list(&links[..n], mains, source, destination, out)
}
