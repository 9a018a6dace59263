// Opens a stream on the image of a lawful book in the newest version.

#![tactic(auto)]

ghost use Rattle.rules.specs.Records.{the_asked};
ghost use Rattle.rules.specs.Said.{said, written};
ghost use Rattle.rules.specs.Calls.Request.{Open};
ghost use Rattle.index.specs.Beside.{ImageBeside, Works};
ghost use Rattle.changing.specs.finding.Spot.{SpotOf, place_in};
ghost use Rattle.opening.specs.Open.{JudgedBy, OpensNew, OpensAsked};
ghost use Rattle.opening.specs.Beside.{AskedBeside, NewBeside};

use changing::finding::Spot;
use image::Book;
use rules::Asked;
use rules::refusals::Refusal;

mod paying;
mod ways;

// Opens the stream of a request that is in order on the planner's route, and on a second one where it is asked for, with only
// members of the set in the middle.
fn open_new(
    image: &[u8],
    index: &mut [u64; index::WORDS],
    mains: u64,
    book: Book,
    q: Asked,
    at: usize,
    out: &mut [u8; Book::LONGEST],
) -> Result<usize, Refusal>
    requires { NewBeside image.now index.old book (the_asked q) at }
    ensures { OpensNew image.now mains (the_asked q) at (said result) (written result) out.new index.new }
{
    let links = index::links(index, book.nodes);
    let route = routes::plan(links, mains, q.source, q.destination)?;
    if !q.second {
        let placed = ways::place_one(image, index, book, q, route)?;
        return ways::keep(image, index, book, q, at, &placed, out);
    }
    let second = routes::second::second(links, mains, q.source, q.destination, route).ok_or(
        Refusal::NoSecondRoute,
    )?;
    let placed = ways::place_both(image, index, book, q, route, second)?;
    ways::keep(image, index, book, q, at, &placed, out)
}

// Opens the stream of a request that is in order.
fn open_asked(
    image: &[u8],
    index: &mut [u64; index::WORDS],
    mains: u64,
    book: Book,
    q: Asked,
    spot: Spot,
    out: &mut [u8; Book::LONGEST],
) -> Result<usize, Refusal>
    requires { AskedBeside image.now index.old book (the_asked q) × SpotOf image.now q.id spot }
    ensures { OpensAsked image.now mains (the_asked q) (place_in spot) (said result) (written result) out.new index.new }
{
    if !accounts::is_known(image, book, q.account) {
        return Err(Refusal::NoSuchAccount);
    }
    match spot {
        Spot::Here(_) => Err(Refusal::IdTaken),
        Spot::Between(at) => open_new(image, index, mains, book, q, at, out),
    }
}

// Judges a request by itself, on a site of so many nodes.
fn judge(q: Asked, nodes: usize) -> Result<(), Refusal>
    ensures { JudgedBy (the_asked q) nodes result }
{
    if q.id == 0 {
        return Err(Refusal::ZeroId);
    }
    if nodes <= usize::from(q.source.0) || nodes <= usize::from(q.destination.0) {
        return Err(Refusal::NoSuchNode);
    }
    if q.source == q.destination {
        return Err(Refusal::SameNode);
    }
    if !rules::is_period(q.period) {
        return Err(Refusal::NoSuchPeriod);
    }
    Ok(())
}

// Opens the stream that is asked for, which has its spot in the image, with only members of the set in the middle of its routes.
pub fn open_on(
    image: &[u8],
    index: &mut [u64; index::WORDS],
    mains: u64,
    q: Asked,
    spot: Spot,
    out: &mut [u8; Book::LONGEST],
) -> Result<usize, Refusal>
    requires { ImageBeside image.now index.old × SpotOf image.now q.id spot }
    ensures { Works mains image.now (Open (the_asked q)) (place_in spot) (said result) (written result) out.new index.new }
{
    let book = Book::read(image);
    judge(q, book.nodes)?;
    open_asked(image, index, mains, book, q, spot, out)
}
