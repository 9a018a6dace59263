// Places a stream on its routes, and keeps its rows.
ghost use Rattle.std.specs.Prelude.{◌≡◌, [], ◌∷◌, ◌⊎◌, ℕ, ◌+◌, ◌-◌, ◌<◌, ◌≤◌, length, sum_by};
ghost use Rattle.rules.specs.Words.{◌∈◌, Tests, TwoBytes};
ghost use Rattle.rules.specs.Topology.{hop_count, most_route_hops};
ghost use Rattle.rules.specs.Records.{the_asked, the_route, the_offsets};
ghost use Rattle.rules.specs.Said.{said, written};
ghost use Rattle.rules.specs.Book.{most_streams, most_hops};
ghost use Rattle.rules.proofs.Records.{node_of};
ghost use Rattle.rules.proofs.Reading.{book_in};
ghost use Rattle.changing.specs.adding.Puts.{rows_on};
ghost use Rattle.opening.specs.Keeping.{PlacedAll, routes_of, RoutesKept, Keeps};
ghost use Rattle.opening.specs.Beside.{RouteAsked, PlacedIn, PlacedOn};

use crate::paying;
use changing::adding;
use image::Book;
use placing::{Around, plain};
use rules::refusals::Refusal;
use rules::{Asked, Node, Placed, ROUTE_HOPS, Route, Slot};

// Whether the book has no room for so many rows of so many hops.
fn is_full(book: Book, rows: usize, hops: usize) -> bool
    requires { (book.streams < 256) × TwoBytes book.hops × (rows ≤ 2) × (hops ≤ most_hops) }
    ensures { Tests result ((most_streams < book.streams + rows) ⊎ (most_hops < book.hops + hops)) }
{
    Book::STREAMS < book.streams + rows || Book::HOPS < book.hops + hops
}

// The first placing of a route beside the rows of the image, and beside another that is placed.
fn place_beside(
    image: &[u8],
    index: &[u64; index::WORDS],
    book: Book,
    q: Asked,
    route: Route,
    first: Placed,
) -> Result<[Slot; ROUTE_HOPS], Refusal>
    requires route_asked { RouteAsked image.now index.now book (the_asked q) (the_route route) × (hop_count (the_route route) ≡ route.hops) }
    requires first_in_bounds { (first.route.hops ≤ most_route_hops) × ((i : ℕ) → i ≤ first.route.hops → (node_of first.route i).0 < 64) }
    ensures { PlacedOn image.now (the_asked q) route (the_route first.route) (the_offsets first) result }
{
    let plan = book.plan;
    let start = book.rows_start();
    let hearing = index::hearing(index, book.nodes);
    let slow = index::has_slow(index);
    let mut moduli = [0u16; plain::ROWS];
    let rows = plain::weigh(
        image,
        start,
        book.streams,
        plan.slots,
        q.period,
        slow,
        &mut moduli,
    );
    let around = Around {
        index,
        image,
        start,
        rows,
        moduli: &moduli,
        beside: first,
    };
    placing::first_placing(&around, plan, hearing, route, q.period).ok_or(Refusal::NoSlots)
}

// The first placing of a route beside the rows of the image alone.
fn place_alone(
    image: &[u8],
    index: &[u64; index::WORDS],
    book: Book,
    q: Asked,
    route: Route,
) -> Result<[Slot; ROUTE_HOPS], Refusal>
    requires { RouteAsked image.now index.now book (the_asked q) (the_route route) × (hop_count (the_route route) ≡ route.hops) }
    ensures { PlacedIn (book_in image.now) (the_asked q) route result }
{
    let nowhere = Route {
        hops: 0,
        nodes: [Node(0); ROUTE_HOPS + 1],
    };
    let none = Placed {
        route: nowhere,
        offsets: [Slot(0); ROUTE_HOPS],
    };
    place_beside(image, index, book, q, route, none)
}

// Places the stream on one route, where the book has room for its row.
pub fn place_one(
    image: &[u8],
    index: &[u64; index::WORDS],
    book: Book,
    q: Asked,
    route: Route,
) -> Result<[Placed; 1], Refusal>
    requires { RouteAsked image.now index.now book (the_asked q) (the_route route) × (hop_count (the_route route) ≡ route.hops) }
    ensures { PlacedAll image.now (the_asked q) (the_route route ∷ []) result }
{
    if is_full(book, 1, route.hops) {
        return Err(Refusal::BookFull);
    }
    let offsets = place_alone(image, index, book, q, route)?;
    Ok([Placed { route, offsets }])
}

// Places the stream on two routes, where the book has room for both rows. The second is placed beside the first, and no route
// beside more than one, so the two are no list.
pub fn place_both(
    image: &[u8],
    index: &[u64; index::WORDS],
    book: Book,
    q: Asked,
    route: Route,
    second: Route,
) -> Result<[Placed; 2], Refusal>
    requires route_asked { RouteAsked image.now index.now book (the_asked q) (the_route route) × (hop_count (the_route route) ≡ route.hops) }
    requires second_asked { RouteAsked image.now index.now book (the_asked q) (the_route second) × (hop_count (the_route second) ≡ second.hops) }
    ensures { PlacedAll image.now (the_asked q) (the_route route ∷ the_route second ∷ []) result }
{
    if is_full(book, 2, route.hops + second.hops) {
        return Err(Refusal::BookFull);
    }
    let offsets = place_alone(image, index, book, q, route)?;
    let first = Placed { route, offsets };
    let offsets = place_beside(image, index, book, q, second, first)?;
    Ok([
        first,
        Placed {
            route: second,
            offsets,
        },
    ])
}

// The hops of placed routes.
fn hops_of(routes: &[Placed]) -> usize
    requires { sum_by (λ p. p.route.hops) routes.now ≤ 30 }
    ensures { result ≡ sum_by (λ p. p.route.hops) routes.now }
{
    routes.iter().map(|placed| placed.route.hops).sum()
}

// Writes the image with the rows of placed routes, and marks them in the index, where the account pays for all.
pub fn keep(
    image: &[u8],
    index: &mut [u64; index::WORDS],
    book: Book,
    q: Asked,
    at: usize,
    routes: &[Placed],
    out: &mut [u8; Book::LONGEST],
) -> Result<usize, Refusal>
    requires { RoutesKept image.now index.old book (the_asked q) at routes.now }
    ensures { Keeps image.now (the_asked q) (routes_of routes.now) (rows_on (the_asked q) 1 routes.now) at (said result) (written result) out.new index.new }
{
    if !paying::is_paid(image, book, q.account, q.period, hops_of(routes)) {
        return Err(Refusal::NotEnoughLeft);
    }
    let length = adding::put(image, at, q, routes, out);
    for placed in routes {
        placing::marking::mark(book.plan.slots, q.period, *placed, index);
    }
    Ok(length)
}
