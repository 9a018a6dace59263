// Makes the call of a frame, unless it is a posting.
#![tactic(auto)]

use frames::asking::Call;
use frames::{Frame, Reply};
use rules::{Asked, Node, Plan, Slot, Tile};

// The tile plan of a site.
fn plan(frame: Frame<'_>) -> Plan {
    Plan {
        slots: Slot(u16::from(frame.byte_at(7))),
        tiles: Tile(u16::from(frame.byte_at(8))),
        kinds: frame.word_at(9),
        down: Slot(u16::from(frame.byte_at(11))),
        up: Slot(u16::from(frame.byte_at(12))),
    }
}

// Makes a new book.
fn new_book(frame: Frame<'_>, out: &mut [u8]) -> Reply {
    frames::answered(planner::new_book(
        plan(frame),
        frame.byte_at(13),
        frame.book(),
        frame.hearing(),
        frame.further(),
        out,
    ))
}

// Finds the book of tables made elsewhere.
fn book_of(frame: Frame<'_>, out: &mut [u8]) -> Reply {
    frames::answered(planner::book_of(
        plan(frame),
        frame.byte_at(13),
        frame.book(),
        frame.hearing(),
        frame.tables(),
        out,
    ))
}

// The node that a call asks of.
fn node(frame: Frame<'_>) -> Node {
    Node(frame.byte_at(3))
}

// The other node, to which a route leads.
fn destination(frame: Frame<'_>) -> Node {
    Node(frame.byte_at(4))
}

// The id of a stream.
fn id(frame: Frame<'_>) -> u16 {
    frame.word_at(1)
}

// Opens a stream.
fn open_stream(frame: Frame<'_>, out: &mut [u8]) -> Reply {
    let asked = Asked {
        id: id(frame),
        source: node(frame),
        destination: destination(frame),
        period: Tile(frame.word_at(5)),
        second: frame.byte_at(19) != 0,
        account: frame.account(),
    };
    frames::answered(planner::open_stream(frame.book(), asked, out))
}

// Buys hop uses for an account.
fn purchase(frame: Frame<'_>, out: &mut [u8]) -> Reply {
    let (account, amount) = (frame.account(), frame.amount());
    frames::answered(planner::purchase(frame.book(), account, amount, out))
}

// Writes a part of a node's slot table.
fn expand(frame: Frame<'_>, out: &mut [u8]) -> Reply {
    let (first, tiles) = (Tile(frame.word_at(22)), Tile(frame.word_at(24)));
    frames::answered(planner::expand(frame.book(), node(frame), first, tiles, out))
}

// Gives a node's balance.
fn balance(frame: Frame<'_>) -> Reply {
    let counts = planner::balance_of(frame.book(), node(frame))?;
    Ok([
        counts.data as usize,
        counts.used as usize,
        counts.free as usize,
    ])
}

// Gives the number of a node's links.
fn links(frame: Frame<'_>) -> Reply {
    let links = planner::links_of(frame.book(), node(frame))?;
    Ok([usize::from(links), 0, 0])
}

// Lists the routes between two nodes.
fn routes_between(frame: Frame<'_>, out: &mut [u8]) -> Reply {
    let (source, destination) = (node(frame), destination(frame));
    let list = planner::routes_between(frame.book(), frame.mains(), source, destination, out)?;
    Ok([list.length, usize::from(list.more), 0])
}

// Says whether a book keeps to a set.
fn keeps_to(frame: Frame<'_>) -> Reply {
    let keeps = planner::keeps_to(frame.book(), frame.mains())?;
    Ok([usize::from(keeps), 0, 0])
}

// Salvages a damaged book.
fn salvage(frame: Frame<'_>, out: &mut [u8], report: &mut [u8]) -> Reply {
    let salvaged = planner::salvage(frame.book(), out, report)?;
    Ok([salvaged.length, salvaged.rows, salvaged.lost])
}

// Makes a call that is no posting, with its output and the report of a salvage.
pub fn call(frame: Frame<'_>, out: &mut [u8], report: &mut [u8]) -> Reply {
    let book = frame.book();
    match frame.call() {
        Some(Call::NewBook) => new_book(frame, out),
        Some(Call::Check) => planner::check(book).map(|()| [0; 3]),
        Some(Call::Rewrite) => frames::answered(planner::rewrite(book, out)),
        Some(Call::OpenStream) => open_stream(frame, out),
        Some(Call::CloseStream) => frames::answered(planner::close_stream(book, id(frame), out)),
        Some(Call::Expand) => expand(frame, out),
        Some(Call::Routes) => routes_between(frame, out),
        Some(Call::Keeps) => keeps_to(frame),
        Some(Call::Purchase) => purchase(frame, out),
        Some(Call::Salvage) => salvage(frame, out, report),
        Some(Call::BookOf) => book_of(frame, out),
        Some(Call::Links) => links(frame),
        _ => balance(frame),
    }
}
