// The public calls: each takes a book as its stored image, and says why it is refused.

#![tactic(auto)]

ghost use Rattle.std.specs.Prelude.{◌<◌, false};
ghost use Rattle.std.specs.Result.{result_unwrap_or};
ghost use Rattle.rules.specs.Records.{the_plan, the_asked};
ghost use Rattle.rules.specs.Said.{said, written};
ghost use Rattle.rules.specs.Calls.{New, Check, Rewrite, Serve, Purchase, Expand, LinksOf, Links, Routes, Keeps};
ghost use Rattle.rules.specs.Calls.Request.{Open, Close};
ghost use Rattle.rules.specs.Image.{nodes_of};
ghost use Rattle.rules.specs.Salvage.{Salvage};
ghost use Rattle.rules.specs.Tables.{BookOf};
ghost use Rattle.rules.proofs.Reading.{book_in, LawfulImage};
ghost use Rattle.image.specs.Header.{HeaderOf};
ghost use Rattle.posting.specs.Posting.{Posts};
ghost use Rattle.routes.specs.choices.Listing.{listed, more};
ghost use Rattle.rescue.specs.salvaging.Replies.{counts};
ghost use Rattle.planner.specs.Balances.{BalanceSays};

use accounts::purchasing;
use image::{Book, fields};
use operations::balances;
use operations::balances::Counts;
use posting::Request;
use rescue::salvaging;
use rescue::salvaging::Salvaged;
use routes::choices;
use routes::choices::Listed;
use rows::keeping;
use rules::refusals::Refusal;
use rules::{Asked, Node, Plan, Tile};

// Makes a book without streams; the links, who hears whom, and the accounts are given as they stand in an image, without the count.
pub fn new_book(
    plan: Plan,
    nodes: u8,
    links: &[u8],
    hearing: &[u8],
    accounts: &[u8],
    out: &mut [u8],
) -> Result<usize, Refusal>
    ensures { New (the_plan plan) nodes links.now hearing.now accounts.now out.old (said result) (written result) out.new }
{
    let n = usize::from(nodes);
    if !fields::plan_in_range(plan)
        || !fields::nodes_in_range(n)
        || !accounts::given_hold(accounts)
    {
        return Err(Refusal::OutOfRange);
    }
    if !topologies::soundness::given(n, links, hearing) {
        return Err(Refusal::UnsoundTopology);
    }
    let length = image::HEADER + 1 + accounts.len() + links.len() + hearing.len();
    if out.len() < length {
        return Err(Refusal::NoRoom);
    }
    writer::put_new(plan, nodes, links, hearing, accounts, out);
    Ok(length)
}

// Checks an image.
pub fn check(image: &[u8]) -> Result<(), Refusal>
    ensures { Check image.now (said result) 0 }
{
    lawful::check(image)
}

// Writes the image of the same book.
pub fn rewrite(image: &[u8], out: &mut [u8]) -> Result<usize, Refusal>
    ensures { Rewrite image.now out.old (said result) (written result) out.new }
{
    lawful::check(image)?;
    if out.len() < image.len() {
        return Err(Refusal::NoRoom);
    }
    writer::put_part(image, out, 0);
    Ok(image.len())
}

// Posts a list of requests, with only members of the set in the middle of a route: each record receives its own answer, the
// lent index becomes that of the last book, and the image is written once at the end.
pub fn post(
    image: &[u8],
    mains: u64,
    requests: &mut [Request],
    index: &mut [u64],
    out: &mut [u8],
) -> Result<usize, Refusal>
    ensures { Posts image.now mains requests.old index.old out.old (said result) (written result) requests.new index.new out.new }
{
    posting::post(image, mains, requests, index, out)
}

// Opens a stream: a list of one, with all nodes in the set and an index of its own.
pub fn open_stream(image: &[u8], asked: Asked, out: &mut [u8]) -> Result<usize, Refusal>
    ensures { Serve image.now (Open (the_asked asked)) out.old (said result) (written result) out.new }
{
    let request = Request {
        opens: true,
        second: asked.second,
        source: asked.source.0,
        destination: asked.destination.0,
        id: asked.id,
        period: asked.period.0,
        account: asked.account,
        answer: 0,
    };
    posting::post_one(image, posting::all_nodes(image), request, out)
}

// Closes a stream: a list of one, with all nodes in the set and an index of its own.
pub fn close_stream(image: &[u8], id: u16, out: &mut [u8]) -> Result<usize, Refusal>
    ensures { Serve image.now (Close id) out.old (said result) (written result) out.new }
{
    let request = Request {
        opens: false,
        second: false,
        source: 0,
        destination: 0,
        id,
        period: 0,
        account: 0,
        answer: 0,
    };
    posting::post_one(image, posting::all_nodes(image), request, out)
}

// Buys for an account: writes the image of the book with the account of the number raised by the amount.
pub fn purchase(image: &[u8], account: u16, amount: u32, out: &mut [u8]) -> Result<usize, Refusal>
    ensures { Purchase image.now account amount out.old (said result) (written result) out.new }
{
    lawful::check(image)?;
    purchasing::purchase_on(image, account, amount, out)
}

// Writes the part of a node's slot table that has so many tiles from the first on.
pub fn expand(
    image: &[u8],
    node: Node,
    first: Tile,
    tiles: Tile,
    out: &mut [u8],
) -> Result<usize, Refusal>
    ensures { Expand image.now node.0 first.0 tiles.0 out.old (said result) (written result) out.new }
{
    lawful::check(image)?;
    let book = Book::read(image);
    if book.nodes <= usize::from(node.0) {
        return Err(Refusal::NoSuchNode);
    }
    if !tables::part_in_range(first, tiles) {
        return Err(Refusal::NoSuchTiles);
    }
    let length = tables::table_length(book.plan, tiles);
    if out.len() < length {
        return Err(Refusal::NoRoom);
    }
    tables::fill(image, book, node, first, tiles, out);
    Ok(length)
}

// Gives a node's balance.
pub fn balance_of(image: &[u8], node: Node) -> Result<Counts, Refusal>
    ensures { BalanceSays image.now node.0 result }
{
    lawful::check(image)?;
    let book = Book::read(image);
    if book.nodes <= usize::from(node.0) {
        return Err(Refusal::NoSuchNode);
    }
    Ok(balances::count(image, book, node))
}

// How many links a node of the book has.
fn count_links(image: &[u8], book: Book, node: usize) -> u8
    requires { LawfulImage image.now × HeaderOf image.now book × (node < nodes_of image.now) }
    ensures { LinksOf (book_in image.now) node result }
{
    let row = image::word64_at(image, book.links_place() + image::SET * node);
    bitset::count(row) as u8
}

// Gives the number of a node's links.
pub fn links_of(image: &[u8], node: Node) -> Result<u8, Refusal>
    ensures { Links image.now node.0 (said result) (result_unwrap_or result 0) }
{
    lawful::check(image)?;
    let book = Book::read(image);
    let at = usize::from(node.0);
    if book.nodes <= at {
        return Err(Refusal::NoSuchNode);
    }
    Ok(count_links(image, book, at))
}

// Lists the routes of at most 6 hops between two nodes, with only members of the set in the middle: writes the first 32, and
// says whether more exist.
pub fn routes_between(
    image: &[u8],
    mains: u64,
    source: Node,
    destination: Node,
    out: &mut [u8],
) -> Result<Listed, Refusal>
    ensures { Routes image.now mains source.0 destination.0 out.old (said result) (listed result) out.new (more result) }
{
    lawful::check(image)?;
    choices::book::list_on(image, mains, source, destination, out)
}

// Says whether every row of a book keeps to a set: only its members stand in the middle of a route.
pub fn keeps_to(image: &[u8], mains: u64) -> Result<bool, Refusal>
    ensures { Keeps image.now mains (said result) (result_unwrap_or result false) }
{
    lawful::check(image)?;
    let book = Book::read(image);
    if !bitset::within(mains, book.nodes) {
        return Err(Refusal::NoSuchMember);
    }
    Ok(keeping::rows_keep(image, book, mains))
}

// Finds the book that expands to exactly these tables, made elsewhere: one lent slice, node 0 first, of 100 tiles each; the
// links, and who hears whom, are given as they stand in an image.
pub fn book_of(
    plan: Plan,
    nodes: u8,
    links: &[u8],
    hearing: &[u8],
    tables: &[u8],
    out: &mut [u8],
) -> Result<usize, Refusal>
    ensures { BookOf (the_plan plan) nodes links.now hearing.now tables.now out.old (said result) (written result) out.new }
{
    adopting::book_of(plan, nodes, links, hearing, tables, out)
}

// Salvages what can be kept of a damaged image: writes the book of the rows kept, in its own version, and reports each row cut.
pub fn salvage(image: &[u8], out: &mut [u8], report: &mut [u8]) -> Result<Salvaged, Refusal>
    ensures { Salvage image.now out.old report.old (said result) (counts result).length out.new
        (counts result).rows (counts result).lost report.new }
{
    salvaging::salvage(image, out, report)
}
