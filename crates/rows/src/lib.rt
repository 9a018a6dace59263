// Whether the rows of an image are lawful, rise by key, each second way behind its first, and fill it.

#![tactic(auto)]

ghost use Rattle.std.specs.Prelude.{◌≡◌, ◌≤◌, IfSome, length};
ghost use Rattle.rules.specs.Words.{Tests};
ghost use Rattle.rules.specs.Tiles.{Period, PlanInRange};
ghost use Rattle.rules.specs.Book.{key, KnownAccount, Paid};
ghost use Rattle.rules.specs.Records.{the_plan};
ghost use Rattle.rules.specs.Image.{version_of, streams_of, accounts_of, site_of, rows_place, RowsOf};
ghost use Rattle.rules.proofs.Reading.{rows_in};
ghost use Rattle.image.specs.Places.{InRange};
ghost use Rattle.bitset.specs.Rows.{topology};
ghost use Rattle.accounts.specs.Lists.{ListRead};
ghost use Rattle.rows.specs.Frame.{Framed, ReadFrom};
ghost use Rattle.rows.specs.Walk.{KeyHolds, RouteHolds, OffsetsHold, PeriodHeld, RowHolds, ReadIn, RowsStand};
ghost use Rattle.rows.specs.Pairs.{ComesBehind, Follows};
ghost use Rattle.rows.specs.Fill.{AllFill};

use accounts::purses;
use image::Book;
use image::row::{Row, Rows};
use rules::{FIRST_WAY, Plan, SECOND_WAY, Slot, Tile};

pub mod keeping;
pub mod pair;

// Whether a row has an id, and is the first way of its stream or the second.
fn key_holds(row: &Row<'_>) -> bool
    ensures { Tests result (KeyHolds row.now) }
{
    row.id() != 0 && (FIRST_WAY..=SECOND_WAY).contains(&row.way())
}

// Whether a row's route is one: 1 to 15 hops over distinct nodes, each linked to the next.
fn route_holds(row: &Row<'_>, links: &[u64]) -> bool
    requires { length links.now ≤ 64 }
    ensures { Tests result (RouteHolds (topology links.now) row.now) }
{
    let h = row.hops();
    if h < 1 || rules::ROUTE_HOPS < h {
        return false;
    }
    let mut seen: u64 = 0;
    let mut next = bitset::ALL;
    for i in 0..=h {
        let node = usize::from(row.node(i).0);
        if links.len() <= node || !bitset::has(next, node) {
            return false;
        }
        seen = bitset::insert(seen, node);
        next = bitset::difference(links[node], seen);
    }
    true
}

// Whether a row's offsets rise, stay below the period and take only data slots.
fn offsets_hold(row: &Row<'_>, plan: Plan, period: Tile) -> bool
    requires { PlanInRange (the_plan plan) × Period period.0 }
    ensures { Tests result (OffsetsHold (the_plan plan) period.0 row.now) }
{
    let span = rules::span(plan.slots, period);
    let mut least = Slot(0);
    for i in 0..row.hops() {
        let o = row.offset(i);
        if o < least || span <= o || !rules::on_data(plan, period, o) {
            return false;
        }
        least = Slot(o.0 + 1);
    }
    true
}

// Whether a number of tiles is a period that the book's version holds: in one byte, one up to 100.
fn period_held(period: Tile, book: Book) -> bool
    ensures { Tests result (PeriodHeld book.version period.0) }
{
    (book.is_wide() || period.0 <= rules::SHORT) && rules::is_period(period)
}

// Whether a row's account is one of the image.
fn account_known(row: &Row<'_>, image: &[u8], book: Book) -> bool
    requires { ListRead image.now book }
    ensures { Tests result (KnownAccount (accounts_of image.now) row.now.account) }
{
    accounts::is_known(image, book, row.account())
}

// Whether a row of the image is lawful, and one that its version holds.
#[tactic(auto, using(crate::proofs::Single::hold_parts, crate::proofs::Walks::plan_read))]
pub fn holds(row: &Row<'_>, image: &[u8], book: Book, links: &[u64]) -> bool
    requires { ReadFrom image.now book links.now × ReadIn image.now row.now }
    ensures { Tests result (RowHolds (version_of image.now) (site_of image.now) row.now) }
{
    key_holds(row)
        && account_known(row, image, book)
        && period_held(row.period(), book)
        && route_holds(row, links)
        && offsets_hold(row, book.plan, row.period())
}

// The key of a row: its id, then its way.
pub fn key_of(row: &Row<'_>) -> usize
    ensures { result ≡ key row.now }
{
    usize::from(row.id()) * 256 + usize::from(row.way())
}

// Whether a row may come behind the one before, of the key `last`, or as the first of all, where that is 0.
pub fn follows(before: &Row<'_>, last: usize, row: &Row<'_>) -> bool
    requires { (1 ≤ last → InRange before.now) × InRange row.now }
    ensures { Tests result (Follows before.now last row.now) }
{
    let alone = row.way() != SECOND_WAY;
    last < key_of(row) && (alone || last != 0 && pair::pair_holds(before, row))
}

// Whether a row may come behind the one before, or as the first of all, where there is none.
pub fn comes_behind(before: &Option<Row<'_>>, row: &Row<'_>) -> bool
    requires { IfSome before.now InRange × InRange row.now }
    ensures { Tests result (ComesBehind before.now row.now) }
{
    match before {
        Some(before) => follows(before, key_of(before), row),
        None => row.way() != SECOND_WAY,
    }
}

// Whether the rows are as many as the header says, each lawful and behind the one before, and fill the image.
fn rows_fill(image: &[u8], book: Book, links: &[u64]) -> bool
    requires { Framed image.now × ReadFrom image.now book links.now }
    ensures { Tests result (AllFill image.now) }
{
    let mut at = book.rows_start();
    let mut before: Option<Row<'_>> = None;
    for _ in 0..book.streams {
        let Some(row) = Row::at(image, at) else {
            return false;
        };
        if !holds(&row, image, book, links) || !comes_behind(&before, &row) {
            return false;
        }
        at = image::next(image, at);
        before = Some(row);
    }
    at == image.len()
}

// Whether the accounts pay for the rows: each draws from its own, row after row.
fn rows_paid(image: &[u8], book: Book) -> bool
    requires list { ListRead image.now book }
    requires rows { RowsStand image.now (streams_of image.now) (rows_place image.now) }
    ensures { Tests result (Paid (accounts_of image.now) (rows_in image.now)) }
{
    let mut left = [0u32; Book::ACCOUNTS];
    purses::fill(image, book, &mut left);
    for row in Rows::new(image, book.rows_start(), book.streams) {
        if !purses::may_draw(image, book, &row, &left) {
            return false;
        }
        purses::draw(image, book, &row, &mut left);
    }
    true
}

// Whether the rows are lawful, and the accounts pay for them.
pub fn rows_hold(image: &[u8], book: Book, links: &[u64]) -> bool
    requires { Framed image.now × ReadFrom image.now book links.now }
    ensures { Tests result (RowsOf image.now (rows_in image.now)) }
{
    rows_fill(image, book, links)
        && (accounts::all_hold_most(image, book) || rows_paid(image, book))
}
