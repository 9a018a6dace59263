// A node's balance: the data slots of the cycle, those that it uses, and those that are free.
ghost use Rattle.std.specs.Prelude.{◌≡◌, ◌<◌, ◌≤◌};
ghost use Rattle.rules.specs.Words.{Distinct};
ghost use Rattle.rules.specs.Tiles.{Period, PlanInRange};
ghost use Rattle.rules.specs.Records.{the_plan};
ghost use Rattle.rules.specs.Table.{used, BalanceOf};
ghost use Rattle.rules.proofs.Reading.{book_in, LawfulImage};
ghost use Rattle.image.specs.Header.{HeaderOf};
ghost use Rattle.operations.specs.balances.Counts.{DataSlots, ends_at, row_used};

use image::Book;
use image::row::{Row, Rows};
use rules::{Node, Plan, Tile};

// Slots of the cycle: data slots, those in which the node works, and those in which it sleeps.
#[derive(Clone, Copy)]
pub struct Counts {
    pub data: u32,
    pub used: u32,
    pub free: u32,
}

// The data slots of the cycle: those of the plan's tiles, as often as the plan comes.
pub fn data_slots(plan: Plan) -> u32
    requires { PlanInRange (the_plan plan) }
    ensures { DataSlots (the_plan plan) result }
{
    let tiles = plan.tiles.0;
    let slots = plan.slots.0;
    let sum: u32 = (0..tiles)
        .map(|tile| u32::from(slots - rules::control_slots(plan, Tile(tile)).0))
        .sum();
    sum * u32::from(rules::CYCLE / tiles)
}

// How many hops of a route the node at a place of it is an end of: the one to it, and the one from it.
fn ends(place: usize, last: usize) -> u32
    ensures { (result ≡ ends_at place last) × (result ≤ 2) }
{
    u32::from(0 < place) + u32::from(place < last)
}

// The repeats of the hops of a row that touch the node.
fn row_used(row: &Row<'_>, node: Node) -> u32
    requires { Period row.now.period × Distinct row.now.route }
    ensures { result ≡ row_used node.0 row.now }
{
    match crate::stop_of(row, node) {
        Some(place) => u32::from(rules::repeats_of(row.period())) * ends(place, row.hops()),
        None => 0,
    }
}

// The repeats of all hops that touch the node.
fn used_slots(image: &[u8], book: Book, node: Node) -> u32
    requires { LawfulImage image.now × HeaderOf image.now book }
    ensures { result ≡ used (book_in image.now) node.0 }
{
    let mut sum: u32 = 0;
    for row in Rows::of(image, book) {
        sum += row_used(&row, node);
    }
    sum
}

// The node's balance, without its table.
pub fn count(image: &[u8], book: Book, node: Node) -> Counts
    requires { LawfulImage image.now × HeaderOf image.now book }
    ensures { BalanceOf (book_in image.now) node.0 result.data result.used result.free }
{
    let all = data_slots(book.plan);
    let used = used_slots(image, book, node);
    Counts {
        data: all,
        used,
        free: all - used,
    }
}
