// Checks another planner's tables: whether some lawful book with periods up to 100 expands to exactly these, and which.

#![tactic(auto)]

ghost use Rattle.std.specs.Prelude.{◌≡◌, ℕ, ◌*◌, ◌<◌, length};
ghost use Rattle.rules.specs.Words.{Tests};
ghost use Rattle.rules.specs.Tiles.{PlanInRange};
ghost use Rattle.rules.specs.Topology.{NodesInRange};
ghost use Rattle.rules.specs.Calls.{TopologiesGiven};
ghost use Rattle.rules.specs.Records.{the_plan};
ghost use Rattle.rules.specs.Said.{said, written};
ghost use Rattle.rules.specs.Image.{plan_of, nodes_of};
ghost use Rattle.rules.specs.Tables.{entries_of, TablesOfEntries, TooMany, BookOf};
ghost use Rattle.rules.proofs.Reading.{LawfulImage};
ghost use Rattle.image.specs.Header.{HeaderOf};
ghost use Rattle.adopting.specs.Expanded.{SameAt, Expanded, Adopts};

pub mod drafting;

use image::{Book, fields};
use rules::refusals::Refusal;
use rules::{Node, Plan, Tile};

// The bytes of the longest table of 100 tiles.
const TABLE: usize = 9600;

// Whether the tables are at a node what the book of the image expands to.
fn same_at(image: &[u8], book: Book, node: u8, tables: &[u8]) -> bool
    requires { LawfulImage image.now × HeaderOf image.now book × (node < book.nodes) × (length tables.now ≡ 3 * entries_of (plan_of image.now) book.nodes) }
    ensures { Tests result (SameAt image.now tables.now node) }
{
    let mut table = [0u8; TABLE];
    let tiles = Tile(rules::SHORT);
    let length = tables::table_length(book.plan, tiles);
    tables::fill(image, book, Node(node), Tile(0), tiles, &mut table);
    let at = usize::from(node) * length;
    tables[at..at + length] == table[..length]
}

// Whether they are so at every node.
fn same_everywhere(image: &[u8], book: Book, tables: &[u8]) -> bool
    requires { LawfulImage image.now × HeaderOf image.now book × (length tables.now ≡ 3 * entries_of (plan_of image.now) book.nodes) }
    ensures { Tests result ((node : ℕ) → node < book.nodes → SameAt image.now tables.now node) }
{
    (0..book.nodes).all(|node| same_at(image, book, node as u8, tables))
}

// Whether an image is that of a lawful book that expands to the tables.
fn expands(image: &[u8], tables: &[u8]) -> bool
    requires { length tables.now ≡ 3 * entries_of (plan_of image.now) (nodes_of image.now) }
    ensures { Tests result (Expanded image.now tables.now) }
{
    lawful::check(image).is_ok() && same_everywhere(image, Book::read(image), tables)
}

// Whether they show over 64 different pairs of id and way.
fn shows_too_many(plan: Plan, nodes: u8, tables: &[u8]) -> bool
    requires { PlanInRange (the_plan plan) × NodesInRange nodes × TablesOfEntries (the_plan plan) nodes tables.now }
    ensures { Tests result (TooMany (the_plan plan) nodes tables.now) }
{
    let mut keys = [0u32; Book::STREAMS];
    let mut entries = [0u32; Book::STREAMS];
    let count = drafting::entries_of(plan, nodes);
    entries::keys::collect(tables, count, |_, _| true, &mut keys, &mut entries).is_none()
}

// The book of tables of entries that show no more: 20, 12, or it is written.
fn adopt(
    plan: Plan,
    nodes: u8,
    links: &[u8],
    hearing: &[u8],
    tables: &[u8],
    out: &mut [u8],
) -> Result<usize, Refusal>
    requires plan_in_range { PlanInRange (the_plan plan) × NodesInRange nodes × TopologiesGiven nodes links.now hearing.now }
    requires tables_of_entries { TablesOfEntries (the_plan plan) nodes tables.now × (TooMany (the_plan plan) nodes tables.now → ⊥) }
    ensures { Adopts (the_plan plan) nodes links.now hearing.now tables.now out.old (said result) (written result) out.new }
{
    let mut image = [0u8; Book::LONGEST];
    let length = drafting::draft(plan, nodes, links, hearing, tables, &mut image).ok_or(
        Refusal::NoBookOfTables,
    )?;
    let book = &image[..length];
    if !expands(book, tables) {
        return Err(Refusal::NoBookOfTables);
    }
    if out.len() < length {
        return Err(Refusal::NoRoom);
    }
    writer::put_part(book, out, 0);
    Ok(length)
}

// Writes the book that expands to exactly these tables, lent as one slice, node 0 first; the topologies are given as they stand in an image.
pub fn book_of(
    plan: Plan,
    nodes: u8,
    links: &[u8],
    hearing: &[u8],
    tables: &[u8],
    out: &mut [u8],
) -> Result<usize, Refusal>
    ensures { BookOf (the_plan plan) nodes links.now hearing.now tables.now out.old (said result) (written result) out.new }
{
    if !fields::plan_in_range(plan) || !fields::nodes_in_range(usize::from(nodes)) {
        return Err(Refusal::OutOfRange);
    }
    if !topologies::soundness::given(usize::from(nodes), links, hearing) {
        return Err(Refusal::UnsoundTopology);
    }
    if !entries::hold(plan, nodes, tables) {
        return Err(Refusal::UnsoundTables);
    }
    if shows_too_many(plan, nodes, tables) {
        return Err(Refusal::BookFull);
    }
    adopt(plan, nodes, links, hearing, tables, out)
}
