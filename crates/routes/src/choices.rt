// Routes to choose from: every route of at most 6 hops between two nodes, in order of node lists.
ghost use Rattle.std.specs.Prelude.{◌≡◌, [], ◌∷◌, ℕ, ◌-◌, ◌<◌, ◌≤◌, length, take};
ghost use Rattle.rules.specs.Words.{Has};
ghost use Rattle.rules.specs.Topology.{nodes};
ghost use Rattle.bitset.specs.Rows.{topology};
ghost use Rattle.routes.specs.Planner.{Asked};
ghost use Rattle.routes.specs.choices.Search.{short_places, list_room, Leads, Onward, Near, Ground, Standing, Room, Adds, Finds, Found};
ghost use Rattle.routes.specs.choices.Listing.{ListSays};

use rules::refusals::Refusal;
use rules::{Node, SHORT_HOPS};

pub mod book;

// The list stops after 32.
const LISTED: usize = 32;

// The most nodes that a listed route has.
const PLACES: usize = SHORT_HOPS + 1;

// Bytes for 32 routes, each a hop byte and its nodes.
const ROOM: usize = (1 + PLACES) * LISTED;

// What is kept of the routes found so far: how many, their bytes, and whether there were more, in any case.
#[derive(Clone, Copy)]
pub struct Tally {
    pub count: usize,
    pub length: usize,
    pub more: bool,
}

// The list that was written: its length, and whether more routes exist, in any case.
#[derive(Clone, Copy)]
pub struct Listed {
    pub length: usize,
    pub more: bool,
}

// Keeps a route behind those kept, and after the 32nd only says that there are more.
fn keep(route: &[u8], tally: Tally, bytes: &mut [u8]) -> Tally
    requires { Room tally bytes.old × (1 ≤ length route.now) × (length route.now ≤ short_places) }
    ensures { Adds (route.now ∷ []) tally bytes.old result bytes.new }
{
    if LISTED <= tally.count {
        return Tally {
            more: true,
            ..tally
        };
    }
    let at = tally.length;
    writer::put(bytes, at, (route.len() - 1) as u8);
    writer::put_part(route, bytes, at + 1);
    Tally {
        count: tally.count + 1,
        length: at + 1 + route.len(),
        more: false,
    }
}

// The nodes from which at most so many links lead to the destination over nodes that are not barred.
fn near(links: &[u64], to: usize, barred: u64, most: usize) -> u64
    requires { Ground (topology links.now) to }
    ensures { Near (topology links.now) to barred most result }
{
    let mut set = bitset::insert(0, to);
    for _ in 0..most {
        set = bitset::difference(bitset::union(set, crate::neighbours(links, set)), barred);
    }
    set
}

// Down from a node, with so many hops left: the route to it is there, or goes over one of its neighbours.
#[cycle(down_over)]
fn down(
    links: &[u64],
    to: usize,
    node: usize,
    barred: u64,
    left: usize,
    path: [u8; PLACES],
    tally: Tally,
    bytes: &mut [u8],
) -> Tally
    requires { Standing (topology links.now) to left path × (node < nodes (topology links.now)) × Has barred node × Room tally bytes.old }
    ensures { Finds (Leads (topology links.now) to left barred node) (take (short_places - left) path) tally bytes.old result bytes.new }
{
    if node == to {
        return keep(&path[..PLACES - left], tally, bytes);
    }
    if left == 0 {
        return tally;
    }
    let around = bitset::intersection(links[node], near(links, to, barred, left - 1));
    let next = bitset::difference(around, barred);
    over(links, to, next, barred, left, path, tally, bytes)
}

// Over the neighbours left, the lowest first, until there are more routes than are kept.
#[cycle(down_over)]
fn over(
    links: &[u64],
    to: usize,
    next: u64,
    barred: u64,
    left: usize,
    path: [u8; PLACES],
    tally: Tally,
    bytes: &mut [u8],
) -> Tally
    requires { Standing (topology links.now) to left path × (1 ≤ left) × ((m : ℕ) → Has next m → m < nodes (topology links.now)) × Room tally bytes.old }
    ensures { Finds (Onward (topology links.now) to (left - 1) barred next) (take (short_places - left) path) tally bytes.old result bytes.new }
{
    if tally.more || next == 0 {
        return tally;
    }
    let node = bitset::lowest(next);
    let mut longer = path;
    longer[PLACES - left] = node as u8;
    let barred_too = bitset::insert(barred, node);
    let found = down(links, to, node, barred_too, left - 1, longer, tally, bytes);
    let others = bitset::remove_lowest(next);
    over(links, to, others, barred, left, path, found, bytes)
}

// The list of the routes, in the buffer: all are barred but the set and the destination, and so is the source.
fn find(links: &[u64], middle: u64, from: usize, to: usize, bytes: &mut [u8]) -> Tally
    requires { Asked (topology links.now) from to × (length bytes.old ≡ list_room) }
    ensures { Found (topology links.now) middle from to result bytes.new }
{
    let allowed = bitset::insert(middle, to);
    let barred = bitset::insert(bitset::difference(bitset::ALL, allowed), from);
    let mut path = [0u8; PLACES];
    path[0] = from as u8;
    let tally = Tally {
        count: 0,
        length: 0,
        more: false,
    };
    down(links, to, from, barred, SHORT_HOPS, path, tally, bytes)
}

// Writes the first 32 routes of at most 6 hops, with only members of the set in the middle; or there is no room for them.
pub fn list(
    links: &[u64],
    middle: u64,
    source: Node,
    destination: Node,
    out: &mut [u8],
) -> Result<Listed, Refusal>
    requires { Asked (topology links.now) source.0 destination.0 }
    ensures { ListSays (topology links.now) middle source.0 destination.0 out.old result out.new }
{
    let mut bytes = [0u8; ROOM];
    let from = usize::from(source.0);
    let to = usize::from(destination.0);
    let tally = find(links, middle, from, to, &mut bytes);
    let length = tally.length;
    if out.len() < length {
        return Err(Refusal::NoRoom);
    }
    writer::put_part(&bytes[..length], out, 0);
    Ok(Listed {
        length,
        more: tally.more,
    })
}
