// The planner's route, over nodes that may stand in the middle: the shortest, and of several the one that comes first lexicographically.

#![tactic(auto)]

ghost use Rattle.std.specs.Prelude.{◌≡◌, ℕ, ◌<◌, length};
ghost use Rattle.rules.specs.Words.{Has};
ghost use Rattle.rules.specs.Topology.{most_route_hops};
ghost use Rattle.rules.specs.Records.{node_numbers};
ghost use Rattle.bitset.specs.Sets.{SetOf};
ghost use Rattle.bitset.specs.Rows.{topology};
ghost use Rattle.routes.specs.Planner.{Asked, PlannerSays};
ghost use Rattle.routes.specs.Levels.{Neighbour, Searched, SomeFront, Meets, ReachedBySome, Descends};

use rules::refusals::Refusal;
use rules::{Node, ROUTE_HOPS, Route};

pub mod choices;
pub mod second;

// The nodes that are linked to a member of the set.
pub fn neighbours(links: &[u64], set: u64) -> u64
    requires { (a : ℕ) → Has set a → a < length links.now }
    ensures { SetOf (Neighbour (topology links.now) set) result }
{
    let mut around = 0;
    let mut left = set;
    // No index is counted: each turn takes the lowest member out.
    while left != 0 {
        let node = bitset::lowest(left);
        around = bitset::union(around, links[node]);
        left = bitset::remove_lowest(left);
    }
    around
}

// Whether a search that has come to this front, with the source not met, meets it later.
fn goes_on(links: &[u64], source: usize, last: u64, unmet: u64) -> bool
    requires { SomeFront (topology links.now) source last unmet }
    ensures { Meets (topology links.now) source last unmet result }
{
    let row = links[source];
    let mut level = last;
    let mut left = unmet;
    // No index is counted: each turn is one level farther, until the source is next or no stop is left.
    while bitset::intersection(row, level) == 0 {
        level = bitset::intersection(neighbours(links, level), left);
        if level == 0 {
            return false;
        }
        left = bitset::difference(left, level);
    }
    true
}

// At how many hops levels from the destination meet the source; in sets the stops at each distance before it, up to 15.
fn search(
    links: &[u64],
    middle: u64,
    source: usize,
    destination: usize,
    sets: &mut [u64; ROUTE_HOPS],
) -> Result<usize, Refusal>
    requires { Asked (topology links.now) source destination × (length sets.old ≡ most_route_hops) }
    ensures { Searched (topology links.now) middle source destination sets.new result }
{
    let row = links[source];
    let mut last = bitset::insert(0, destination);
    let mut unmet = bitset::difference(middle, last);
    for hops in 0..ROUTE_HOPS {
        sets[hops] = last;
        if bitset::intersection(row, last) != 0 {
            return Ok(hops + 1);
        }
        last = bitset::intersection(neighbours(links, last), unmet);
        if last == 0 {
            return Err(Refusal::NoRoute);
        }
        unmet = bitset::difference(unmet, last);
    }
    let farther = goes_on(links, source, last, unmet);
    if farther {
        Err(Refusal::TooFar)
    } else {
        Err(Refusal::NoRoute)
    }
}

// The route of so many hops: from the source on, each time the lowest neighbour that is one link nearer.
fn descend(
    links: &[u64],
    sets: &[u64; ROUTE_HOPS],
    source: usize,
    hops: usize,
) -> [Node; ROUTE_HOPS + 1]
    requires { (z : ℕ) × Asked (topology links.now) source z
        × ReachedBySome (topology links.now) source z hops sets.now }
    ensures { (z : ℕ) → Asked (topology links.now) source z
        → Descends (topology links.now) source z hops sets.now (node_numbers result) }
{
    let mut nodes = [Node(0); ROUTE_HOPS + 1];
    nodes[0] = Node(source as u8);
    let mut node = source;
    for i in 0..hops {
        node = bitset::lowest(bitset::intersection(links[node], sets[hops - 1 - i]));
        nodes[i + 1] = Node(node as u8);
    }
    nodes
}

// The planner's route from the source to the destination, with only members of the set in the middle; none may exist, or none of at most 15 hops.
pub fn plan(links: &[u64], middle: u64, source: Node, destination: Node) -> Result<Route, Refusal>
    requires { Asked (topology links.now) source.0 destination.0 }
    ensures { PlannerSays (topology links.now) middle source.0 destination.0 result }
{
    let from = usize::from(source.0);
    let to = usize::from(destination.0);
    let mut sets = [0u64; ROUTE_HOPS];
    let hops = search(links, middle, from, to, &mut sets)?;
    let nodes = descend(links, &sets, from, hops);
    Ok(Route { hops, nodes })
}
