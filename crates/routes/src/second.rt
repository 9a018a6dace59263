// A second route beside the first: the planner's route without the link between the ends and without the first's middle nodes.
ghost use Rattle.std.specs.Prelude.{ℕ, ◌<◌, ◌≤◌, length};
ghost use Rattle.rules.specs.Words.{◌∈◌};
ghost use Rattle.rules.specs.Topology.{most_route_hops};
ghost use Rattle.rules.specs.Topology as topologies;
ghost use Rattle.rules.specs.Records.{the_route};
ghost use Rattle.rules.proofs.Seconds.{Without};
ghost use Rattle.bitset.specs.Rows.{topology};
ghost use Rattle.routes.specs.Planner.{Asked};
ghost use Rattle.routes.specs.Second.{most_nodes, Copied, LinkCut, SecondSays};

use rules::{NODES, Node, Route, SHORT_HOPS};

// The rows of a site, and zeros after them.
fn copy(links: &[u64]) -> [u64; NODES]
    requires { length links.now ≤ most_nodes }
    ensures { Copied links.now (length links.now) result }
{
    let mut rows = [0u64; NODES];
    rows[..links.len()].copy_from_slice(links);
    rows
}

// The rows without the link between two nodes.
fn without_link(links: &[u64], a: usize, b: usize) -> [u64; NODES]
    requires { Asked (topology links.now) a b }
    ensures { LinkCut links.now a b result }
{
    let mut rows = copy(links);
    rows[a] = bitset::remove(rows[a], b);
    rows[b] = bitset::remove(rows[b], a);
    rows
}

// The set without the middle nodes of a route.
fn without_middles(set: u64, route: Route) -> u64
    requires { (route.hops ≤ most_route_hops) × ((a : ℕ) → a ∈ the_route route → a < most_nodes) }
    ensures { Without set (the_route route) result }
{
    let mut left = set;
    for i in 1..route.hops {
        left = bitset::remove(left, usize::from(route.nodes[i].0));
    }
    left
}

// The second route beside the first, the planner's, with only members of the set in the middle; or none exists.
pub fn second(
    links: &[u64],
    middle: u64,
    source: Node,
    destination: Node,
    first: Route,
) -> Option<Route>
    requires { Asked (topology links.now) source.0 destination.0
        × topologies.Route (topology links.now) middle source.0 destination.0 (the_route first) × (first.hops ≤ most_route_hops) }
    ensures { SecondSays (topology links.now) middle source.0 destination.0 (the_route first) result }
{
    let rows = without_link(links, usize::from(source.0), usize::from(destination.0));
    let rest = without_middles(middle, first);
    match crate::plan(&rows[..links.len()], rest, source, destination) {
        Ok(route) if route.hops <= SHORT_HOPS => Some(route),
        _ => None,
    }
}
