// Writes the parts of an image into a lent buffer, one behind the other.

#![tactic(auto)]

ghost use Rattle.std.specs.Prelude.{◌≡◌, [], ◌∷◌, ◌++◌, ◌+◌, ◌-◌, ◌*◌, ◌/◌, ◌<◌, ◌≤◌, length, drop};
ghost use Rattle.rules.specs.Topology.{most_route_hops};
ghost use Rattle.rules.specs.Tiles.{PlanInRange};
ghost use Rattle.rules.specs.Book.{most_accounts};
ghost use Rattle.rules.specs.Records.{the_plan, the_route, the_offsets};
ghost use Rattle.rules.specs.Image.{newest, row_length, header_length, word, in_turn, encode_header, encode_row};
ghost use Rattle.writer.specs.Over.{over, headed};

pub mod transcribing;

use rules::{Placed, Plan, Route, Tile};

// The bytes of a part, from the place on.
pub fn put_part(part: &[u8], out: &mut [u8], at: usize)
    requires { at + length part.now ≤ length out.old }
    ensures { out.new ≡ over out.old at part.now }
{
    for (i, byte) in part.iter().enumerate() {
        out[at + i] = *byte;
    }
}

// One byte.
pub fn put(out: &mut [u8], at: usize, x: u8)
    requires { at + 1 ≤ length out.old }
    ensures { out.new ≡ over out.old at (x ∷ []) }
{
    out[at] = x;
}

// A number in 2 bytes.
pub fn put_word(out: &mut [u8], at: usize, x: u16)
    requires { at + 2 ≤ length out.old }
    ensures { out.new ≡ over out.old at (word x) }
{
    put_part(&x.to_be_bytes(), out, at);
}

// The nodes of a route, in a byte each.
fn put_route(route: Route, out: &mut [u8], at: usize)
    requires { (route.hops ≤ most_route_hops) × (at + (route.hops + 1) ≤ length out.old) }
    ensures { out.new ≡ over out.old at (the_route route) }
{
    let nodes = route.nodes.map(|node| node.0);
    put_part(&nodes[..=route.hops], out, at);
}

// The offsets of its hops, in 2 bytes each.
fn put_offsets(placed: Placed, out: &mut [u8], at: usize)
    requires { (placed.route.hops ≤ most_route_hops) × (at + 2 * placed.route.hops ≤ length out.old) }
    ensures { out.new ≡ over out.old at (in_turn word (the_offsets placed)) }
{
    for i in 0..placed.route.hops {
        put_word(out, at + 2 * i, placed.offsets[i].0);
    }
}

// A row: id, way, K, hops, the nodes of the route, the offsets, the account.
pub fn put_row(
    out: &mut [u8],
    at: usize,
    id: u16,
    way: u8,
    period: Tile,
    placed: Placed,
    account: u16,
)
    requires { (placed.route.hops ≤ most_route_hops) × (at + (row_length newest + 3 * placed.route.hops) ≤ length out.old) }
    ensures { out.new ≡ over out.old at
        (encode_row newest (record { id = id; way = way; period = period.0; route = the_route placed.route; offsets = the_offsets placed; account = account })) }
{
    put_word(out, at, id);
    let way_at = at + 2;
    put(out, way_at, way);
    let period_at = way_at + 1;
    put_word(out, period_at, period.0);
    let hops_at = period_at + 2;
    let hops = placed.route.hops;
    put(out, hops_at, hops as u8);
    let route_at = hops_at + 1;
    put_route(placed.route, out, route_at);
    let offsets_at = route_at + hops + 1;
    put_offsets(placed, out, offsets_at);
    put_word(out, offsets_at + 2 * hops, account);
}

// The header of an image, with these counts of streams and hops.
pub fn put_head(image: &[u8], out: &mut [u8], streams: u8, hops: u16)
    requires { (header_length ≤ length image.now) × (header_length ≤ length out.old) }
    ensures { out.new ≡ over out.old 0 (headed image.now header_length streams hops) }
{
    put_part(&image[..12], out, 0);
    put(out, 12, streams);
    put_word(out, 13, hops);
    put_part(&image[15..image::HEADER], out, 15);
}

// Bytes 3 to 15 of a book without streams.
fn fields(plan: Plan, nodes: u8) -> [u8; 13]
    requires { PlanInRange (the_plan plan) }
    ensures { result ≡ drop 3 (encode_header newest (the_plan plan) nodes 0 0) }
{
    let version = image::NEWEST.to_be_bytes();
    let kinds = plan.kinds.to_be_bytes();
    [
        version[0],
        version[1],
        plan.slots.0 as u8,
        plan.tiles.0 as u8,
        kinds[0],
        kinds[1],
        plan.down.0 as u8,
        plan.up.0 as u8,
        nodes,
        0,
        0,
        0,
        0,
    ]
}

// The image of a book without streams: the mark, the fields, how many accounts, and the accounts and the topologies as they are given.
pub fn put_new(plan: Plan, nodes: u8, links: &[u8], hearing: &[u8], accounts: &[u8], out: &mut [u8])
    requires plan_in_range { PlanInRange (the_plan plan) × (length accounts.now ≤ 6 * most_accounts) }
    requires hearing_in_bounds { header_length + 1 + length accounts.now + length links.now + length hearing.now ≤ length out.old }
    ensures { out.new ≡ over out.old 0
        (encode_header newest (the_plan plan) nodes 0 0 ++ ((length accounts.now / 6 ∷ accounts.now) ++ (links.now ++ hearing.now))) }
{
    let rest = fields(plan, nodes);
    put_part(&image::MARK, out, 0);
    put_part(&rest, out, 3);
    put(out, image::HEADER, (accounts.len() / image::ACCOUNT) as u8);
    let accounts_at = image::HEADER + 1;
    put_part(accounts, out, accounts_at);
    let links_at = accounts_at + accounts.len();
    put_part(links, out, links_at);
    put_part(hearing, out, links_at + links.len());
}
