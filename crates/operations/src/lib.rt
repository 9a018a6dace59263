// What a node does in the hops of a stream.

#![tactic(auto)]

ghost use Rattle.std.specs.Prelude.{◌≡◌, ◌≤◌};
ghost use Rattle.rules.specs.Words.{Distinct};
ghost use Rattle.rules.specs.Table.{on_way};
ghost use Rattle.operations.specs.Operations.{where_working, StopOf, arrival, departure};

pub mod balances;

use image::row::Row;
use rules::Node;

// The bytes of an entry of a table: an operation and an id.
pub const ENTRY: usize = 3;

// The operations, as numbers of a table's bytes, which are matched by ranges: sleep,
pub const SLEEP: u8 = 0;

// send from above,
pub const SEND: u8 = 1;

// receive to buffer,
pub const RECEIVE: u8 = 2;

// forward from buffer,
pub const FORWARD: u8 = 3;

// receive for above,
pub const DELIVER: u8 = 4;

// and control slot.
pub const CONTROL: u8 = 5;

// On the way of a second route an operation gains 16,
const GAIN: u8 = 16;

// so that they go from send
pub const SECOND_SEND: u8 = 17;

// to receive for above.
pub const SECOND_DELIVER: u8 = 20;

// The number n in the operations 1 to 4 and 17 to 20, which have a stream, and 0 in the others.
pub fn where_working(operation: u8, n: u16) -> u16
    ensures { result ≡ where_working operation n }
{
    match operation {
        SLEEP => 0,
        SEND..=DELIVER | SECOND_SEND..=SECOND_DELIVER => n,
        _ => 0,
    }
}

// Where the node stands in the list of nodes of a row, if it does.
pub fn stop_of(row: &Row<'_>, node: Node) -> Option<usize>
    requires { Distinct row.now.route }
    ensures { StopOf node.0 row.now result }
{
    (0..row.hops() + 1).find(|place| row.node(*place) == node)
}

// What the node at a place of a route does in the hop that leads there.
pub fn arriving(place: usize, last: usize) -> u8
    ensures { (result ≡ arrival place last) × (result ≤ 4) }
{
    if place == last { DELIVER } else { RECEIVE }
}

// What it does in the hop that leads on.
pub fn leaving(place: usize) -> u8
    ensures { (result ≡ departure place) × (result ≤ 4) }
{
    if place == 0 { SEND } else { FORWARD }
}

// An operation as it is on a route of the way.
pub fn on_way(way: u8, operation: u8) -> u8
    requires { operation ≤ 4 }
    ensures { result ≡ on_way way operation }
{
    if way == rules::SECOND_WAY {
        GAIN + operation
    } else {
        operation
    }
}
