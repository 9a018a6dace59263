// Which hops clash with a hop, as two sets of nodes that are found once.
ghost use Rattle.bitset.specs.Rows.{topology};
ghost use Rattle.bitset.specs.clash.Reach.{hop, ReachOf, Between};

use rules::Node;

// A hop clashes with exactly the hops that have a sender or a receiver in its reach.
#[derive(Clone, Copy)]
pub struct Reach {
    pub senders: u64,
    pub receivers: u64,
}

// The reach of the hop: its own nodes; senders that its receiver hears, receivers that hear its sender.
pub fn reach_of(hearing: &[u64], from: Node, to: Node) -> Reach
    requires { Between (topology hearing.now) (hop from to) }
    ensures { ReachOf (topology hearing.now) (hop from to) result }
{
    let i = usize::from(from.0);
    let j = usize::from(to.0);
    let ends = crate::insert(crate::insert(0, i), j);
    Reach {
        senders: crate::union(ends, hearing[j]),
        receivers: crate::union(ends, hearing[i]),
    }
}
