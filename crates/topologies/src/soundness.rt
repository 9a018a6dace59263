// Whether links and hearing are sound topologies: no bit from N up, no node joined to itself, none one way, and every link heard.
ghost use Rattle.std.specs.Prelude.{◌≡◌, ◌<◌, length};
ghost use Rattle.rules.specs.Words.{Tests};
ghost use Rattle.rules.specs.Topology.{NodesInRange, SoundTopology, SoundTopologies};
ghost use Rattle.rules.specs.Calls.{TopologiesGiven};
ghost use Rattle.bitset.specs.Rows.{topology};
ghost use Rattle.topologies.specs.Rows.{SoundRow, LeftOf, Heard};

// Whether the row of a node is sound, where this much of it is left to ask about.
fn row_sound(rows: &[u64], node: usize, rest: u64) -> bool
    requires { NodesInRange (length rows.now) × (node < length rows.now) × LeftOf (topology rows.now) node rest }
    ensures { Tests result (SoundRow (topology rows.now) node) }
{
    if bitset::has(rows[node], node) {
        return false;
    }
    let mut left = rest;
    // No index is counted: each turn takes the lowest member out.
    while left != 0 {
        let other = bitset::lowest(left);
        if rows.len() <= other || !bitset::has(rows[other], node) {
            return false;
        }
        left = bitset::remove_lowest(left);
    }
    true
}

// Whether every row is sound.
fn sound(rows: &[u64]) -> bool
    requires { NodesInRange (length rows.now) }
    ensures { Tests result (SoundTopology (topology rows.now)) }
{
    for node in 0..rows.len() {
        if !row_sound(rows, node, rows[node]) {
            return false;
        }
    }
    true
}

// Whether every link is heard.
fn heard(links: &[u64], hearing: &[u64]) -> bool
    requires { length hearing.now ≡ length links.now }
    ensures { Tests result (Heard (topology links.now) (topology hearing.now)) }
{
    for node in 0..links.len() {
        if bitset::difference(links[node], hearing[node]) != 0 {
            return false;
        }
    }
    true
}

// Whether every row of the hearing is sound, where the links are, and are heard: they are not asked about again.
// It has its own loop: in one with `sound` what is left of a row would be a closure with a contract, which is no plainer.
fn rest_sound(links: &[u64], hearing: &[u64]) -> bool
    requires { NodesInRange (length links.now) × (length hearing.now ≡ length links.now) × SoundTopology (topology links.now)
        × Heard (topology links.now) (topology hearing.now) }
    ensures { Tests result (SoundTopology (topology hearing.now)) }
{
    for node in 0..hearing.len() {
        if !row_sound(
            hearing,
            node,
            bitset::difference(hearing[node], links[node]),
        ) {
            return false;
        }
    }
    true
}

// Whether both are sound, and every link is heard.
pub fn both_sound(links: &[u64], hearing: &[u64]) -> bool
    requires { NodesInRange (length links.now) × (length hearing.now ≡ length links.now) }
    ensures { Tests result (SoundTopologies (topology links.now) (topology hearing.now)) }
{
    sound(links) && heard(links, hearing) && rest_sound(links, hearing)
}

// Whether the topologies of a book of so many nodes, given as they stand in an image, are whole and sound.
pub fn given(n: usize, links: &[u8], hearing: &[u8]) -> bool
    requires { NodesInRange n }
    ensures { Tests result (TopologiesGiven n links.now hearing.now) }
{
    let whole = image::SET * n;
    if links.len() != whole || hearing.len() != whole {
        return false;
    }
    let linked = crate::sets(links, 0, n);
    let heard = crate::sets(hearing, 0, n);
    both_sound(&linked[..n], &heard[..n])
}
