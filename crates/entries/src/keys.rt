// The different pairs of id and way that the entries show, as keys.
ghost use Rattle.std.specs.Prelude.{◌≡◌, ◌+◌, ◌*◌, ◌<◌, ◌≤◌, Bool, IfSome, length};
ghost use Rattle.rules.specs.Words.{Tests};
ghost use Rattle.rules.specs.Book.{key_of};
ghost use Rattle.rules.specs.Table.{on_way};
ghost use Rattle.entries.specs.Keys.{Counts, KeyOf, Noted, Collected};

use image::Book;

// The key of an id and a way.
fn key_of(id: u16, way: u8) -> u32
    ensures { result ≡ key_of id way }
{
    u32::from(id) * 256 + u32::from(way)
}

// Whether an operation of the way is that in which a source sends.
pub fn is_sent(operation: u8, way: u8) -> bool
    ensures { Tests result (operation ≡ on_way way 1) }
{
    operation == operations::on_way(way, operations::SEND)
}

// The key of an entry's stream, where there is one and its operation counts.
fn key_at<F: Fn(u8, u8) -> bool>(tables: &[u8], i: usize, counts: &F) -> Option<u32>
    requires callable { F.IsAlwaysCallable counts.now }
    requires inside { 3 * i + 3 ≤ length tables.now }
    ensures { (sent : Bool) → Counts sent (F.post counts.now) → KeyOf sent tables.now i result }
{
    let operation = crate::operation_at(tables, i);
    let way = crate::way_of(operation)?;
    if !counts(operation, way) {
        return None;
    }
    Some(key_of(crate::id_at(tables, i), way))
}

// Puts a key, and the entry that shows it, behind so many that are there, unless it is one of them: how many there are then, if there is room.
fn note(keys: &mut [u32], entries: &mut [u32], found: usize, key: u32, i: u32) -> Option<usize>
    requires { (found ≤ 64) × (length keys.old ≡ 64) × (length entries.old ≡ 64) }
    ensures { Noted keys.old entries.old found key i result keys.new entries.new }
{
    if keys[..found].contains(&key) {
        return Some(found);
    }
    if found == Book::STREAMS {
        return None;
    }
    keys[found] = key;
    entries[found] = i;
    Some(found + 1)
}

// The different keys of so many entries whose operation counts on its way, and of each the first entry that shows it: their number, if they are at most 64.
pub fn collect<F: Fn(u8, u8) -> bool>(
    tables: &[u8],
    count: u32,
    counts: F,
    keys: &mut [u32],
    entries: &mut [u32],
) -> Option<usize>
    requires callable { F.IsAlwaysCallable counts }
    requires room { (3 * count ≤ length tables.now) × (length keys.old ≡ 64) × (length entries.old ≡ 64) }
    ensures few { IfSome result (λ n. n ≤ 64) }
    ensures keys { (sent : Bool) → Counts sent (F.post counts) → Collected sent tables.now count result keys.new entries.new }
{
    let mut found = 0;
    for i in 0..count {
        if let Some(key) = key_at(tables, i as usize, &counts) {
            found = note(keys, entries, found, key, i)?;
        }
    }
    Some(found)
}
