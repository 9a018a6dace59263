// The rows of a topology as they stand in an image, read into an array.

#![tactic(auto)]

pub mod soundness;

ghost use Rattle.std.specs.Prelude.{◌+◌, ◌*◌, ◌<◌, ◌≤◌, length};
ghost use Rattle.image.specs.Places.{Sets};

// The n rows of a topology from a place on, and zeros after them.
pub fn sets(image: &[u8], at: usize, n: usize) -> [u64; 64]
    requires { (n ≤ 64) × (at + 8 * n ≤ length image.now) }
    ensures { Sets image.now at n result }
{
    let mut rows = [0u64; 64];
    for i in 0..n {
        rows[i] = image::word64_at(image, at + image::SET * i);
    }
    rows
}
