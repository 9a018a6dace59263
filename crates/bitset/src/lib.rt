// Sets of numbers below 64 in a 64-bit number: b is a member where bit b is set.

#![tactic(auto)]

ghost use Rattle.std.specs.Prelude.{◌≡◌, ◌⊎◌, ℕ, ◌<◌, ◌≤◌, min};
ghost use Rattle.rules.specs.Words.{Has, NoBitFrom, Count, Tests};
ghost use Rattle.rules.specs.Topology.{all_nodes};
ghost use Rattle.bitset.specs.Sets.{SetOf, Lowest};

pub mod clash;

// Every number below 64.
pub const ALL: u64 = u64::MAX;

// Every number below n, and below 64.
pub fn below(n: usize) -> u64
    ensures { result ≡ all_nodes (min n 64) }
{
    if 64 <= n { ALL } else { (1 << n) - 1 }
}

// Whether every member is below n.
pub fn within(set: u64, n: usize) -> bool
    requires { n ≤ 64 }
    ensures { Tests result (NoBitFrom n set) }
{
    set <= below(n)
}

// Whether b is a member.
pub fn has(set: u64, b: usize) -> bool
    requires { b < 64 }
    ensures { Tests result (Has set b) }
{
    (set >> b) & 1 == 1
}

// The set with b in it.
pub fn insert(set: u64, b: usize) -> u64
    requires { b < 64 }
    ensures { SetOf (λ (k : ℕ). Has set k ⊎ (k ≡ b)) result }
{
    set | (1 << b)
}

// The set without b.
pub fn remove(set: u64, b: usize) -> u64
    requires { b < 64 }
    ensures { SetOf (λ (k : ℕ). Has set k × (k ≡ b → ⊥)) result }
{
    set & !(1 << b)
}

// What is in one of the two.
pub fn union(a: u64, b: u64) -> u64
    ensures { SetOf (λ (k : ℕ). Has a k ⊎ Has b k) result }
{
    a | b
}

// What is in both.
pub fn intersection(a: u64, b: u64) -> u64
    ensures { SetOf (λ (k : ℕ). Has a k × Has b k) result }
{
    a & b
}

// What is in a and not in b.
pub fn difference(a: u64, b: u64) -> u64
    ensures { SetOf (λ (k : ℕ). Has a k × (Has b k → ⊥)) result }
{
    a & !b
}

// How many members there are.
pub fn count(set: u64) -> u32
    ensures { Count (Has set) 64 result }
{
    set.count_ones()
}

// The lowest member.
pub fn lowest(set: u64) -> usize
    requires { 0 < set }
    ensures { Lowest set result }
{
    set.trailing_zeros() as usize
}

// The set without its lowest member.
pub fn remove_lowest(set: u64) -> u64
    requires { 0 < set }
    ensures { SetOf (λ (k : ℕ). Has set k × (Lowest set k → ⊥)) result }
{
    set & (set - 1)
}
