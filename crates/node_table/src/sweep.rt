// Nodes that aren't marked are given back: they leave the slab, which can give out their keys again, and what is left of
// them are their extension variables.
ghost use Rattle.std.specs.Prelude.{◌≡◌, ◌≢◌, ◌+◌, ◌≤◌, ◌++◌, ℕ, false, None, MatchOption, map, nat_eq, slice_index_or, vec_len};
ghost use Rattle.std.specs.Prelude.{vec_capacity, if◌then◌else◌, IsPermutation};
ghost use Rattle.std.specs.List.{IsDistinct};
ghost use Rattle.slab.specs.Slab.{get, slab_len};
ghost use Rattle.node_table.specs.Stored.{IsFalling};
ghost use Rattle.node_table.specs.Swept.{unmarked};

use crate::marks::is_set;
use crate::stored::StoredNode;
use slab::Slab;

/// Removes the nodes that aren't marked, and appends their extension variables, by rising key, to a list with room for
/// them. Returns how many there were. It takes no memory.
pub fn remove_unmarked(nodes: &mut Slab<StoredNode>, marks: &[bool], freed: &mut Vec<u32>) -> usize
    requires room { vec_len freed.old + slab_len nodes.old ≤ vec_capacity freed.old }
    ensures kept { (key : ℕ) → get nodes.new key ≡ (if slice_index_or marks.now key false then get nodes.old key else None) }
    ensures count { slab_len nodes.new + result ≡ slab_len nodes.old }
    ensures fewer { slab_len nodes.new ≤ slab_len nodes.old }
    ensures freed { freed.new.items ≡ freed.old.items ++ map (λ entry. entry.1.variable) (unmarked marks.now nodes.old) }
    ensures added { vec_len freed.new ≡ vec_len freed.old + result }
    ensures capacity { vec_capacity freed.new ≡ vec_capacity freed.old }
{
    let before = freed.len();
    'keys: for key in 0..nodes.capacity() {
        let Some(node) = remove_at(nodes, marks, key) else {
            continue;
        };
        freed.push_reserved(node.variable);
    }
    freed.len() - before
}

/// Sorts numbers that all differ, the greatest first. It takes no memory.
pub fn sort_falling(numbers: &mut [u32])
    requires { IsDistinct nat_eq numbers.old }
    ensures falling { IsFalling numbers.new }
    ensures permutation { IsPermutation numbers.old numbers.new }
{
    numbers.sort_unstable();
    numbers.reverse();
}

// Removes the node of a key, unless it is marked.
fn remove_at(nodes: &mut Slab<StoredNode>, marks: &[bool], key: usize) -> Option<StoredNode>
    ensures value { result ≡ (if slice_index_or marks.now key false then None else get nodes.old key) }
    ensures here { get nodes.new key ≡ (if slice_index_or marks.now key false then get nodes.old key else None) }
    ensures others { (other : ℕ) → other ≢ key → get nodes.new other ≡ get nodes.old other }
    ensures count { MatchOption result (slab_len nodes.new ≡ slab_len nodes.old) (λ _. slab_len nodes.new + 1 ≡ slab_len nodes.old) }
{
    if is_set(marks, key) {
        return None;
    }
    nodes.try_remove(key)
}
