//! The nodes of a tree: below node k are nodes 2k and 2k + 1, the root is node 1, and the last nodes are its leaves.

ghost use Rattle.std.specs.Prelude.{◌≡◌, ◌⊎◌, ◌+◌, ◌<◌, ◌≤◌, None, IfOk, drop, length, replicate, set};
ghost use Rattle.network_model.specs.Network.{most_routers};
ghost use Rattle.minima.specs.Trees.{HasLeast, lesser, node_at};

use crate::due::{Due, lesser};
use network_model::{NoMemory, SmallAllocator};

/// So many nodes with nothing in them.
pub fn nothing<A: SmallAllocator>(alloc: A, count: usize) -> Result<Vec<Option<Due>, A>, NoMemory>
    ensures { IfOk result (λ nodes. nodes.items ≡ replicate count None) }
{
    let mut nodes = Vec::with_capacity(alloc, count)?;
    for _made in 0..count {
        nodes.push(None)?;
    }
    Ok(nodes)
}

/// What a node has.
pub fn at<A: SmallAllocator>(nodes: &Vec<Option<Due>, A>, node: usize) -> Option<Due>
    ensures { result ≡ node_at nodes.now.items node }
{
    match nodes.get(node) {
        Some(due) => *due,
        None => None,
    }
}

// Writes a node.
fn put<A: SmallAllocator>(nodes: &mut Vec<Option<Due>, A>, node: usize, due: Option<Due>)
    requires { node < length nodes.old.items }
    ensures { nodes.new.items ≡ set nodes.old.items node due }
{
    nodes[node] = due;
}

// Gives a node the lesser of the two below it.
fn put_right<A: SmallAllocator>(nodes: &mut Vec<Option<Due>, A>, node: usize)
    requires node { node < length nodes.old.items }
    requires few { node ≤ most_routers }
    ensures { nodes.new.items ≡ set nodes.old.items node
        (lesser (node_at nodes.old.items (node + node)) (node_at nodes.old.items (node + node + 1))) }
{
    let left = at(nodes, node + node);
    let right = at(nodes, node + node + 1);
    put(nodes, node, lesser(left, right));
}

// The node above a node.
fn parent_of(node: usize) -> usize
    ensures half { (node ≡ result + result) ⊎ (node ≡ result + result + 1) }
    ensures below { result + result ≤ node }
{
    node / 2
}

/// Writes the leaf of a router, and anew each node above it.
pub fn write<A: SmallAllocator>(
    nodes: &mut Vec<Option<Due>, A>,
    count: usize,
    router: usize,
    due: Option<Due>,
)
    requires size { length nodes.old.items ≡ count + count }
    requires few { count ≤ most_routers }
    requires router { router < count }
    requires least { HasLeast count nodes.old.items }
    ensures size { length nodes.new.items ≡ count + count }
    ensures least { HasLeast count nodes.new.items }
    ensures leaves { drop count nodes.new.items
        ≡ drop count (set nodes.old.items (count + router) due) }
{
    let leaf = count + router;
    put(nodes, leaf, due);
    let mut node = leaf;
    while node > 1 {
        let parent = parent_of(node);
        put_right(nodes, parent);
        node = parent;
    }
}
