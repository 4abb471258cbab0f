use crate::equal_to::{equal, holds};
use node_pool::{Block, NodePool};

#[test]
fn nodes_and_results_lie_apart(rt: HostRuntime) {
    let mut pool = NodePool::new(rt.alloc());
    pool.reserve(17, 15).expect(&rt, "memory");
    let root = pool.take_nodes(1, 'r').expect(&rt, "memory");
    let size = 16;
    let base = pool.take_nodes(size, 'n').expect(&rt, "memory");
    let results = pool.take_results(15, 7u8).expect(&rt, "memory");
    holds(&rt, root == 0);
    holds(&rt, base == 1);
    equal(&rt, results, 0);
    pool.give(Block::Nodes { base, size });
    let spare = (pool.nodes.spare(16), pool.results.spare(15));
    equal(&rt, spare, (1, 0));
    equal(&rt, pool.nodes.get(root), 'r');
}
