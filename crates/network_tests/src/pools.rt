use crate::equal_to::equal;
use node_pool::Pool;

#[test]
fn what_was_given_is_taken_again(rt: HostRuntime) {
    let mut pool = Pool::new(rt.alloc());
    let first = pool.take(3, 'a').expect(&rt, "memory");
    let second = pool.take(3, 'b').expect(&rt, "memory");
    equal(&rt, (first, second), (0, 3));
    pool.give(second, 3);
    equal(&rt, (pool.spare(3), pool.cell_count()), (1, 6));
    let again = pool.take(3, 'c').expect(&rt, "memory");
    // A block of another size does not fit.
    let other = pool.take(2, 'd').expect(&rt, "memory");
    equal(&rt, (again, other), (3, 6));
    equal(&rt, (pool.spare(3), pool.cell_count()), (0, 8));
}

#[test]
fn the_pool_stays_as_large_as_it_was(rt: HostRuntime) {
    let mut pool = Pool::new(rt.alloc());
    for turn in 0..1000u32 {
        let large = pool.take(16, turn).expect(&rt, "memory");
        pool.give(large, 16);
        let small = pool.take(1, turn).expect(&rt, "memory");
        pool.give(small, 1);
    }
    equal(&rt, pool.cell_count(), 17);
}

#[test]
fn a_block_moves_with_a_gap(rt: HostRuntime) {
    let mut pool = Pool::new(rt.alloc());
    pool.reserve(5).expect(&rt, "memory");
    let base = pool.take(2, 'a').expect(&rt, "memory");
    let second = pool.place(base, 1);
    pool.set(second, 'c');
    let moved = pool.grow(base, 2, 1, 'b').expect(&rt, "memory");
    let low = pool.get(pool.place(moved, 0));
    let middle = pool.get(pool.place(moved, 1));
    let high = pool.get(pool.place(moved, 2));
    equal(&rt, (low, middle, high), ('a', 'b', 'c'));
    equal(&rt, (moved, pool.cell_count(), pool.spare(2)), (2, 5, 1));
}
