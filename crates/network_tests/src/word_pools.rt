use crate::equal_to::{equal, holds};
use word_pool::Pool;

#[test]
fn a_new_pool_has_four_zeros(rt: HostRuntime) {
    let pool = Pool::new(rt.alloc()).expect(&rt, "memory");
    equal(
        &rt,
        (pool.word(0, 0), pool.word(0, 1), pool.word(0, 2)),
        (0, 0, 0),
    );
    equal(&rt, pool.word_count(), 128);
    holds(&rt, pool.bytes() >= 512);
}

#[test]
fn what_was_given_is_taken_again(rt: HostRuntime) {
    let mut pool = Pool::new(rt.alloc()).expect(&rt, "memory");
    let first = pool.take(4).expect(&rt, "memory");
    let second = pool.take(8).expect(&rt, "memory");
    pool.give(first, 4);
    let again = pool.take(4).expect(&rt, "memory");
    equal(&rt, (first, second, again), (4, 8, 4));
    equal(&rt, pool.word_count(), 128);
}

#[test]
fn a_larger_block_is_halved_until_it_fits(rt: HostRuntime) {
    let mut pool = Pool::new(rt.alloc()).expect(&rt, "memory");
    let first = pool.take(32).expect(&rt, "memory");
    // Of the 64 words at 64 the upper half is free again.
    let second = pool.take(32).expect(&rt, "memory");
    let third = pool.take(32).expect(&rt, "memory");
    equal(
        &rt,
        (first, second, third, pool.word_count()),
        (32, 64, 96, 128),
    );
    // No free block has 32 words, so the pool grows by 128 words.
    let large = pool.take(32).expect(&rt, "memory");
    equal(&rt, (large, pool.word_count()), (128, 256));
    let whole = pool.take(128).expect(&rt, "memory");
    equal(&rt, (whole, pool.word_count()), (256, 384));
}

#[test]
fn the_upper_half_is_taken_again(rt: HostRuntime) {
    let mut pool = Pool::new(rt.alloc()).expect(&rt, "memory");
    let block = pool.take(16).expect(&rt, "memory");
    pool.set_word(block, 7, 70);
    pool.halve(block, 16);
    let upper = pool.take(8).expect(&rt, "memory");
    equal(&rt, (block, upper, pool.word(block, 7)), (16, 24, 70));
}

#[test]
fn words_stay_where_other_blocks_change(rt: HostRuntime) {
    let mut pool = Pool::new(rt.alloc()).expect(&rt, "memory");
    let block = pool.take(8).expect(&rt, "memory");
    pool.set_word(block, 0, u32::MAX);
    pool.set_word(block, 7, 7);
    let other = pool.take(8).expect(&rt, "memory");
    pool.set_word(other, 0, 1);
    let copy = pool.copy(rt.alloc()).expect(&rt, "memory");
    pool.give(other, 8);
    equal(
        &rt,
        (pool.word(block, 0), pool.word(block, 7)),
        (u32::MAX, 7),
    );
    equal(
        &rt,
        (copy.word(block, 0), copy.word(other, 0)),
        (u32::MAX, 1),
    );
}
