//! The calls for rows with words, as C makes them.

use crate::tests::{Answer, Call, DONE, ELEVEN, INSIDE, Image, NOTHING, TEN, bare, equal, make};
use crate::tuhvondi_image_lookup;
use crate::word_calls::{tuhvondi_image_lookup_words, tuhvondi_image_rows_words};
use c_interface::Row;
use lookup_calls::Block;
use row_words::NO_WORD;
use std::test::Fail;

// 10.0.0.0/8 twice, and 10.1.0.0/16.
const ROWS: [Row; 3] = [TEN, TWO, THREE];

const TWO: Row = Row { port: 2, ..INSIDE };

const THREE: Row = Row { port: 3, ..TEN };

const MADE: [(Call, Answer); 2] = [
    (Call::Word(Image::First, 1), Answer::Status(7)),
    (Call::NewWords(&ROWS, &[700, 12, 701]), DONE),
];

// The word of a row that has none.
const NONE: Answer = Answer::Number(4_294_967_295);

const GONE: Block = Block {
    addr: 0x0a01_0000,
    len: 16,
};

// A row that is set without a word has none any more.
const REPLACED: [(Call, Answer); 4] = [
    (Call::Apply(Image::First, 1, &[TWO]), DONE),
    (Call::Word(Image::First, 0x0a01_0203), NONE),
    (Call::Remove(2, &[GONE]), DONE),
    (Call::Word(Image::First, 0x0a01_0203), Answer::Number(701)),
];

#[test]
fn an_image_is_made_with_words(rt: HostRuntime) {
    let alloc = rt.alloc();
    let mut hands = bare(alloc);
    make(&rt, alloc, &mut hands, &MADE);
    let addrs = [0x0a02_0304, 0x0a01_0203, 0x0808_0808];
    let (mut words, mut answers) = ([7; 3], [TEN; 3]);
    let image = &mut hands.image;
    let status = tuhvondi_image_lookup_words(alloc, image, &addrs, &mut words);
    equal(&rt, (status, words), (0, [701, 12, NO_WORD]));
    let status = tuhvondi_image_lookup(alloc, image, &addrs, &mut answers);
    equal(&rt, (status, answers), (0, [THREE, TWO, NOTHING]));
    make(&rt, alloc, &mut hands, &REPLACED);
}

const GIVEN: [(Call, Answer); 7] = [
    (Call::New(&[TEN, TWO]), DONE),
    (Call::Word(Image::First, 0x0a01_0203), NONE),
    (Call::Copy, DONE),
    (Call::ApplyWords(1, &[TWO], &[12]), DONE),
    (Call::Word(Image::First, 0x0a01_0203), Answer::Number(12)),
    (Call::Word(Image::First, 0x0a02_0304), NONE),
    (Call::Word(Image::Other, 0x0a01_0203), NONE),
];

#[test]
fn an_image_without_words_is_given_some(rt: HostRuntime) {
    let alloc = rt.alloc();
    let mut hands = bare(alloc);
    make(&rt, alloc, &mut hands, &GIVEN);
    let mut from = Block { addr: 0, len: 0 };
    let (mut rows, mut words, mut count) = ([NOTHING; 3], [7; 3], 0);
    let image = &mut hands.image;
    let status = tuhvondi_image_rows_words(
        alloc, image, &mut from, &mut rows, &mut words, &mut count,
    );
    equal(&rt, (status, count, from.len), (0, 2, 33));
    equal(&rt, rows, [TEN, TWO, NOTHING]);
    equal(&rt, words, [NO_WORD, 12, 7]);
}

const HOST_BITS: Row = Row {
    addr: 1,
    len: 0,
    ..TEN
};

const WORDS_MISSING: [(Call, Answer); 5] = [
    (Call::NewWords(&ROWS, &[1]), Answer::Status(8)),
    (Call::ApplyWords(1, &ROWS, &[1]), Answer::Status(8)),
    (Call::ApplyWords(1, &[HOST_BITS], &[]), Answer::Status(4)),
    (Call::PublishWords(1, &ROWS, &[1], &[]), Answer::Status(8)),
    (Call::NewWords(&[], &[]), DONE),
];

#[test]
fn there_is_a_word_for_each_row(rt: HostRuntime) {
    let alloc = rt.alloc();
    let mut hands = bare(alloc);
    let mut from = Block { addr: 0, len: 0 };
    let (mut rows, mut count) = ([NOTHING; 2], 9);
    let image = &mut hands.image;
    let status = tuhvondi_image_rows_words(alloc, image, &mut from, &mut rows, &mut [], &mut count);
    equal(&rt, (status, count), (8, 9));
    make(&rt, alloc, &mut hands, &WORDS_MISSING);
    let status = tuhvondi_image_lookup_words(alloc, &mut hands.image, &[1], &mut []);
    equal(&rt, status, 8);
}

const ELEVEN_GONE: [Block; 1] = [Block {
    addr: 0x0b00_0000,
    len: 8,
}];

// Each copy is changed by two publications, and misses two.
const PUBLISHED: [(Call, Answer); 19] = [
    (Call::ReadWord(0x0a00_0001), Answer::Status(7)),
    (Call::New(&[TEN, ELEVEN]), DONE),
    (Call::Open(1), DONE),
    (Call::Seat(1), DONE),
    (Call::ReadWord(0x0a00_0001), Answer::ReadWord(NO_WORD, 0)),
    (Call::PublishWords(1, &[TEN], &[1], &ELEVEN_GONE), DONE),
    (Call::ReadWord(0x0a00_0001), Answer::ReadWord(1, 1)),
    (Call::ReadWord(0x0b00_0001), Answer::ReadWord(NO_WORD, 1)),
    (Call::PublishWords(2, &[TEN], &[2], &ELEVEN_GONE), DONE),
    (Call::ReadWord(0x0a00_0001), Answer::ReadWord(2, 2)),
    (Call::ReadWord(0x0b00_0001), Answer::ReadWord(NO_WORD, 2)),
    (Call::PublishWords(3, &[TEN], &[3], &ELEVEN_GONE), DONE),
    (Call::ReadWord(0x0a00_0001), Answer::ReadWord(3, 3)),
    (Call::ReadWord(0x0b00_0001), Answer::ReadWord(NO_WORD, 3)),
    (Call::PublishWords(4, &[TEN], &[4], &ELEVEN_GONE), DONE),
    (Call::ReadWord(0x0a00_0001), Answer::ReadWord(4, 4)),
    (Call::ReadWord(0x0b00_0001), Answer::ReadWord(NO_WORD, 4)),
    (Call::Publish(5, &[TEN, ELEVEN], &[]), DONE),
    (Call::ReadWord(0x0a00_0001), Answer::ReadWord(NO_WORD, 5)),
];

#[test]
fn readers_see_the_words_that_are_published(rt: HostRuntime) {
    make(&rt, rt.alloc(), &mut bare(rt.alloc()), &PUBLISHED);
}
