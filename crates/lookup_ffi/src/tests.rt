//! The calls, as C makes them.

use crate::readers::{
    tuhvondi_reader_free, tuhvondi_reader_learn, tuhvondi_reader_lookup, tuhvondi_writer_free,
    tuhvondi_writer_new, tuhvondi_writer_publish, tuhvondi_writer_published,
    tuhvondi_writer_reader,
};
use crate::word_calls::{
    tuhvondi_image_apply_words, tuhvondi_image_lookup_words, tuhvondi_image_new_words,
    tuhvondi_reader_lookup_words, tuhvondi_writer_publish_words,
};
use crate::{
    tuhvondi_image_apply, tuhvondi_image_bytes, tuhvondi_image_copy, tuhvondi_image_free,
    tuhvondi_image_generation, tuhvondi_image_lookup, tuhvondi_image_new, tuhvondi_image_remove,
    tuhvondi_image_row_count, tuhvondi_image_rows, tuhvondi_image_share,
};
use c_interface::{CallFault, Row};
use lookup_calls::{Block, ImageHandle, ReaderHandle, WriterHandle};
use std::alloc::Global;
use std::fmt::Debug;
use std::process::Abort;
use std::test::Fail;

// What was found is what was wanted. An `assert_eq!` that is written out costs the gate three seconds, and a call of this
// function less than one, because it is proved once.
pub(crate) fn equal<T: PartialEq + Debug + Drop>(rt: &impl Abort, found: T, wanted: T) {
    assert_eq!(rt; found, wanted);
}

pub(crate) const NOTHING: Row = Row {
    addr: 0,
    len: 0,
    kind: 3,
    port: 0,
    session: 0,
};

// 10.0.0.0/8, 11.0.0.0/8 and 10.1.0.0/16 by port 1, and a default route by port 0.
pub(crate) const TEN: Row = Row {
    addr: 0x0a00_0000,
    len: 8,
    kind: 1,
    port: 1,
    session: 1,
};

pub(crate) const ELEVEN: Row = Row {
    addr: 0x0b00_0000,
    ..TEN
};

pub(crate) const INSIDE: Row = Row {
    addr: 0x0a01_0000,
    len: 16,
    ..TEN
};

const DEFAULT: Row = Row {
    addr: 0,
    len: 0,
    port: 0,
    ..TEN
};

// 10.1.0.0/16 and 192.0.2.0/24.
const LOCAL: Row = Row {
    kind: 0,
    port: 0,
    session: 0,
    ..INSIDE
};

const UNREACHABLE: Row = Row {
    addr: 0xc000_0200,
    len: 24,
    kind: 2,
    ..LOCAL
};

// A row whose length is no prefix's.
const LONG: Row = Row { len: 33, ..TEN };

fn via(addr: u32, len: u8, port: u8) -> Row {
    Row {
        addr,
        len,
        port,
        ..TEN
    }
}

// The handles of a test.
#[derive(Drop)]
pub(crate) struct Hands {
    pub image: ImageHandle,
    pub other: ImageHandle,
    pub writer: WriterHandle,
    pub one: ReaderHandle,
    pub two: ReaderHandle,
    pub three: ReaderHandle,
}

pub(crate) fn bare(alloc: Global) -> Hands {
    Hands {
        image: ImageHandle::none(alloc),
        other: ImageHandle::none(alloc),
        writer: WriterHandle::none(alloc),
        one: ReaderHandle::none(alloc),
        two: ReaderHandle::none(alloc),
        three: ReaderHandle::none(alloc),
    }
}

// A call with the first image or the other, or with the reader of a number.
#[derive(Clone, Copy)]
pub(crate) enum Call {
    New(&'static [Row]),
    NewWords(&'static [Row], &'static [u32]),
    Apply(Image, u64, &'static [Row]),
    ApplyWords(u64, &'static [Row], &'static [u32]),
    Remove(u64, &'static [Block]),
    Share,
    Copy,
    Free(Image),
    Look(Image, u32),
    Word(Image, u32),
    Generation,
    Count,
    Open(usize),
    Seat(u8),
    Publish(u64, &'static [Row], &'static [Block]),
    PublishWords(u64, &'static [Row], &'static [u32], &'static [Block]),
    Published,
    Learn(u64),
    Read(u8, u32),
    ReadWord(u32),
    Leave(u8),
    Close,
}

#[derive(Clone, Copy)]
pub(crate) enum Image {
    First,
    Other,
}

// The status of a call, or what it wrote if it is done: a reader's answer is with its generation.
#[derive(Clone, Copy, PartialEq)]
pub(crate) enum Answer {
    Status(u32),
    Row(Row),
    Number(u64),
    Read(Row, u64),
    ReadWord(u32, u64),
}

pub(crate) const DONE: Answer = Answer::Status(0);

fn look(alloc: Global, image: &mut ImageHandle, addr: u32) -> Answer {
    let mut answers = [NOTHING];
    match tuhvondi_image_lookup(alloc, image, &[addr], &mut answers) {
        0 => Answer::Row(answers[0]),
        fault => Answer::Status(fault),
    }
}

fn word(alloc: Global, image: &mut ImageHandle, addr: u32) -> Answer {
    let mut words = [7];
    match tuhvondi_image_lookup_words(alloc, image, &[addr], &mut words) {
        0 => Answer::Number(u64::from(words[0])),
        fault => Answer::Status(fault),
    }
}

fn read(alloc: Global, reader: &mut ReaderHandle, addr: u32) -> Answer {
    let (mut answers, mut generation) = ([NOTHING], 99);
    match tuhvondi_reader_lookup(alloc, reader, &[addr], &mut answers, &mut generation) {
        0 => Answer::Read(answers[0], generation),
        fault => Answer::Status(fault),
    }
}

fn read_word(alloc: Global, reader: &mut ReaderHandle, addr: u32) -> Answer {
    let (mut words, mut generation) = ([7], 99);
    match tuhvondi_reader_lookup_words(alloc, reader, &[addr], &mut words, &mut generation) {
        0 => Answer::ReadWord(words[0], generation),
        fault => Answer::Status(fault),
    }
}

// A number that a call wrote. If it is refused it writes none.
fn number(status: u32, written: u64) -> Answer {
    match status {
        0 => Answer::Number(written),
        fault if written == 77 => Answer::Status(fault),
        _ => DONE,
    }
}

impl Hands {
    fn of(&mut self, image: Image) -> &mut ImageHandle {
        match image {
            Image::First => &mut self.image,
            Image::Other => &mut self.other,
        }
    }

    fn reader(&mut self, number: u8) -> &mut ReaderHandle {
        match number {
            1 => &mut self.one,
            2 => &mut self.two,
            _ => &mut self.three,
        }
    }

    fn answer_to(&mut self, alloc: Global, call: Call) -> Answer {
        let image = &mut self.image;
        match call {
            Call::New(rows) => Answer::Status(tuhvondi_image_new(alloc, rows, image)),
            Call::NewWords(rows, words) => {
                Answer::Status(tuhvondi_image_new_words(alloc, rows, words, image))
            }
            Call::Apply(which, generation, rows) => {
                let status = tuhvondi_image_apply(alloc, self.of(which), generation, rows);
                Answer::Status(status)
            }
            Call::ApplyWords(generation, rows, words) => Answer::Status(tuhvondi_image_apply_words(
                alloc, image, generation, rows, words,
            )),
            Call::Remove(generation, prefixes) => {
                Answer::Status(tuhvondi_image_remove(alloc, image, generation, prefixes))
            }
            Call::Share => Answer::Status(tuhvondi_image_share(alloc, image, &mut self.other)),
            Call::Copy => Answer::Status(tuhvondi_image_copy(alloc, image, &mut self.other)),
            Call::Free(which) => {
                tuhvondi_image_free(alloc, self.of(which));
                DONE
            }
            Call::Look(which, addr) => look(alloc, self.of(which), addr),
            Call::Word(which, addr) => word(alloc, self.of(which), addr),
            Call::Generation => {
                let mut generation = 77;
                let status = tuhvondi_image_generation(alloc, image, &mut generation);
                number(status, generation)
            }
            Call::Count => {
                let mut count = 77;
                let status = tuhvondi_image_row_count(alloc, image, &mut count);
                number(status, count as u64)
            }
            _ => self.read_or_publish(alloc, call),
        }
    }

    fn read_or_publish(&mut self, alloc: Global, call: Call) -> Answer {
        let writer = &mut self.writer;
        match call {
            Call::Open(readers) => {
                Answer::Status(tuhvondi_writer_new(alloc, &mut self.image, readers, writer))
            }
            Call::Seat(1) => Answer::Status(tuhvondi_writer_reader(alloc, writer, &mut self.one)),
            Call::Seat(2) => Answer::Status(tuhvondi_writer_reader(alloc, writer, &mut self.two)),
            Call::Seat(_) => {
                Answer::Status(tuhvondi_writer_reader(alloc, writer, &mut self.three))
            }
            Call::Publish(generation, rows, gone) => Answer::Status(tuhvondi_writer_publish(
                alloc, writer, generation, rows, gone,
            )),
            Call::PublishWords(generation, rows, words, gone) => Answer::Status(
                tuhvondi_writer_publish_words(alloc, writer, generation, rows, words, gone),
            ),
            Call::Published => {
                let mut published = 77;
                let status = tuhvondi_writer_published(alloc, writer, &mut published);
                number(status, published)
            }
            Call::Learn(published) => {
                Answer::Status(tuhvondi_reader_learn(alloc, &mut self.one, published))
            }
            Call::Read(number, addr) => read(alloc, self.reader(number), addr),
            Call::ReadWord(addr) => read_word(alloc, &mut self.one, addr),
            Call::Leave(number) => {
                tuhvondi_reader_free(alloc, self.reader(number));
                DONE
            }
            _ => {
                tuhvondi_writer_free(alloc, writer);
                DONE
            }
        }
    }
}

// Makes calls, each of which answers what stands beside it.
pub(crate) fn make(rt: &impl Abort, alloc: Global, hands: &mut Hands, calls: &[(Call, Answer)]) {
    for (row, &(call, wanted)) in calls.iter().enumerate() {
        let found = hands.answer_to(alloc, call);
        equal(rt, (row, found == wanted), (row, true));
    }
}

// 10.0.0.0/8, 10.1.0.0/16 and 192.0.2.0/24; the last row replaces the first.
const MADE: [Row; 4] = [TEN, LOCAL, UNREACHABLE, TWO];

const TWO: Row = Row { port: 2, ..TEN };

// A default route, and another way to 10.1.0.0/16.
const ANYWHERE: Row = Row { port: 5, ..DEFAULT };

const AWAY: Row = Row { port: 3, ..INSIDE };

const HALF: Row = Row { len: 1, ..DEFAULT };

const PATCHED: [(Call, Answer); 14] = [
    (Call::New(&MADE), DONE),
    (Call::Generation, Answer::Number(0)),
    (Call::Look(Image::First, 0x0a01_0203), Answer::Row(LOCAL)),
    (Call::Apply(Image::First, 7, &[ANYWHERE, AWAY]), DONE),
    (Call::Generation, Answer::Number(7)),
    (Call::Look(Image::First, 0x0808_0808), Answer::Row(ANYWHERE)),
    (Call::Look(Image::First, 0x0a01_0203), Answer::Row(AWAY)),
    (Call::Look(Image::First, 0x0a02_0304), Answer::Row(TWO)),
    // Another image in its place.
    (Call::New(&[HALF]), DONE),
    (Call::Look(Image::First, 0x0808_0808), Answer::Row(HALF)),
    (Call::Look(Image::First, 0xc000_0201), Answer::Row(NOTHING)),
    (Call::Generation, Answer::Number(0)),
    (Call::Free(Image::First), DONE),
    (Call::Look(Image::First, 0x0808_0808), Answer::Status(7)),
];

#[test]
fn an_image_is_made_patched_and_freed(rt: HostRuntime) {
    let alloc = rt.alloc();
    let mut hands = bare(alloc);
    equal(&rt, tuhvondi_image_new(alloc, &MADE, &mut hands.image), 0);
    let addrs = [0x0a02_0304, 0x0a01_0203, 0xc000_0201, 0x0808_0808];
    let mut answers = [NOTHING; 4];
    let status = tuhvondi_image_lookup(alloc, &mut hands.image, &addrs, &mut answers);
    equal(
        &rt,
        (status, answers),
        (0, [TWO, LOCAL, UNREACHABLE, NOTHING]),
    );
    make(&rt, alloc, &mut hands, &PATCHED);
}

const SHARED: [(Call, Answer); 10] = [
    (Call::New(&[TEN]), DONE),
    (Call::Share, DONE),
    (Call::Look(Image::Other, 0x0a00_0001), Answer::Row(TEN)),
    (Call::Look(Image::First, 0x0a00_0001), Answer::Row(TEN)),
    // While both hold it, it does not change.
    (Call::Apply(Image::First, 1, &[TWO]), Answer::Status(9)),
    (Call::Apply(Image::Other, 1, &[TWO]), Answer::Status(9)),
    (Call::Free(Image::First), DONE),
    (Call::Look(Image::Other, 0x0a00_0001), Answer::Row(TEN)),
    (Call::Apply(Image::Other, 1, &[TWO]), DONE),
    (Call::Look(Image::Other, 0x0a00_0001), Answer::Row(TWO)),
];

#[test]
fn two_handles_hold_an_image(rt: HostRuntime) {
    make(&rt, rt.alloc(), &mut bare(rt.alloc()), &SHARED);
}

const COPIED: [(Call, Answer); 8] = [
    (Call::Copy, Answer::Status(7)),
    (Call::New(&[TEN, ELEVEN]), DONE),
    (Call::Copy, DONE),
    (Call::Apply(Image::Other, 1, &[TWO]), DONE),
    (Call::Look(Image::First, 0x0a00_0001), Answer::Row(TEN)),
    (Call::Look(Image::Other, 0x0a00_0001), Answer::Row(TWO)),
    (Call::Look(Image::Other, 0x0b00_0001), Answer::Row(ELEVEN)),
    (Call::Apply(Image::First, 1, &[TWO]), DONE),
];

#[test]
fn a_copy_changes_alone(rt: HostRuntime) {
    make(&rt, rt.alloc(), &mut bare(rt.alloc()), &COPIED);
}

// Writes two rows from where the cursor stands: how many, the rows, and the length of the cursor.
fn list(alloc: Global, hands: &mut Hands, from: &mut Block) -> (usize, [Row; 2], u8) {
    let (mut listed, mut count) = ([NOTHING; 2], 9);
    let image = &mut hands.image;
    let _ = tuhvondi_image_rows(alloc, image, from, &mut listed, &mut count);
    (count, listed, from.len)
}

const OUT_OF_ORDER: [(Call, Answer); 2] = [
    (Call::New(&[UNREACHABLE, INSIDE, TEN]), DONE),
    (Call::Count, Answer::Number(3)),
];

// A prefix that has no row is passed over.
const GONE: [Block; 2] = [
    Block {
        addr: 0x0a01_0000,
        len: 16,
    },
    Block {
        addr: 0x0a01_0000,
        len: 17,
    },
];

const REMOVED: [(Call, Answer); 4] = [
    (Call::Remove(5, &GONE), DONE),
    (Call::Look(Image::First, 0x0a01_0203), Answer::Row(TEN)),
    (Call::Generation, Answer::Number(5)),
    (Call::Count, Answer::Number(2)),
];

#[test]
fn rows_are_listed_and_removed(rt: HostRuntime) {
    let alloc = rt.alloc();
    let mut hands = bare(alloc);
    make(&rt, alloc, &mut hands, &OUT_OF_ORDER);
    let mut from = Block { addr: 0, len: 0 };
    let first = list(alloc, &mut hands, &mut from);
    equal(&rt, (first.0, first.1), (2, [TEN, INSIDE]));
    let second = list(alloc, &mut hands, &mut from);
    equal(&rt, second, (1, [UNREACHABLE, NOTHING], 33));
    equal(&rt, list(alloc, &mut hands, &mut from).0, 0);
    make(&rt, alloc, &mut hands, &REMOVED);
    // A root, and a node each for 2, 6 and 6 depths: cells of 16 bytes, and of 8 for results.
    let mut bytes = 0;
    let status = tuhvondi_image_bytes(alloc, &mut hands.image, &mut bytes);
    equal(&rt, status == 0 && bytes >= 16 * 15 + 8 * 3, true);
}

// The third row has a fault, too, but the second comes first.
const BAD: [([Row; 3], u32); 4] = [
    ([TWO, LONG, LONG], 3),
    ([TWO, HOST_BITS, LONG], 4),
    (
        [
            TWO,
            Row {
                kind: 3,
                ..HOST_BITS
            },
            LONG,
        ],
        4,
    ),
    ([TWO, Row { kind: 3, ..TEN }, LONG], 6),
];

const HOST_BITS: Row = Row {
    addr: 0x0a00_0001,
    ..TEN
};

const EMPTY: [(Call, Answer); 5] = [
    (Call::Apply(Image::First, 1, &[]), Answer::Status(7)),
    (Call::Look(Image::First, 1), Answer::Status(7)),
    (Call::Generation, Answer::Status(7)),
    (Call::Share, Answer::Status(7)),
    (Call::New(&[DEFAULT]), DONE),
];

#[test]
fn each_fault_has_its_number(rt: HostRuntime) {
    let alloc = rt.alloc();
    let mut hands = bare(alloc);
    make(&rt, alloc, &mut hands, &EMPTY);
    for (rows, fault) in BAD {
        let found = [
            tuhvondi_image_new(alloc, &rows, &mut hands.image),
            tuhvondi_image_apply(alloc, &mut hands.image, 1, &rows),
            tuhvondi_image_apply(alloc, &mut hands.other, 1, &rows),
        ];
        equal(&rt, found, [fault; 3]);
        let found = look(alloc, &mut hands.image, 0x0a00_0001);
        assert!(&rt; found == Answer::Row(DEFAULT));
    }
    let mut answers = [NOTHING; 2];
    let status = tuhvondi_image_lookup(alloc, &mut hands.image, &[1], &mut answers);
    equal(&rt, (status, answers[0]), (8, NOTHING));
    let status = tuhvondi_image_lookup(alloc, &mut hands.image, &[], &mut []);
    equal(&rt, status, 0);
    equal(&rt, CallFault::NoMemory.number(), 20);
}

const ELEVEN_GONE: [Block; 1] = [Block {
    addr: 0x0b00_0000,
    len: 8,
}];

const NO_PREFIX: [Block; 1] = [Block { addr: 1, len: 8 }];

const HIGH_ONE: Row = Row {
    addr: 1 << 28,
    len: 4,
    ..TEN
};

const HIGH_TWO: Row = Row {
    addr: 2 << 28,
    len: 4,
    ..TEN
};

const HIGH_THREE: Row = Row {
    addr: 3 << 28,
    len: 4,
    ..TEN
};

const HIGH_FOUR: Row = Row {
    addr: 4 << 28,
    len: 4,
    ..TEN
};

const THREE: Row = Row { port: 3, ..TEN };

const FOUR: Row = Row { port: 4, ..TEN };

// Four publications, so that each copy is changed by two of them, and misses two. Then there is a fault of a row, and one
// of a prefix, and nothing is published. Handles have both readers, until one that is freed makes room.
const PUBLISHED: [(Call, Answer); 38] = [
    (Call::Open(2), Answer::Status(7)),
    (Call::New(&[TEN, ELEVEN]), DONE),
    (Call::Open(1025), Answer::Status(8)),
    (Call::Seat(1), Answer::Status(7)),
    (Call::Publish(1, &[], &[]), Answer::Status(7)),
    (Call::Read(1, 0x0a00_0001), Answer::Status(7)),
    (Call::Open(2), DONE),
    (Call::Seat(1), DONE),
    (Call::Seat(2), DONE),
    (Call::Read(1, 0x0a00_0001), Answer::Read(TEN, 0)),
    (Call::Publish(1, &[TEN, HIGH_ONE], &ELEVEN_GONE), DONE),
    (Call::Read(1, 0x0a00_0001), Answer::Read(TEN, 1)),
    (Call::Read(2, 0x0b00_0001), Answer::Read(NOTHING, 1)),
    (Call::Publish(2, &[TWO, HIGH_TWO], &ELEVEN_GONE), DONE),
    (Call::Read(1, 0x0a00_0001), Answer::Read(TWO, 2)),
    (Call::Read(2, 0x0b00_0001), Answer::Read(NOTHING, 2)),
    (Call::Publish(3, &[THREE, HIGH_THREE], &ELEVEN_GONE), DONE),
    (Call::Read(1, 0x0a00_0001), Answer::Read(THREE, 3)),
    (Call::Read(2, 0x0b00_0001), Answer::Read(NOTHING, 3)),
    (Call::Publish(4, &[FOUR, HIGH_FOUR], &ELEVEN_GONE), DONE),
    (Call::Read(1, 0x0a00_0001), Answer::Read(FOUR, 4)),
    (Call::Read(2, 0x0b00_0001), Answer::Read(NOTHING, 4)),
    (Call::Read(2, 1 << 28), Answer::Read(HIGH_ONE, 4)),
    (Call::Read(2, 2 << 28), Answer::Read(HIGH_TWO, 4)),
    (Call::Read(2, 3 << 28), Answer::Read(HIGH_THREE, 4)),
    (Call::Read(2, 4 << 28), Answer::Read(HIGH_FOUR, 4)),
    (Call::Publish(5, &[LONG], &NO_PREFIX), Answer::Status(3)),
    (Call::Publish(5, &[], &NO_PREFIX), Answer::Status(4)),
    (Call::Read(1, 0x0a00_0001), Answer::Read(FOUR, 4)),
    (Call::Seat(3), Answer::Status(8)),
    (Call::Leave(2), DONE),
    (Call::Seat(3), DONE),
    // Readers outlive their writer, and the image that it was made of is as it was.
    (Call::Close, DONE),
    (Call::Read(3, 0x0a00_0001), Answer::Read(FOUR, 4)),
    (Call::Look(Image::First, 0x0b00_0001), Answer::Row(ELEVEN)),
    (Call::Leave(1), DONE),
    (Call::Read(1, 0x0a00_0001), Answer::Status(7)),
    (Call::Read(3, 0x0b00_0001), Answer::Read(NOTHING, 4)),
];

#[test]
fn readers_see_what_is_published(rt: HostRuntime) {
    let alloc = rt.alloc();
    let mut hands = bare(alloc);
    make(&rt, alloc, &mut hands, &PUBLISHED);
    let mut generation = 99;
    let reader = &mut hands.three;
    let status = tuhvondi_reader_lookup(alloc, reader, &[1], &mut [], &mut generation);
    equal(&rt, (status, generation), (8, 99));
}

const OPENED: [(Call, Answer); 5] = [
    (Call::Published, Answer::Status(7)),
    (Call::Learn(0), Answer::Status(7)),
    (Call::New(&[DEFAULT]), DONE),
    (Call::Open(1), DONE),
    (Call::Seat(1), DONE),
];

// What a reader can learn while so many are published.
const LEARNT: [(Call, Answer); 3] = [
    (Call::Learn(u64::MAX), Answer::Status(8)),
    (Call::Learn(0), DONE),
    // A publication that is refused is none.
    (Call::Publish(9, &[LONG], &[]), Answer::Status(3)),
];

const CLOSED: [(Call, Answer); 3] = [
    (Call::Close, DONE),
    (Call::Learn(6), Answer::Status(8)),
    (Call::Learn(5), DONE),
];

// A reader learns what its writer says, and no more than that.
#[test]
fn readers_learn_what_is_published(rt: HostRuntime) {
    let alloc = rt.alloc();
    let mut hands = bare(alloc);
    make(&rt, alloc, &mut hands, &OPENED);
    for number in 1..=4u8 {
        let count = u64::from(number);
        let mut published = 77;
        let found = [
            tuhvondi_writer_published(alloc, &mut hands.writer, &mut published),
            tuhvondi_reader_learn(alloc, &mut hands.one, count),
            tuhvondi_reader_learn(alloc, &mut hands.one, count + 1),
        ];
        equal(&rt, (found, published), ([0, 0, 8], count));
        make(&rt, alloc, &mut hands, &LEARNT);
        let rows = [via(0, 0, number)];
        let found = [
            tuhvondi_writer_publish(alloc, &mut hands.writer, count, &rows, &[]),
            tuhvondi_reader_learn(alloc, &mut hands.one, count + 1),
        ];
        equal(&rt, found, [0, 0]);
        let found = read(alloc, &mut hands.one, 7);
        assert!(&rt; found == Answer::Read(rows[0], count));
    }
    make(&rt, alloc, &mut hands, &CLOSED);
}

// As many readers as a writer may have: each answers by a publication in the next look-up after it.
#[test]
fn a_thousand_readers_answer_by_the_last_publication(rt: HostRuntime) {
    let alloc = rt.alloc();
    let mut image = ImageHandle::none(alloc);
    let mut writer = WriterHandle::none(alloc);
    let mut other = ReaderHandle::none(alloc);
    let mut readers = Vec::with_capacity(alloc, 1024).expect(&rt, "memory");
    equal(
        &rt,
        tuhvondi_image_new(alloc, &[via(0, 0, 0)], &mut image),
        0,
    );
    equal(
        &rt,
        tuhvondi_writer_new(alloc, &mut image, 1024, &mut writer),
        0,
    );
    for _ in 0..1024 {
        let mut reader = ReaderHandle::none(alloc);
        equal(
            &rt,
            tuhvondi_writer_reader(alloc, &mut writer, &mut reader),
            0,
        );
        readers.push(reader).expect(&rt, "memory");
    }
    equal(
        &rt,
        tuhvondi_writer_reader(alloc, &mut writer, &mut other),
        8,
    );
    for number in 1..=4u8 {
        let generation = u64::from(number);
        let rows = [via(0, 0, number)];
        equal(
            &rt,
            tuhvondi_writer_publish(alloc, &mut writer, generation, &rows, &[]),
            0,
        );
        for reader in &mut readers {
            let found = read(alloc, reader, 7);
            assert!(&rt; found == Answer::Read(rows[0], generation));
        }
    }
    // Any one that is freed makes room for one more, which begins with what is published.
    let mut last = readers.pop().expect(&rt, "1,024 readers");
    tuhvondi_reader_free(alloc, &mut last);
    equal(
        &rt,
        tuhvondi_writer_reader(alloc, &mut writer, &mut other),
        0,
    );
    let found = read(alloc, &mut other, 7);
    assert!(&rt; found == Answer::Read(via(0, 0, 4), 4));
    equal(
        &rt,
        tuhvondi_writer_reader(alloc, &mut writer, &mut last),
        8,
    );
}
