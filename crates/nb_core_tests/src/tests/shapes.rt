//! Shapes: their places, limits and chunks, those for keys, and what is refused. What of them C
//! asks for too is in `languages/c/tests/calls.c`.
use nb_core::{HeaderWord, MAX_SEATS, MAX_SLOTS, MAX_STRIPES, MOST_KEYS, Shape, ShapeFault};
use std::process::Abort;

/// The shape of these numbers, each put in by the call that is named after it.
fn made(
    exponents: &[u32],
    seats: usize,
    stripes: usize,
    reprobes: u32,
    chunk: u32,
) -> Result<Shape, ShapeFault> {
    Shape::of_tables(exponents)?
        .with_seats(seats)?
        .with_stripes(stripes)?
        .with_reprobe_limit(reprobes)?
        .with_chunk(chunk)
}

/// Where sixteen tables of four slots begin: each has three words, and two for each slot.
const SIXTEEN: [usize; 16] = [
    1, 12, 23, 34, 45, 56, 67, 78, 89, 100, 111, 122, 133, 144, 155, 166,
];

/// Each table of a plan begins at its place, and all have so many words.
fn has_places<R: Abort>(rt: &R, exponents: &[u32], bases: &[usize], words: usize) {
    let shape = Shape::with_plan(exponents, 1, 1).expect(rt, "a shape");
    let tables = shape.generations();
    assert!(rt; shape.words() == words && tables as usize == bases.len());
    for g in 0..tables {
        let place = shape.header_word_place(g, HeaderWord::Next);
        assert!(rt; place == bases[g as usize], "table {g}");
    }
}

#[test]
fn plan_places(rt: HostRuntime) {
    has_places(&rt, &[2, 2, 3], &[1, 12, 23], 42);
    has_places(&rt, &[2], &[1], 12);
    has_places(&rt, &[2, 3, 4], &[1, 12, 31], 66);
    has_places(&rt, &[2; 16], &SIXTEEN, 177);
}

/// The places in a table.
#[test]
fn places_in_a_table(rt: HostRuntime) {
    let doubling = Shape::new(2, 3, 1, 1).expect(&rt, "a shape");
    assert!(rt; doubling.generations() == 3 && doubling.size_of(1) == 8);
    assert!(rt; doubling.header_place(1, 2) == 14);
    assert!(rt; doubling.header_word_place(1, HeaderWord::Take) == 13);
    assert!(rt; doubling.header_word_place(1, HeaderWord::Done) == 14);
    assert!(rt; doubling.key_place(1, 5) == 25 && doubling.value_place(1, 5) == 26);
}

/// The words and the last place of as many slots as there may be, and how many seats and stripes.
#[test]
fn as_many_as_there_may_be(rt: HostRuntime) {
    let four = Shape::of_tables(&[28; 4]).expect(&rt, "a shape");
    assert!(rt; four.generations() == 4 && four.size_of(3) == 1 << 28);
    assert!(rt; four.words() == 1 + 3 * 4 + 2 * MAX_SLOTS);
    assert!(rt; four.value_place(3, (1 << 28) - 1) == 3 * 4 + 2 * MAX_SLOTS);
    assert!(rt; MAX_SLOTS == 1_073_741_824 && MAX_SEATS == 256 && MAX_STRIPES == 256);
}

/// Of a table: its size, its limit, its chunk, and how many chunks it is handed out in.
type Told = (usize, usize, usize, usize);

/// What is told of a table, if there is one.
fn told_of(shape: &Shape, g: u32) -> Option<Told> {
    if g >= shape.generations() {
        return None;
    }
    let (size, limit) = (shape.size_of(g), shape.limit_of(g));
    Some((size, limit, shape.chunk_of(g), shape.chunks_of(g)))
}

/// Tables with this reprobe limit and chunk, and what is told of each. What they are tuned to they
/// keep where they get other seats.
fn tells<R: Abort>(rt: &R, exponents: &[u32], reprobes: u32, chunk: u32, told: &[Told]) {
    let shape = made(exponents, 256, 255, reprobes, chunk).expect(rt, "a shape");
    assert!(rt; shape.seats() == 256 && shape.stripes() == 255);
    let tables = shape.generations();
    assert!(rt; tables as usize == told.len() && told_of(&shape, tables).is_none());
    for g in 0..tables {
        assert!(rt; told_of(&shape, g) == Some(told[g as usize]), "table {g}");
    }
    let fewer = shape.with_seats(3).expect(rt, "a shape").with_stripes(2);
    assert!(rt; fewer == made(exponents, 3, 2, reprobes, chunk));
}

/// What is told of five tables, each four times as large as the one before it; as they are, and as
/// they are tuned. The limit of the last table is its size.
const FIVE: [Told; 5] = [
    (4, 3, 4, 1),
    (16, 6, 8, 2),
    (64, 18, 8, 8),
    (256, 66, 8, 32),
    (1024, 1024, 8, 128),
];

const FIVE_TUNED: [Told; 5] = [
    (4, 3, 4, 1),
    (16, 5, 16, 1),
    (64, 5, 64, 1),
    (256, 5, 64, 4),
    (1024, 1024, 64, 16),
];

const FOUR_TUNED: [Told; 4] = [
    (16, 5, 16, 1),
    (256, 5, 64, 4),
    (4096, 5, 64, 64),
    (65536, 65536, 64, 1024),
];

#[test]
fn limits_and_chunks(rt: HostRuntime) {
    tells(&rt, &[2], u32::MAX, 8, &[(4, 4, 4, 1)]);
    tells(&rt, &[2, 3], u32::MAX, 8, &[(4, 3, 4, 1), (8, 8, 8, 1)]);
    tells(
        &rt,
        &[2, 3, 4],
        u32::MAX,
        8,
        &[(4, 3, 4, 1), (8, 4, 8, 1), (16, 16, 8, 2)],
    );
    tells(&rt, &[2, 3, 4, 5], u32::MAX, 8, &DOUBLING_FOUR);
    tells(&rt, &[2, 4, 6, 8, 10], u32::MAX, 8, &FIVE);
    tells(&rt, &[2, 4, 6, 8, 10], 5, 64, &FIVE_TUNED);
    tells(&rt, &[4, 6], 1, 8, &[(16, 1, 8, 2), (64, 64, 8, 8)]);
    tells(&rt, &[4, 8, 12, 16], 5, 64, &FOUR_TUNED);
}

const DOUBLING_FOUR: [Told; 4] = [(4, 3, 4, 1), (8, 4, 8, 1), (16, 6, 8, 2), (32, 32, 8, 4)];

/// Tables that double are the plan of these exponents.
fn doubles<R: Abort>(rt: &R, sizes: (u32, u32), seats: usize, stripes: usize, exponents: &[u32]) {
    let doubling = Shape::new(sizes.0, sizes.1, seats, stripes);
    let due = made(exponents, seats, stripes, u32::MAX, 8);
    assert!(rt; doubling == due && Shape::with_plan(exponents, seats, stripes) == due);
}

/// Shapes of tables that double, and of a plan.
#[test]
fn doubling_shapes(rt: HostRuntime) {
    doubles(&rt, (2, 1), 1, 1, &[2]);
    doubles(&rt, (2, 3), 8, 7, &[2, 3, 4]);
    doubles(&rt, (12, 8), 8, 8, &[12, 13, 14, 15, 16, 17, 18, 19]);
    let largest = Shape::new(12, 8, 8, 8).expect(&rt, "a shape");
    assert!(rt; largest.generations() == 8 && largest.words() == 2_088_985);
}

/// A plan is refused so.
fn plan_refused<R: Abort>(rt: &R, plan: &[u32], seats: usize, stripes: usize, fault: ShapeFault) {
    assert!(rt;
        Shape::with_plan(plan, seats, stripes) == Err(fault),
        "{plan:?}"
    );
}

#[test]
fn plan_refusals(rt: HostRuntime) {
    plan_refused(&rt, &[], 1, 1, ShapeFault::Generations);
    plan_refused(&rt, &[2; 17], 1, 1, ShapeFault::Generations);
    plan_refused(&rt, &[1], 1, 1, ShapeFault::Bits);
    plan_refused(&rt, &[2, 20], 1, 1, ShapeFault::Bits);
    plan_refused(&rt, &[3, 1], 1, 1, ShapeFault::Bits);
    plan_refused(&rt, &[3, 2], 1, 1, ShapeFault::Plan);
    plan_refused(&rt, &[2, 2], 0, 0, ShapeFault::Seats);
    plan_refused(&rt, &[2, 2], 1, 0, ShapeFault::Stripes);
}

/// The bits of the first table, tables, seats, stripes, and why they are refused.
const SHAPE_REFUSALS: [(u32, u32, usize, usize, ShapeFault); 7] = [
    (1, 1, 1, 1, ShapeFault::Bits),
    (13, 0, 0, 0, ShapeFault::Bits),
    (2, 0, 1, 1, ShapeFault::Generations),
    (2, 9, 1, 1, ShapeFault::Generations),
    (2, 1, 0, 1, ShapeFault::Seats),
    (2, 1, 9, 0, ShapeFault::Seats),
    (2, 1, 1, 9, ShapeFault::Stripes),
];

#[test]
fn shape_refusals(rt: HostRuntime) {
    for (bits, generations, seats, stripes, fault) in &SHAPE_REFUSALS {
        let refused = Shape::new(*bits, *generations, *seats, *stripes);
        assert!(rt; refused == Err(*fault), "{bits} bits, {generations} tables");
    }
}

/// So many keys, seats, the exponent of the first table, and how many tables there are, each 2^8
/// times as large as the one before it.
const FOR_KEYS: [(usize, usize, u32, usize); 17] = [
    (0, 1, 5, 1),
    (21, 4, 5, 1),
    (22, 4, 6, 1),
    (43, 4, 6, 1),
    (1000, 8, 11, 1),
    (1365, 8, 11, 1),
    (1366, 9, 4, 2),
    (65536, 9, 9, 2),
    (174_763, 17, 10, 2),
    (174_764, 100, 11, 2),
    (349_526, 256, 4, 3),
    (699_052, 16, 5, 3),
    (1_000_000, 17, 5, 3),
    (11_184_811, 64, 8, 3),
    (44_739_243, 128, 10, 3),
    (44_739_244, 128, 11, 3),
    (178_956_970, 256, 4, 4),
];

/// Shapes for so many keys and seats.
fn are_for_keys<R: Abort>(rt: &R, rows: &[(usize, usize, u32, usize)]) {
    for (most, seats, first, tables) in rows {
        let second = first.wrapping_add(8);
        let exponents = [
            *first,
            second,
            second.wrapping_add(8),
            second.wrapping_add(16),
        ];
        let due = made(
            &exponents[..(*tables).min(4)],
            *seats,
            (*seats).min(16),
            18,
            32,
        );
        assert!(rt;
            Shape::for_keys(*most, *seats) == due,
            "for {most} keys, {seats} seats"
        );
    }
}

/// Shapes for so many keys and seats, and why there is none.
#[test]
fn shapes_for_keys(rt: HostRuntime) {
    are_for_keys(&rt, &FOR_KEYS);
    assert!(rt; Shape::for_keys(MOST_KEYS + 1, 0) == Err(ShapeFault::Keys));
    assert!(rt; Shape::for_keys(usize::MAX, 1) == Err(ShapeFault::Keys));
    assert!(rt; Shape::for_keys(MOST_KEYS, 257) == Err(ShapeFault::Seats));
    assert!(rt; Shape::for_keys(100, 0) == Err(ShapeFault::Seats));
    assert!(rt; Shape::for_keys(100, usize::MAX) == Err(ShapeFault::Seats));
}

/// So many keys at a time and so many ever, seats, the exponent of each table, and how many tables
/// there are. Small ones, `small_shapes_for_churn`, and from ten thousand keys on large ones,
/// `large_shapes_for_churn`.
const FOR_CHURN: [(usize, usize, usize, u32, usize); 19] = [
    (0, 0, 1, 9, 1),
    (1, 341, 8, 9, 1),
    (1, 342, 8, 9, 2),
    (256, 512, 16, 9, 2),
    (256, 513, 16, 9, 3),
    (256, 2901, 17, 9, 16),
    (256, 2902, 17, 10, 6),
    (257, 683, 17, 10, 1),
    (257, 684, 17, 10, 2),
    (100, 1000, 64, 9, 4),
    (100, 1000, 256, 9, 4),
    (100, 10_000, 64, 11, 8),
    (10_000, 20_000, 1, 15, 1),
    (10_000, 1_000_000, 64, 17, 13),
    (1_000_000, 100_000_000, 64, 24, 10),
    (1 << 25, 0, 256, 26, 1),
    (1 << 25, 380_283_563, 256, 26, 16),
    (1, 715_827_873, 256, 26, 16),
    (0, 715_827_883, 256, 26, 16),
];

/// Keys at a time and ever, seats, and why there is no shape for them.
const NO_CHURN: [(usize, usize, usize, ShapeFault); 9] = [
    (0, 715_827_884, 0, ShapeFault::Keys),
    (1, 715_827_874, 0, ShapeFault::Keys),
    (1 << 25, 380_283_564, 0, ShapeFault::Keys),
    ((1 << 25) + 1, 0, 0, ShapeFault::Keys),
    (1, (1 << 30) + 1, 0, ShapeFault::Keys),
    (usize::MAX, usize::MAX, 0, ShapeFault::Keys),
    (100, 1000, 0, ShapeFault::Seats),
    (100, 1000, 257, ShapeFault::Seats),
    (100, 1000, usize::MAX, ShapeFault::Seats),
];

/// Shapes for keys that come and go.
fn are_for_churn<R: Abort>(rt: &R, rows: &[(usize, usize, usize, u32, usize)]) {
    for (live, ever, seats, exponent, tables) in rows {
        let exponents = [*exponent; 16];
        let due = made(
            &exponents[..(*tables).min(16)],
            *seats,
            (*seats).min(16),
            u32::MAX,
            64,
        );
        assert!(rt;
            Shape::for_churn(*live, *ever, *seats) == due,
            "for {live} of {ever} keys"
        );
    }
}

/// Shapes for keys that come and go, and why there is none.
#[test]
fn shapes_for_churn(rt: HostRuntime) {
    are_for_churn(&rt, &FOR_CHURN);
    for (live, ever, seats, fault) in &NO_CHURN {
        let refused = Shape::for_churn(*live, *ever, *seats);
        assert!(rt; refused == Err(*fault), "for {live} of {ever} keys");
    }
}
