use spectro_energy::Energy;
use spectro_notions::{Bound, NOTION_COUNT, Notions, bound, by_name, name, within};
use std::process::Abort;

// The number, the name and the parts of the bound of each notion.
const ROWS: [(u32, &str, [Option<u32>; 6]); 13] = [
    (
        0,
        "enabledness",
        [Some(1), Some(1), Some(0), Some(0), Some(0), Some(0)],
    ),
    (
        1,
        "traces",
        [None, Some(1), Some(0), Some(0), Some(0), Some(0)],
    ),
    (
        2,
        "failures",
        [None, Some(2), Some(0), Some(0), Some(1), Some(1)],
    ),
    (
        3,
        "revivals",
        [None, Some(2), Some(1), Some(0), Some(1), Some(1)],
    ),
    (
        4,
        "readiness",
        [None, Some(2), Some(1), Some(1), Some(1), Some(1)],
    ),
    (
        5,
        "failure-traces",
        [None, None, None, Some(0), Some(1), Some(1)],
    ),
    (
        6,
        "ready-traces",
        [None, None, None, Some(1), Some(1), Some(1)],
    ),
    (
        7,
        "impossible-futures",
        [None, Some(2), Some(0), Some(0), None, Some(1)],
    ),
    (
        8,
        "possible-futures",
        [None, Some(2), None, None, None, Some(1)],
    ),
    (9, "simulation", [None, None, None, None, Some(0), Some(0)]),
    (
        10,
        "ready-simulation",
        [None, None, None, None, Some(1), Some(1)],
    ),
    (
        11,
        "two-nested-simulation",
        [None, None, None, None, None, Some(1)],
    ),
    (12, "bisimulation", [None, None, None, None, None, None]),
];

// Words that are no names.
const OTHERS: [&str; 5] = ["", "trace", "traces ", "Traces", "ready"];

// Two notions, and whether the first is below the second.
const BELOW: [(u32, u32, bool); 8] = [
    (0, 1, true),
    (1, 0, false),
    (2, 3, true),
    (3, 7, false),
    (4, 5, false),
    (5, 6, true),
    (8, 9, false),
    (12, 12, true),
];

// A notion, the parts of an energy, and whether it is within the notion's bound.
const WITHIN: [(u32, [u32; 7], bool); 6] = [
    (0, [1, 1, 0, 0, 0, 0, 255], true),
    (0, [2, 1, 0, 0, 0, 0, 0], false),
    (1, [9, 1, 0, 0, 0, 0, 9], true),
    (1, [9, 2, 0, 0, 0, 0, 9], false),
    (3, [9, 2, 1, 1, 1, 1, 9], false),
    (11, [9, 9, 9, 9, 9, 2, 9], false),
];

// The notions are those of the rows.
pub(crate) fn assert_notions(
    rt: &impl Abort,
    notions: &Notions,
    rows: &[(u32, &str, [Option<u32>; 6])],
) {
    assert_eq!(rt; notions.count() as usize, rows.len());
    for (k, row_name, parts) in rows {
        assert!(rt; *k < notions.count());
        assert_eq!(rt; notions.name(*k), *row_name);
        assert_eq!(rt; notions.bound(*k), Bound { parts: *parts }, "{row_name}");
    }
}

// Each row is found by its number and by its name.
fn assert_spectrum(rt: &impl Abort, rows: &[(u32, &str, [Option<u32>; 6])]) {
    for (k, row_name, parts) in rows {
        assert!(rt; *k < NOTION_COUNT);
        assert_eq!(rt; name(*k), *row_name);
        assert_eq!(rt; bound(*k), Bound { parts: *parts }, "{row_name}");
        assert_eq!(rt; by_name(row_name), Some(*k));
    }
}

#[test]
fn has_the_thirteen_in_order(rt: HostRuntime) {
    assert_eq!(rt; NOTION_COUNT as usize, ROWS.len());
    assert_spectrum(&rt, &ROWS);
    assert_notions(&rt, &Notions::builtin(rt.alloc()), &ROWS);
}

#[test]
fn finds_no_word_that_is_no_name(rt: HostRuntime) {
    for word in OTHERS {
        assert_eq!(rt; by_name(word), None, "{word}");
    }
}

#[test]
fn compares_each_part_of_two_bounds(rt: HostRuntime) {
    let notions = Notions::builtin(rt.alloc());
    for (i, j, below) in BELOW {
        assert!(rt; i < notions.count() && j < notions.count());
        assert_eq!(rt; notions.below(i, j), below, "{i} {j}");
    }
}

#[test]
fn tells_prices_within_a_bound(rt: HostRuntime) {
    for (k, parts, expected) in WITHIN {
        assert!(rt; k < NOTION_COUNT);
        assert_eq!(rt;
            within(Energy { parts }, bound(k)),
            expected,
            "{k} {parts:?}"
        );
    }
}
