use spectro_energy::{Energy, Update};

const STEP: Energy = Energy {
    parts: [1, 1, 0, 0, 0, 0, 0],
};

const POSITIVE_STEP: Energy = Energy {
    parts: [1, 1, 0, 1, 0, 0, 0],
};

// worked by hand from the table of updates
#[test]
fn raises_and_lowers_the_parts_of_the_table(rt: HostRuntime) {
    assert_eq!(rt; STEP.inverse(Update::Deepest).parts, [1, 1, 1, 0, 0, 0, 0]);
    assert_eq!(rt; STEP.inverse(Update::Positive).parts, [1, 1, 0, 1, 0, 0, 0]);
    assert_eq!(rt; STEP.inverse(Update::Negative).parts, [1, 1, 0, 0, 1, 1, 0]);
    assert_eq!(rt; STEP.inverse(Update::Conjoin).parts, [1, 2, 0, 0, 0, 0, 0]);
    assert_eq!(rt;
        POSITIVE_STEP.inverse(Update::Other).parts,
        [1, 1, 1, 1, 0, 0, 0]
    );
    let deep = Energy {
        parts: [3, 2, 1, 0, 0, 0, 0],
    };
    let lowered = Energy {
        parts: [1, 2, 1, 0, 0, 0, 0],
    };
    assert_eq!(rt; deep.apply(Update::Deepest), Some(lowered));
    let no_negation_left = Energy {
        parts: [2, 1, 0, 0, 1, 0, 0],
    };
    assert_eq!(rt; no_negation_left.apply(Update::Negative), None);
}
