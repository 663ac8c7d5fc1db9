// The search by any test. What comes out is proved; that it takes a test that may answer in two ways shows only where one is handed over.
use crate::first_where;

// Its contract says nothing, so that it may answer either way at each number.
fn is_late(k: usize, late: usize) -> bool {
    late <= k
}

#[test]
fn finds_by_a_test_of_two_answers(rt: HostRuntime) {
    for (n, late, found) in [
        (0, 0, 0),
        (5, 3, 3),
        (5, 0, 0),
        (5, 4, 4),
        (5, 5, 5),
        (5, 9, 5),
    ] {
        assert_eq!(rt;
            first_where(n, |k| is_late(k, late)),
            found,
            "of {n}, late from {late}"
        );
    }
}
