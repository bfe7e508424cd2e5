//! What operations leave in a word.

use turns::Operation;

#[test]
fn leaves_a_word(rt: HostRuntime) {
    for (operation, found, want) in [
        (Operation::Load, 5, 5),
        (Operation::Or(0b1100), 0b1010, 0b1110),
        (Operation::And(0b1100), 0b1010, 0b1000),
        (Operation::Add(3), u64::MAX, 2),
        (Operation::Sub(3), 2, u64::MAX),
        (Operation::Sub(3), u64::MAX, u64::MAX - 3),
        (Operation::Store(7), 9, 7),
        (
            Operation::CompareExchange {
                expected: 9,
                new: 7,
            },
            9,
            7,
        ),
        (
            Operation::CompareExchange {
                expected: 9,
                new: 7,
            },
            8,
            8,
        ),
    ] {
        assert_eq!(rt; operation.apply(found), want, "{operation:?} of {found}");
    }
}
