//! The words of the slots' banks.

use slots::Effect;
use slots::bank::lowest_free;

#[test]
fn finds_the_lowest_free_slot(rt: HostRuntime) {
    for (bank, word, want) in [
        (0, 0, Some(0)),
        (0, 0b0101, Some(1)),
        (0, 0x7fff_ffff, Some(31)),
        (0, 0xffff_ffff, None),
        (1, 0, Some(32)),
        (1, 0b0111, Some(35)),
        (1, 0x7fff_ffff, Some(63)),
        (1, 0xffff_ffff, None),
    ] {
        assert_eq!(rt; lowest_free(bank, word), want, "bank {bank}, word {word}");
    }
}

#[test]
fn changes_one_bit(rt: HostRuntime) {
    for (effect, found, want) in [
        (Effect::Mark(0), 0b0000, 0b0001),
        (Effect::Mark(31), 0b0001, 0x8000_0001),
        (Effect::Mark(33), 0b0001, 0b0011),
        (Effect::Clear(33), 0b0011, 0b0001),
        (Effect::Clear(63), 0xffff_ffff, 0x7fff_ffff),
        (Effect::Clear(35), 0b0111, 0b0111),
    ] {
        assert_eq!(rt; effect.operation().apply(found), want, "word {found}");
    }
}
