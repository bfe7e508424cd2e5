//! The word of a lock, and what it says to an actor.

use turns::Judgement;
use turns::lock_word::{asked_by, freed, holder, seized_by, withdrawn_by};

#[test]
fn passes_a_lock_on(rt: HostRuntime) {
    let asked = asked_by(3, asked_by(0, 0));
    assert_eq!(rt; asked, 0b1001 << 8);
    let taken = seized_by(0, asked);
    assert_eq!(rt; taken, 0b1000 << 8 | 1);
    assert_eq!(rt; freed(taken), 0b1000 << 8);
    assert_eq!(rt; withdrawn_by(3, taken), 1);
}

#[test]
fn names_the_holder(rt: HostRuntime) {
    for (word, want) in [
        (0, None),
        (0b1001 << 8, None),
        (1, Some(0)),
        (0b1000 << 8 | 1, Some(0)),
        (1 << 55 | 48, Some(47)),
    ] {
        assert_eq!(rt; holder(word), want, "word {word}");
    }
}

#[test]
fn judges_a_word(rt: HostRuntime) {
    let both = 1 << (8 + 2) | 1 << (8 + 5);
    for (actor, word, want) in [
        (0, 0, Judgement::Free),
        (0, 3, Judgement::Held(2)),
        (2, both, Judgement::Free),
        (5, both, Judgement::Preferred(2)),
        (5, both | 48, Judgement::Held(47)),
    ] {
        assert_eq!(rt;
            Judgement::of(actor, word),
            want,
            "actor {actor}, word {word}"
        );
    }
}

#[test]
fn judges_a_plain_word(rt: HostRuntime) {
    for (word, want) in [
        (0, Judgement::Free),
        (1, Judgement::Held(0)),
        (64, Judgement::Held(63)),
        (0xffff_ffff, Judgement::Held(u32::MAX - 1)),
        (1 << 32, Judgement::Free),
    ] {
        assert_eq!(rt; Judgement::plain(word), want, "word {word}");
    }
}
