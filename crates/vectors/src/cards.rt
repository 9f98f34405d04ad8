// Cards with each fault at several places, and cards that are accepted.
use crate::told::{number_and_place, refusal_of};
use card::Card;
use layout::fault::CardFault;
use std::alloc::{AllocError, Global};
use std::process::Abort;
use std::test::Fail;
use task::refusal::Layer;
use task::source::TaskSource;

// Two variables of 2 and 3 values, three operators and nine records.
pub const WORDS: [u16; 42] = [
    1, 2, 3, 9, 2, 3, 0, 0, 1, 2, 3, 4, 6, 7, 9, 1, 2, 0, 0, 0, 0, 0, 1, 0, 0, 0, 5, 1, 0, 0, 1, 1,
    0, 0, 1, 8, 1, 1, 0, 1, 2, 0,
];

// The words with two of them changed: (index, word) and (index, word), and the number and place of the fault.
const CHANGED: [(usize, u16, usize, u16, u16, usize); 30] = [
    (0, 2, 0, 2, 2, 0),
    (0, 0, 1, 0, 2, 0),
    (1, 0, 2, 1025, 3, 1),
    (1, 33, 3, 8193, 3, 1),
    (2, 1025, 3, 8193, 3, 2),
    (3, 8193, 4, 0, 3, 3),
    (1, 3, 4, 0, 4, 42),
    (2, 2, 5, 65, 4, 42),
    (3, 8, 8, 9, 4, 42),
    (4, 0, 5, 0, 5, 4),
    (4, 65, 6, 9, 5, 4),
    (5, 65, 7, 65, 5, 5),
    (6, 2, 7, 3, 6, 6),
    (7, 3, 8, 10, 6, 7),
    (8, 10, 41, 10, 7, 8),
    (9, 10, 15, 2, 7, 9),
    (14, 10, 17, 10, 7, 14),
    (17, 10, 41, 10, 7, 17),
    (41, 10, 16, 3, 7, 41),
    (15, 2, 16, 3, 8, 15),
    (16, 3, 18, 2, 8, 16),
    (19, 2, 26, 4, 8, 19),
    (4, 1, 26, 4, 8, 22),
    (40, 3, 26, 4, 8, 40),
    (24, 1, 24, 1, 9, 26),
    (26, 4, 35, 2, 9, 26),
    (35, 2, 35, 2, 9, 35),
    (17, 2, 17, 2, 9, 17),
    (41, 9, 41, 9, 9, 41),
    (29, 4, 41, 9, 9, 29),
];

fn read(words: &[u16]) -> Result<(), CardFault> {
    let mut card = Card::new();
    card.read(words)
}

#[test]
fn each_fault_has_its_number_and_place(rt: HostRuntime) -> Result<(), Fail> {
    for (i, x, j, y, number, place) in CHANGED {
        let mut words = WORDS.to_vec(rt.alloc())?;
        assert!(rt; i < words.len() && j < words.len());
        words[i] = x;
        words[j] = y;
        let refusal = refusal_of(read(words.as_slice()))?;
        assert_eq!(rt;
            (refusal.number, refusal.place.0, refusal.place.1),
            (number, place, 0)
        );
        assert!(rt; refusal.layer == Layer::Card);
    }
    Ok(())
}

#[test]
fn other_lengths_are_declined(rt: HostRuntime) -> Result<(), Fail> {
    let mut words = WORDS.to_vec(rt.alloc())?;
    words.push(0)?;
    for (count, number) in [(0, 1), (1, 1), (3, 1), (4, 4), (41, 4), (43, 4)] {
        let given = words
            .iter()
            .take(count)
            .copied()
            .collect::<Vec<u16>>(rt.alloc())?;
        assert_eq!(rt; number_and_place(read(given.as_slice()))?, (number, count));
    }
    Ok(())
}

#[test]
fn a_declined_card_stays(rt: HostRuntime) {
    let mut card = Card::new();
    assert!(rt; card.read(&WORDS).is_ok());
    assert!(rt; card.read(&[1, 0, 0, 0]).is_err());
    assert_eq!(rt; card.operators(), 3);
    assert_eq!(rt;
        (card.needed(1, 0), card.needed(1, 1), card.made(1, 1)),
        (Some(0), Some(0), Some(1))
    );
}

#[test]
fn chains_may_be_empty_or_share_records(rt: HostRuntime) {
    // one variable, three operators; record 2 is unused, and the goal shares record 1 with operator 1
    let words = [1, 1, 3, 2, 4, 3, 1, 0, 1, 1, 0, 0, 0, 0, 2, 0, 0, 3, 0];
    let mut card = Card::new();
    assert!(rt; card.read(&words).is_ok());
    assert_eq!(rt;
        (card.goal(0), card.needed(1, 0), card.made(0, 0)),
        (Some(2), Some(2), Some(2))
    );
    assert_eq!(rt;
        (card.needed(0, 0), card.made(1, 0), card.made(2, 0)),
        (None, None, None)
    );
    assert_eq!(rt;
        (card.goal(1), card.size(1), card.start(1)),
        (None, None, None)
    );
    assert_eq!(rt;
        (card.size(0), card.start(0), card.needed(3, 0)),
        (Some(4), Some(3), None)
    );
}

// 32 variables of 64 values, 1,024 operators and 8,192 records, in chains that have each variable.
fn largest(heap: Global) -> Result<Vec<u16>, AllocError> {
    let mut words = [1, 32, 1024, 8192].to_vec(heap)?;
    for _ in 0..32 {
        words.push(64)?;
    }
    for _ in 0..33 {
        words.push(63)?;
    }
    for o in 0u16..1024 {
        words.push(1 + 32 * (o % 256))?;
        words.push(32 + 32 * (o % 256))?;
    }
    for k in 1u16..8193 {
        words.push((k - 1) % 32)?;
        words.push(k % 64)?;
        words.push(if k % 32 == 0 { 0 } else { k + 1 })?;
    }
    Ok(words)
}

fn check_largest(rt: &impl Abort, words: &[u16]) {
    let mut card = Card::new();
    assert!(rt; card.read(words).is_ok());
    assert_eq!(rt; (card.variables(), card.operators()), (32, 1024));
    assert_eq!(rt;
        (card.needed(1023, 0), card.needed(1023, 31)),
        (Some(33), Some(0))
    );
    assert_eq!(rt; (card.made(1023, 30), card.made(1023, 31)), (None, Some(0)));
    assert_eq!(rt; (card.goal(30), card.goal(31)), (Some(63), Some(0)));
}

#[test]
fn the_largest_card_is_read(rt: HostRuntime) -> Result<(), Fail> {
    let words = largest(rt.alloc())?;
    assert_eq!(rt; words.len(), 26_693);
    check_largest(&rt, words.as_slice());
    Ok(())
}
