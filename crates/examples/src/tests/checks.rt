// The check: each refusal at its edges on both sides.
use listing::check::check as check_words;
use listing::counts::Counts;
use listing::fault::Fault;
use refusal::{Place, Refusal};
use std::alloc::{AllocError, Global};
use std::test::Fail;

// Three blocks, and wires from the first to each of the others.
pub const FORK: [u32; 7] = [
    0x00020003, 0x40000001, 0x40000001, 0x40000001, 0x80004000, 0x80008000, 0xC0000006,
];

// A listing of so many blocks, each with tag 0, and so many wires: types first, then ends.
pub fn listing_of(heap: Global, blocks: u32, wires: u32) -> Result<Vec<u32>, AllocError> {
    let mut words = Vec::new(heap);
    words.push((wires << 16) | blocks)?;
    for _ in 0..blocks {
        words.push(0x40000001)?;
    }
    for e in 0..wires {
        let from = e / 32 / blocks.max(1);
        let to = e / 32 % blocks.max(1);
        words.push(0x80000000 | (from << 22) | (to << 14) | (e % 32))?;
    }
    words.push(0xC0000000 | (blocks.wrapping_add(wires).wrapping_add(1)))?;
    Ok(words)
}

// The number and the place of a refusal; 0 at 0 for an acceptance.
pub fn told(answer: Result<Counts, Fault>) -> (usize, usize) {
    match answer {
        Ok(_) => (0, 0),
        Err(fault) => {
            let refusal = Refusal::from(fault);
            (refusal.number.0, refusal.place.unwrap_or(Place(0)).0)
        }
    }
}

#[test]
fn accepts_and_counts(rt: HostRuntime) -> Result<(), Fail> {
    let counts = check_words(&FORK).ok().ok_or("refused")?;
    assert_eq!(rt;
        counts,
        Counts {
            blocks: 3,
            wires: 2,
        }
    );
    Ok(())
}

// How many blocks and wires an opening word says, and what the listing of so many is.
const SIZES: [(u32, u32, usize); 12] = [
    (1, 0, 0),
    (192, 1024, 0),
    (192, 0, 0),
    (1, 32, 0),
    (0, 0, 10),
    (0, 1, 11),
    (193, 0, 11),
    (193, 1023, 11),
    (192, 1025, 10),
    (2, 1024, 14),
    (8, 1025, 11),
    (1, 33, 14),
];

#[test]
fn sizes(rt: HostRuntime) -> Result<(), Fail> {
    for (blocks, wires, number) in SIZES {
        let words = listing_of(rt.alloc(), blocks, wires)?;
        assert_eq!(rt; told(check_words(&words)).0, number);
    }
    Ok(())
}

// One word of the fork changed: the place, the word put there, and the number and place of the first fault.
const CHANGES: [(usize, u32, usize, usize); 42] = [
    (0, 0x40020003, 11, 0),
    (0, 0x80020003, 11, 0),
    (0, 0x00020002, 12, 0),
    (0, 0x00020004, 12, 0),
    (0, 0x00010003, 12, 0),
    (1, 0x40000000, 13, 1),
    (1, 0x41000001, 13, 1),
    (1, 0x42000001, 13, 1),
    (1, 0x44000001, 13, 1),
    (1, 0x48000001, 13, 1),
    (1, 0x50000001, 13, 1),
    (1, 0x60000001, 13, 1),
    (1, 0x80000001, 13, 1),
    (1, 0xC0000001, 13, 1),
    (1, 0x00000001, 13, 1),
    (1, 0x40FFFFFF, 0, 0),
    (1, 0x40800000, 0, 0),
    (3, 0x40000000, 13, 3),
    (4, 0x80004020, 14, 4),
    (4, 0x80004040, 14, 4),
    (4, 0x80004080, 14, 4),
    (4, 0x80004100, 14, 4),
    (4, 0x80004200, 14, 4),
    (4, 0x80004400, 14, 4),
    (4, 0x80004800, 14, 4),
    (4, 0x80005000, 14, 4),
    (4, 0x80006000, 14, 4),
    (4, 0x40004000, 14, 4),
    (4, 0xC0004000, 14, 4),
    (4, 0x8000C000, 14, 4),
    (4, 0x80C00000, 14, 4),
    (5, 0x8080801F, 0, 0),
    (4, 0x80000000, 0, 0),
    (4, 0x8000801F, 15, 5),
    (4, 0x80008000, 15, 5),
    (5, 0x80004000, 15, 5),
    (5, 0x80000000, 15, 5),
    (5, 0x8000C000, 14, 5),
    (6, 0xC0000005, 16, 6),
    (6, 0xC0000007, 16, 6),
    (6, 0x80000006, 16, 6),
    (6, 0xC1000006, 16, 6),
];

#[test]
fn one_word_changed(rt: HostRuntime) {
    for (at, word, number, place) in CHANGES {
        let mut words = FORK;
        assert!(rt; at < 7);
        words[at] = word;
        assert_eq!(rt; told(check_words(&words)), (number, place));
    }
}

// Two words of the fork changed: where several faults fit, the first place wins, and at one word the lowest number.
const TWO_CHANGES: [(usize, u32, usize, u32, usize, usize); 5] = [
    (2, 0x40000000, 4, 0x00000000, 13, 2),
    (3, 0x40000000, 6, 0xC0000000, 13, 3),
    (4, 0x80008000, 6, 0xC0000000, 15, 5),
    (0, 0x40020003, 1, 0x00000000, 11, 0),
    (4, 0x8040C000, 5, 0x80000000, 14, 4),
];

#[test]
fn two_words_changed(rt: HostRuntime) {
    for (at, word, other, put, number, place) in TWO_CHANGES {
        let mut words = FORK;
        assert!(rt; at < 7 && other < 7);
        words[at] = word;
        words[other] = put;
        assert_eq!(rt; told(check_words(&words)), (number, place));
    }
}

#[test]
fn word_counts(rt: HostRuntime) -> Result<(), Fail> {
    let mut words = Vec::new(rt.alloc());
    for length in 0..4usize {
        assert_eq!(rt;
            told(check_words(&words)),
            (if length < 3 { 10 } else { 11 }, 0)
        );
        words.push(0x40000001)?;
    }
    let mut longest = listing_of(rt.alloc(), 192, 1024)?;
    assert_eq!(rt; longest.len(), 1218);
    assert_eq!(rt; told(check_words(&longest)), (0, 0));
    longest.push(0)?;
    assert_eq!(rt; told(check_words(&longest)), (10, 0));
    Ok(())
}
