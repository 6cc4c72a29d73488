// The words of a file's bytes, and what a file is found to be.
use crate::tests::checks::{FORK, listing_of, told};
use listing::fault::Fault;
use listing::file::{FILE_WORDS, check_file, read_words};
use refusal::Place;
use std::alloc::{AllocError, Global};
use std::test::Fail;

// The bytes of words, four each, the highest first.
pub fn bytes_of(heap: Global, words: &[u32]) -> Result<Vec<u8>, AllocError> {
    let mut bytes = Vec::new(heap);
    for word in words {
        bytes.extend_from_slice(&word.to_be_bytes())?;
    }
    Ok(bytes)
}

// How many zero bytes a file has, and the number and place that it is refused with.
const ZEROES: [(usize, usize, usize); 12] = [
    (0, 10, 0),
    (1, 17, 0),
    (3, 17, 0),
    (4, 10, 0),
    (5, 17, 1),
    (4871, 17, 1217),
    (4872, 11, 0),
    (4873, 17, 1218),
    (4875, 17, 1218),
    (4876, 10, 0),
    (4877, 10, 0),
    (9000, 10, 0),
];

#[test]
fn lengths(rt: HostRuntime) -> Result<(), Fail> {
    for (length, number, place) in ZEROES {
        let bytes = vec![in rt.alloc(); 0u8; length]?;
        let mut memory = [7; FILE_WORDS];
        assert_eq!(rt; told(check_file(&bytes, &mut memory)), (number, place));
    }
    Ok(())
}

#[test]
fn words_stand_in_the_memory(rt: HostRuntime) -> Result<(), Fail> {
    let bytes = bytes_of(rt.alloc(), &FORK)?;
    let mut memory = [7; FILE_WORDS];
    assert_eq!(rt; read_words(&bytes, &mut memory), Ok(7));
    assert_eq!(rt; &memory[0..7], &FORK[0..7]);
    assert_eq!(rt; memory[7], 7);
    assert_eq!(rt; memory[1218], 7);
    Ok(())
}

#[test]
fn a_refusal_leaves_the_memory(rt: HostRuntime) -> Result<(), Fail> {
    let mut bytes = bytes_of(rt.alloc(), &FORK)?;
    bytes.push(0)?;
    let mut memory = [7; FILE_WORDS];
    assert_eq!(rt;
        read_words(&bytes, &mut memory),
        Err(Fault::PartialWord(Place(7)))
    );
    assert_eq!(rt; memory[0], 7);
    Ok(())
}

#[test]
fn the_longest_file(rt: HostRuntime) -> Result<(), Fail> {
    let words = listing_of(rt.alloc(), 192, 1024)?;
    let mut bytes = bytes_of(rt.alloc(), &words)?;
    assert_eq!(rt; bytes.len(), 4872);
    let mut memory = [0; FILE_WORDS];
    assert_eq!(rt; told(check_file(&bytes, &mut memory)), (0, 0));
    bytes.extend_from_slice(&[0, 0, 0, 0, 0])?;
    assert_eq!(rt; told(check_file(&bytes, &mut memory)), (10, 0));
    Ok(())
}
