ghost use Rattle.std.specs.Prelude.{◌≡◌, ◌≤◌, IfOk};
ghost use Rattle.listing.specs.Files.{read_answer, read_left, file_verdict};

use crate::check::check;
use crate::counts::{Counts, MOST_WORDS};
use crate::fault::Fault;
use refusal::Place;

/// How many words of a file are read at most: one more than the longest listing has.
pub const FILE_WORDS: usize = MOST_WORDS + 1;

/// How many bytes these are.
pub const FILE_BYTES: usize = 4 * FILE_WORDS;

/// Reads the words of a file's bytes into the memory, and answers how many they are.
/// Bytes that end within a word are refused, and the memory is then left as it was.
pub fn read_words(bytes: &[u8], memory: &mut [u32; FILE_WORDS]) -> Result<usize, Fault>
    ensures answer { result ≡ read_answer bytes.now }
    ensures left { memory.new ≡ read_left bytes.now memory.old }
    ensures within { IfOk result (λ n. n ≤ 1219) }
{
    let taken = &bytes[..bytes.len().min(FILE_BYTES)];
    let (words, rest) = taken.as_chunks::<4>();
    if !rest.is_empty() {
        return Err(Fault::PartialWord(Place(words.len())));
    }
    for (place, word) in words.iter().enumerate() {
        memory[place] = u32::from_be_bytes(*word);
    }
    Ok(words.len())
}

/// Whether a file's bytes hold a listing: its two counts, or its first fault. Its words are then in the memory.
pub fn check_file(bytes: &[u8], memory: &mut [u32; FILE_WORDS]) -> Result<Counts, Fault>
    ensures answer { result ≡ file_verdict bytes.now }
    ensures left { memory.new ≡ read_left bytes.now memory.old }
{
    let words = read_words(bytes, memory)?;
    check(&memory[..words])
}
