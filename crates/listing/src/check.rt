ghost use Rattle.std.specs.Prelude.{◌≡◌};
ghost use Rattle.std.specs.List.{find};
ghost use Rattle.listing.specs.Listings.{counts_of};
ghost use Rattle.listing.specs.Faults.{fits, opening_faults, Inside, faults_at, answered};
ghost use Rattle.listing.specs.Checks.{Checked};

use crate::counts::{Counts, FEWEST_WORDS, MOST_WORDS};
use crate::fault::Fault;
use crate::word::Word;
use refusal::Place;

// The faults at place 0: of the number of words, and of the opening word.
fn check_opening(words: &[u32]) -> Result<Counts, Fault>
    ensures { result ≡ answered (counts_of words.now) (find (fits words.now) opening_faults) }
{
    if !(FEWEST_WORDS..=MOST_WORDS).contains(&words.len()) {
        return Err(Fault::WordCount);
    }
    let opening = Word(words[0]);
    if !opening.is_opening() {
        return Err(Fault::Opening);
    }
    let counts = opening.counts();
    if words.len() != counts.blocks + counts.wires + 2 {
        return Err(Fault::Total);
    }
    Ok(counts)
}

// The fault of the word at a place after the first: the one with the lowest number, if it has one.
fn fault_at(words: &[u32], counts: Counts, place: usize) -> Option<Fault>
    requires inside { Inside words.now counts place }
    ensures { result ≡ find (fits words.now) (faults_at place) }
{
    let word = Word(words[place]);
    let at = Place(place);
    if place <= counts.blocks {
        (!word.is_block()).then_some(Fault::Block(at))
    } else if place > counts.blocks + counts.wires {
        (!word.is_closing(place)).then_some(Fault::Closing(at))
    } else if !word.is_wire(counts.blocks) {
        Some(Fault::Wire(at))
    } else {
        let rises = place == counts.blocks + 1 || words[place - 1] < words[place];
        (!rises).then_some(Fault::Rise(at))
    }
}

/// Whether words are a listing: its two counts, or its first fault.
pub fn check(words: &[u32]) -> Result<Counts, Fault>
    ensures { Checked words.now result }
{
    let counts = check_opening(words)?;
    let mut place = 1;
    let bad = 'places: loop {
        if place == words.len() {
            return Ok(counts);
        }
        if fault_at(words, counts, place).is_some() {
            break 'places place;
        }
        place += 1;
    };
    Err(fault_at(words, counts, bad).unwrap())
}
