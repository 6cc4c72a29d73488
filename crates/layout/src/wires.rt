ghost use Rattle.std.specs.Prelude.{◌≡◌, ◌+◌, ◌-◌, ◌<◌, ◌≤◌, not, ◌||◌, length, slice_index, ◌==◌, ◌/◌, ◌^◌};
ghost use Rattle.listing.specs.Graphs.{stated};
ghost use Rattle.layout.specs.Layouts.{start_of, starts_of, entries_of, laid};
ghost use Rattle.layout.specs.Passes.{Below};

use crate::passed::Passed;
use listing::listing_words::ListingWords;
use listing::word::Word;
use sets::Set;
use stores::entry::Entry;

// Whether a wire runs between other blocks than the one before it, if there is one.
fn opens(wires: &[u32], wire: usize) -> bool
    requires { wire < length wires.now }
    ensures { result ≡ (wire == 0 || not (slice_index wires.now (wire - 1) / 2 ^ 14 == slice_index wires.now wire / 2 ^ 14)) }
{
    wire == 0 || wires[wire - 1] >> 14 != wires[wire] >> 14
}

// Passes the wires that run from the blocks below a row, and counts the pairs that they wire.
fn pass(listing: &ListingWords, passed: Passed, row: usize) -> Passed
    requires row { row ≤ listing.now.counts.blocks }
    requires below { Below listing.now.words.now row passed }
    ensures below { Below listing.now.words.now row result }
    ensures start { result.pairs ≡ start_of (stated listing.now.words.now) row }
{
    let wires = listing.wire_words();
    let mut pairs = passed.pairs;
    for wire in passed.wires..wires.len() {
        if Word(wires[wire]).from() >= row {
            return Passed { wires: wire, pairs };
        }
        if opens(wires, wire) {
            pairs += 1;
        }
    }
    Passed {
        wires: wires.len(),
        pairs,
    }
}

/// How many pairs the wires of a listing wire.
pub(crate) fn count_pairs(listing: &ListingWords) -> usize
    ensures { result ≡ length (entries_of (stated listing.now.words.now)) }
{
    pass(listing, Passed::NONE, listing.counts().blocks).pairs
}

/// Writes the row starts: as the pass reaches a row, it has counted the entries before it.
pub(crate) fn write_starts(listing: &ListingWords, starts: &mut [u16])
    requires { listing.now.counts.blocks + 1 ≤ length starts.old }
    ensures { starts.new ≡ laid (starts_of (stated listing.now.words.now)) starts.old }
{
    let mut passed = Passed::NONE;
    for row in 0..listing.counts().blocks + 1 {
        passed = pass(listing, passed, row);
        starts[row] = passed.pairs as u16;
    }
}

/// Writes the entries: a wire that opens a pair begins an entry, and any other adds its type to the last one.
pub(crate) fn write_entries(listing: &ListingWords, entries: &mut [Entry])
    requires { length (entries_of (stated listing.now.words.now)) ≤ length entries.old }
    ensures { entries.new ≡ laid (entries_of (stated listing.now.words.now)) entries.old }
{
    let wires = listing.wire_words();
    let mut written = 0;
    for (index, word) in wires.iter().enumerate() {
        let wire = Word(*word);
        if opens(wires, index) {
            entries[written] = Entry {
                to: wire.to() as u16,
                types: Set::EMPTY.with(wire.wire_type()),
            };
            written += 1;
        } else {
            let last = &mut entries[written - 1];
            last.types = last.types.with(wire.wire_type());
        }
    }
}
