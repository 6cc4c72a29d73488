ghost use Rattle.std.specs.Prelude.{◌≡◌, ◌+◌, take, IfOk};
ghost use Rattle.model.specs.Graphs.{block_count};
ghost use Rattle.listing.specs.Graphs.{stated};
ghost use Rattle.layout.specs.Layouts.{layout_answer, starts_left, entries_left};
ghost use Rattle.layout.specs.Refills.{Refilled};

use crate::fault::LayoutFault;
use crate::wires::{count_pairs, write_entries, write_starts};
use listing::listing_words::ListingWords;
use stores::entry::Entry;

/// Writes the layout of a listing into the two buffers, and answers how many entries it has. The starts take one place more
/// than there are blocks. A refusal leaves both buffers as they were.
pub fn layout(
    words: &[u32],
    starts: &mut [u16],
    entries: &mut [Entry],
) -> Result<usize, LayoutFault>
    ensures answer { result ≡ layout_answer words.now starts.old entries.old }
    ensures starts { starts.new ≡ starts_left words.now starts.old entries.old }
    ensures entries { entries.new ≡ entries_left words.now starts.old entries.old }
    ensures means { IfOk result (λ n. Refilled words.now (take (block_count (stated words.now) + 1) starts.new) (take n entries.new)) }
{
    let listing = ListingWords::of(words)?;
    let counts = listing.counts();
    if starts.len() < counts.blocks + 1 {
        return Err(LayoutFault::ShortStarts);
    }
    let pairs = count_pairs(&listing);
    if entries.len() < pairs {
        return Err(LayoutFault::ShortEntries);
    }
    write_starts(&listing, starts);
    write_entries(&listing, entries);
    Ok(pairs)
}
