ghost use Rattle.std.specs.Prelude.{◌≡◌, ◌+◌, true, [], ◌∷◌, length, is_ok, if◌then◌else◌};
ghost use Rattle.stores.specs.RowStores.{row_graph, pair_set, sizes_fit, starts_fit, targets_fit, fill_answer};

use crate::entry::Entry;
use crate::fault::FillFault;
use listing::counts::MOST_BLOCKS;
use model::store::Store;
use sets::Set;

/// A store of rows: for each block a label, and the entries of its row, from its start to the next row's start. All
/// are lent to it. It begins empty.
#[derive(Drop)]
pub struct RowStore<'a, L> {
    starts: &'a [u16],
    entries: &'a [Entry],
    labels: &'a [L],
    ghost sizes: { sizes_fit starts.now labels.now ≡ true },
    ghost rows: { starts_fit starts.now entries.now (length labels.now) ≡ true },
    ghost targets: { targets_fit entries.now (length labels.now) ≡ true },
}

impl<'a, L> RowStore<'a, L> {
    /// The store with no block.
    pub fn empty() -> RowStore<'a, L>
        ensures starts { result.starts.now ≡ 0 ∷ [] }
        ensures entries { result.entries.now ≡ [] }
        ensures labels { result.labels.now ≡ [] }
    {
        RowStore {
            starts: &[0],
            entries: &[],
            labels: &[],
        }
    }

    /// Gives the store its starts, entries and labels. A refused filling leaves it as it was.
    pub fn fill(
        &mut self,
        starts: &'a [u16],
        entries: &'a [Entry],
        labels: &'a [L],
    ) -> Result<(), FillFault>
        ensures answer { result ≡ fill_answer starts.now entries.now labels.now }
        ensures starts { self.new.starts.now ≡ (if is_ok result then starts.now else self.old.starts.now) }
        ensures entries { self.new.entries.now ≡ (if is_ok result then entries.now else self.old.entries.now) }
        ensures labels { self.new.labels.now ≡ (if is_ok result then labels.now else self.old.labels.now) }
    {
        let count = labels.len();
        if count > MOST_BLOCKS || starts.len() != count + 1 {
            return Err(FillFault::Sizes);
        }
        if !starts_fit(starts, entries, count) {
            return Err(FillFault::Starts);
        }
        if !targets_fit(entries, count) {
            return Err(FillFault::Target);
        }
        self.starts = starts;
        self.entries = entries;
        self.labels = labels;
        Ok(())
    }
}

// Whether starts begin at 0, never fall, and end at the number of entries.
fn starts_fit(starts: &[u16], entries: &[Entry], count: usize) -> bool
    requires { length starts.now ≡ count + 1 }
    ensures { result ≡ starts_fit starts.now entries.now count }
{
    starts[0] == 0 && usize::from(starts[count]) == entries.len() && starts.is_sorted()
}

// Whether every entry is for a block below the count.
fn targets_fit(entries: &[Entry], count: usize) -> bool
    ensures { result ≡ targets_fit entries.now count }
{
    entries.iter().all(|entry| usize::from(entry.to) < count)
}

// The union of the entries for a block.
fn entry_types(row: &[Entry], to: usize) -> Set
    ensures { result ≡ pair_set row.now to }
{
    let mut types = Set::EMPTY;
    for entry in row {
        if usize::from(entry.to) == to {
            types = types.union(entry.types);
        }
    }
    types
}

impl<'a, L: Copy> Store for RowStore<'a, L> {
    type Label = L;

    type Pair = Set;

    ghost graph = { λ s. row_graph s.starts.now s.entries.now s.labels.now };

    fn count(&self) -> usize {
        self.labels.len()
    }

    fn label(&self, block: usize) -> Option<L> {
        self.labels.get(block).copied()
    }

    fn pair(&self, from: usize, to: usize) -> Option<Set> {
        let count = self.labels.len();
        if from >= count || to >= count {
            return None;
        }
        let start = usize::from(self.starts[from]);
        let end = usize::from(self.starts[from + 1]);
        Some(entry_types(&self.entries[start..end], to))
    }
}
