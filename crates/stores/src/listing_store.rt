ghost use Rattle.std.specs.Prelude.{◌≡◌, ◌≤◌, [], ◌++◌, length, drop, is_ok, IfOk, if◌then◌else◌};
ghost use Rattle.model.specs.Graphs.{block_count};
ghost use Rattle.stores.specs.ListingStores.{words_in, fault_part, read_answer, gathered};
ghost use Rattle.listing.specs.Graphs.{stated};
ghost use Rattle.listing.specs.Listings.{block_words, wire_words};

use listing::counts::MOST_BLOCKS;
use listing::fault::Fault;
use listing::listing_words::ListingWords;
use listing::word::Word;
use model::store::Store;
use sets::Set;

/// A store over the words of a listing, which are lent to it, or an empty one.
#[derive(Clone, Copy)]
pub struct ListingStore<'a> {
    listing: Option<ListingWords<'a>>,
}

impl<'a> ListingStore<'a> {
    /// The store with no block.
    pub fn empty() -> ListingStore<'a>
        ensures { words_in result ≡ [] }
    {
        ListingStore { listing: None }
    }

    /// The store of a listing's words. Words that are no listing are refused as the check refuses them.
    pub fn of(words: &'a [u32]) -> Result<ListingStore<'a>, Fault>
        ensures answer { fault_part result ≡ read_answer words.now }
        ensures holds { IfOk result (λ s. words_in s ≡ words.now) }
    {
        let listing = ListingWords::of(words)?;
        Ok(ListingStore {
            listing: Some(listing),
        })
    }

    /// Makes it the store of a listing's words. Words that are no listing are refused as the check refuses them, and the
    /// store is then left as it was.
    pub fn read(&mut self, words: &'a [u32]) -> Result<(), Fault>
        ensures answer { result ≡ read_answer words.now }
        ensures left { words_in self.new ≡ (if is_ok result then words.now else words_in self.old) }
    {
        *self = ListingStore::of(words)?;
        Ok(())
    }

    /// Writes the label of each block into a memory of labels, in block order, and answers how many they are.
    pub fn write_labels(&self, memory: &mut [Set; MOST_BLOCKS]) -> usize
        ensures answer { result ≡ block_count (stated (words_in self.now)) }
        ensures left { memory.new ≡ (stated (words_in self.now)).labels ++ drop (block_count (stated (words_in self.now))) memory.old }
        ensures within { result ≤ 192 }
    {
        let words = self.block_words();
        for (block, word) in words.iter().enumerate() {
            memory[block] = Word(*word).tags();
        }
        words.len()
    }

    // The words of the blocks, in block order.
    fn block_words(&self) -> &'a [u32]
        ensures value { result.now ≡ block_words (words_in self.now) }
        ensures few { length result.now ≤ 192 }
    {
        match &self.listing {
            Some(listing) => listing.block_words(),
            None => &[],
        }
    }

    // The words of the wires.
    fn wire_words(&self) -> &'a [u32]
        ensures { result.now ≡ wire_words (words_in self.now) }
    {
        match &self.listing {
            Some(listing) => listing.wire_words(),
            None => &[],
        }
    }
}

impl<'a> Store for ListingStore<'a> {
    type Label = Set;

    type Pair = Set;

    ghost graph = { λ s. stated (words_in s) };

    fn count(&self) -> usize {
        self.block_words().len()
    }

    fn label(&self, block: usize) -> Option<Set> {
        let word = self.block_words().get(block)?;
        Some(Word(*word).tags())
    }

    fn pair(&self, from: usize, to: usize) -> Option<Set> {
        let blocks = self.count();
        if from >= blocks || to >= blocks {
            return None;
        }
        Some(wire_types(self.wire_words(), from, to))
    }
}

// The types of all wire words from one block to another, gathered into a set.
fn wire_types(wires: &[u32], from: usize, to: usize) -> Set
    ensures { result ≡ gathered wires.now from to }
{
    let mut types = Set::EMPTY;
    for wire in wires {
        let wire = Word(*wire);
        if wire.leads(from, to) {
            types = types.with(wire.wire_type());
        }
    }
    types
}
