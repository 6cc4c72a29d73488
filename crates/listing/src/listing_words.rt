ghost use Rattle.std.specs.Prelude.{◌≡◌, IfOk};
ghost use Rattle.std.specs.Result.{result_map_both};
ghost use Rattle.listing.specs.Listings.{Listing, block_words, wire_words};
ghost use Rattle.listing.specs.Faults.{verdict};

use crate::check::check;
use crate::counts::Counts;
use crate::fault::Fault;

/// Words that are a listing, with its two counts.
#[derive(Clone, Copy)]
pub struct ListingWords<'a> {
    words: &'a [u32],
    counts: Counts,
    ghost listed: { Listing words.now counts },
}

impl<'a> ListingWords<'a> {
    /// The words of a listing. Words that are none are refused as the check refuses them.
    pub fn of(words: &'a [u32]) -> Result<ListingWords<'a>, Fault>
        ensures answer { result_map_both (λ l. l.counts) (λ fault. fault) result ≡ verdict words.now }
        ensures holds { IfOk result (λ l. l.words.now ≡ words.now) }
    {
        let counts = check(words)?;
        Ok(ListingWords { words, counts })
    }

    /// How many blocks and how many wires it has.
    pub fn counts(&self) -> Counts
        ensures value { result ≡ self.now.counts }
        ensures listed { Listing self.now.words.now result }
    {
        self.counts
    }

    /// The words of the blocks, in block order.
    pub fn block_words(&self) -> &'a [u32]
        ensures { result.now ≡ block_words self.now.words.now }
    {
        &self.words[1..1 + self.counts.blocks]
    }

    /// The words of the wires.
    pub fn wire_words(&self) -> &'a [u32]
        ensures { result.now ≡ wire_words self.now.words.now }
    {
        let first = 1 + self.counts.blocks;
        &self.words[first..first + self.counts.wires]
    }
}
