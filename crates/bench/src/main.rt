// Times a pair question in each store, and the layout of a full listing. What was counted is printed on standard output; what
// it cost, in nanoseconds, on standard error.
#![tactic(auto)]

use anyhow::anyhow;
use layout::layout::layout;
use listing::counts::{MOST_BLOCKS, MOST_WIRES};
use model::store::Store;
use sets::Set;
use std::alloc::{AllocError, Global};
use std::time::Instant;
use stores::entry::Entry;
use stores::listing_store::ListingStore;
use stores::row_store::RowStore;

const STARTS: usize = MOST_BLOCKS + 1;

const QUESTIONS: u64 = (MOST_BLOCKS * MOST_BLOCKS) as u64;

// A listing of 192 blocks and 1,024 wires, spread over all blocks.
fn full_listing(heap: Global) -> Result<Vec<u32>, AllocError> {
    let mut words = Vec::new(heap);
    words.push(0x040000C0)?;
    for _ in 0..MOST_BLOCKS {
        words.push(0x40000001)?;
    }
    for wire in 0..MOST_WIRES as u32 {
        let from = wire / 6;
        let to = wire % 6 * 32 + from % 32;
        words.push(0x80000000 | (from << 22) | (to << 14))?;
    }
    words.push(0xC00004C1)?;
    Ok(words)
}

// How many pairs of a store have a label that is not empty.
fn wired_pairs<S: Store<Label = Set, Pair = Set>>(store: &S) -> usize {
    let mut pairs = 0usize;
    for from in 0..MOST_BLOCKS {
        for to in 0..MOST_BLOCKS {
            if let Some(types) = store.pair(from, to) {
                if types.0 != 0 {
                    pairs = pairs.saturating_add(1);
                }
            }
        }
    }
    pairs
}

// Tells what a step cost, for each of so many.
fn tell(rt: &HostRuntime, what: &str, start: Instant, times: u64) -> anyhow::Result<()> {
    let spent = start.elapsed(rt)?.as_nanos();
    let each = spent / u128::from(times.max(1));
    eprintln!(rt; "{what}: {each} ns")?;
    Ok(())
}

// Asks a listing store, and writes its labels.
fn ask_listing<'a>(
    rt: &HostRuntime,
    words: &'a [u32],
    labels: &mut [Set; MOST_BLOCKS],
) -> anyhow::Result<usize> {
    let mut store: ListingStore<'a> = ListingStore::empty();
    store
        .read(words)
        .map_err(|_| anyhow!("the listing is refused"))?;
    let start = Instant::now(rt)?;
    let pairs = wired_pairs(&store);
    tell(rt, "pair question of the listing store", start, QUESTIONS)?;
    let count = store.write_labels(labels);
    println!(rt; "listing store: {count} blocks, {pairs} wired pairs")?;
    Ok(count)
}

// Asks a row store.
fn ask_rows<'a>(
    rt: &HostRuntime,
    starts: &'a [u16],
    entries: &'a [Entry],
    labels: &'a [Set],
) -> anyhow::Result<()> {
    let mut store: RowStore<'a, Set> = RowStore::empty();
    store
        .fill(starts, entries, labels)
        .map_err(|_| anyhow!("the row store is not filled"))?;
    let start = Instant::now(rt)?;
    let pairs = wired_pairs(&store);
    tell(rt, "pair question of the row store", start, QUESTIONS)?;
    println!(rt; "row store: {pairs} wired pairs")?;
    Ok(())
}

fn main(rt: HostRuntime) -> anyhow::Result<()> {
    let words = full_listing(rt.alloc())?;
    let mut labels = [Set::EMPTY; MOST_BLOCKS];
    let count = ask_listing(&rt, &words, &mut labels)?;
    let mut starts = [0; STARTS];
    let mut entries = [Entry {
        to: 0,
        types: Set::EMPTY,
    }; MOST_WIRES];
    let start = Instant::now(&rt)?;
    let laid = layout(&words, &mut starts, &mut entries).map_err(|_| anyhow!(
        "the listing is not laid out"
    ))?;
    tell(&rt, "layout of 192 blocks and 1024 wires", start, 1)?;
    println!(rt; "layout: {laid} entries")?;
    if laid > MOST_WIRES || count > MOST_BLOCKS {
        return Err(anyhow!("the layout is too long"));
    }
    ask_rows(&rt, &starts, &entries[0..laid], &labels[0..count])
}
