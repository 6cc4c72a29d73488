// The stores, the layout and the order proposal.
use crate::tests::checks::{FORK, listing_of};
use layout::fault::LayoutFault;
use layout::layout::layout;
use model::block::PatternBlock;
use model::store::Store;
use proposal::fault::ProposalFault;
use proposal::order::propose;
use refusal::Refusal;
use sets::Set;
use std::process::Abort;
use std::test::Fail;
use stores::entry::Entry;
use stores::fault::FillFault;
use stores::listing_store::ListingStore;
use stores::row_store::RowStore;

const NO_ENTRY: Entry = Entry {
    to: 0,
    types: Set::EMPTY,
};

// Every question of both stores, at and above the count too, has one answer.
fn agree<'a>(
    rt: &impl Abort,
    words: &'a [u32],
    starts: &'a [u16],
    entries: &'a [Entry],
    labels: &'a [Set],
) {
    let mut listed: ListingStore<'a> = ListingStore::empty();
    assert!(rt; listed.read(words).is_ok());
    let mut rows: RowStore<'a, Set> = RowStore::empty();
    assert_eq!(rt; rows.fill(starts, entries, labels), Ok(()));
    assert_eq!(rt; listed.count(), rows.count());
    for from in 0..194 {
        assert_eq!(rt; listed.label(from), rows.label(from));
        for to in 0..194 {
            assert_eq!(rt; listed.pair(from, to), rows.pair(from, to));
        }
    }
}

fn laid_out_agrees(rt: &impl Abort, words: &[u32]) -> Result<(), Fail> {
    let mut labels = [Set::EMPTY; 192];
    let mut listed = ListingStore::empty();
    assert!(rt; listed.read(words).is_ok());
    let count = listed.write_labels(&mut labels);
    let mut starts = [7; 200];
    let mut entries = [NO_ENTRY; 1030];
    let laid = layout(words, &mut starts, &mut entries)
        .ok()
        .ok_or("refused")?;
    assert!(rt; count < 193 && laid < 1025);
    assert_eq!(rt; starts[count + 1], 7);
    agree(
        rt,
        words,
        &starts[0..count + 1],
        &entries[0..laid],
        &labels[0..count],
    );
    Ok(())
}

#[test]
fn both_stores_agree(rt: HostRuntime) -> Result<(), Fail> {
    laid_out_agrees(&rt, &FORK)?;
    laid_out_agrees(&rt, &listing_of(rt.alloc(), 192, 1024)?)?;
    laid_out_agrees(&rt, &listing_of(rt.alloc(), 192, 0)?)?;
    laid_out_agrees(&rt, &listing_of(rt.alloc(), 5, 800)?)
}

#[test]
fn layout_wants_room(rt: HostRuntime) {
    let mut three = [7; 3];
    let mut four = [7; 4];
    let mut one = [NO_ENTRY; 1];
    let mut two = [NO_ENTRY; 2];
    assert_eq!(rt;
        layout(&FORK, &mut three, &mut two),
        Err(LayoutFault::ShortStarts)
    );
    assert_eq!(rt;
        layout(&FORK, &mut four, &mut one),
        Err(LayoutFault::ShortEntries)
    );
    assert_eq!(rt; four, [7, 7, 7, 7]);
    assert_eq!(rt; layout(&FORK, &mut four, &mut two), Ok(2));
    assert_eq!(rt; four, [0, 2, 2, 2]);
    assert_eq!(rt; Refusal::from(LayoutFault::ShortStarts).number.0, 18);
}

// Starts, the block of the one entry, how many labels, and what filling answers.
const FILLS: [([u16; 3], u16, usize, Option<FillFault>); 7] = [
    ([0, 1, 1], 1, 2, None),
    ([0, 0, 1], 0, 2, None),
    ([0, 1, 1], 1, 3, Some(FillFault::Sizes)),
    ([1, 1, 1], 1, 2, Some(FillFault::Starts)),
    ([0, 1, 0], 1, 2, Some(FillFault::Starts)),
    ([0, 0, 0], 1, 2, Some(FillFault::Starts)),
    ([0, 1, 1], 2, 2, Some(FillFault::Target)),
];

fn filled<'a>(starts: &'a [u16], entries: &'a [Entry], labels: &'a [Set]) -> Option<FillFault> {
    let mut rows: RowStore<'a, Set> = RowStore::empty();
    rows.fill(starts, entries, labels).err()
}

#[test]
fn fills(rt: HostRuntime) {
    let labels = [Set(1); 3];
    for (starts, to, count, fault) in FILLS {
        let entries = [Entry { to, types: Set(1) }];
        assert!(rt; count < 4);
        assert_eq!(rt; filled(&starts, &entries, &labels[0..count]), fault);
    }
    assert_eq!(rt; filled(&[0; 193], &[], &[Set(1); 192]), None);
    assert_eq!(rt;
        filled(&[0; 194], &[], &[Set(1); 193]),
        Some(FillFault::Sizes)
    );
}

// A union of entries in any order, some for one block twice.
#[test]
fn entries_join(rt: HostRuntime) {
    let entries = [
        Entry {
            to: 1,
            types: Set(4),
        },
        Entry {
            to: 0,
            types: Set(1),
        },
        Entry {
            to: 1,
            types: Set(3),
        },
    ];
    unions(&rt, &[0, 3, 3], &entries, &[Set(1), Set(2)]);
}

fn unions<'a>(rt: &impl Abort, starts: &'a [u16], entries: &'a [Entry], labels: &'a [Set]) {
    let mut rows: RowStore<'a, Set> = RowStore::empty();
    assert_eq!(rt; rows.pair(0, 0), None);
    assert_eq!(rt; rows.fill(starts, entries, labels), Ok(()));
    assert_eq!(rt; rows.pair(0, 1), Some(Set(7)));
    assert_eq!(rt; rows.pair(0, 0), Some(Set(1)));
    assert_eq!(rt; rows.pair(1, 0), Some(Set(0)));
    assert_eq!(rt; rows.pair(0, 2), None);
    assert_eq!(rt; rows.label(2), None);
}

fn numbers(order: &[PatternBlock]) -> usize {
    order.iter().fold(0usize, |all, block| {
        all.saturating_mul(10).saturating_add(block.0)
    })
}

// A path of four blocks, wired 1 to 3, 3 to 0 and 0 to 2: its middle blocks are 0 and 3.
const PATH: [u32; 9] = [
    0x00030004, 0x40000001, 0x40000001, 0x40000001, 0x40000001, 0x80008000, 0x8040C000, 0x80C00000,
    0xC0000008,
];

#[test]
fn orders(rt: HostRuntime) -> Result<(), Fail> {
    let mut four = [PatternBlock(9); 4];
    assert_eq!(rt; propose(&PATH, &mut four), Ok(()));
    assert_eq!(rt; numbers(&four), 312);
    assert_eq!(rt; propose(&FORK, &mut four), Err(ProposalFault::OrderLength));
    assert_eq!(rt; numbers(&four), 312);
    let mut three = [PatternBlock(9); 3];
    assert_eq!(rt; propose(&FORK, &mut three), Ok(()));
    assert_eq!(rt; numbers(&three), 12);
    let mut eight = [PatternBlock(9); 8];
    assert_eq!(rt; propose(&listing_of(rt.alloc(), 8, 0)?, &mut eight), Ok(()));
    assert_eq!(rt; numbers(&eight), 1234567);
    let mut nine = [PatternBlock(9); 9];
    assert_eq!(rt;
        propose(&listing_of(rt.alloc(), 9, 0)?, &mut nine),
        Err(ProposalFault::TooManyBlocks)
    );
    assert_eq!(rt; Refusal::from(ProposalFault::TooManyBlocks).number.0, 1);
    Ok(())
}
