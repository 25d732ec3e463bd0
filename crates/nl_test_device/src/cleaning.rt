// A device that is cleaned.
use crate::asserting::assert_none_differs;
use crate::device::{Seen, Step, differs};

const CLEANED: [(Step, Seen); 42] = [
    (Step::Make, Seen::Did),
    (Step::FreeBlocks, Seen::Number(22)),
    (Step::Erase, Seen::Nothing),
    (Step::Copy, Seen::Did),
    (Step::FreeBlocks, Seen::Number(21)),
    (Step::Resolve(258), Seen::Number(320)),
    (Step::Erase, Seen::Nothing),
    // A victim is in hand.
    (Step::Level, Seen::No),
    (Step::IsLive(258, 3), Seen::Yes),
    (Step::IsLive(320, 3), Seen::Yes),
    (Step::IsLive(256, 1), Seen::No),
    (Step::Copy, Seen::Did),
    (Step::Copy, Seen::Nothing),
    (Step::Pairs, Seen::Number(2)),
    (Step::Posted, Seen::Number(2)),
    (Step::Callback(1), Seen::Moved(258, 320, 3)),
    (Step::Callback(2), Seen::Moved(270, 321, 15)),
    (Step::Callback(3), Seen::No),
    (Step::Erase, Seen::Did),
    (Step::Erase, Seen::Nothing),
    // The block waits for its two names.
    (Step::FreeBlocks, Seen::Number(21)),
    (Step::Read(258, 3), Seen::Byte(2)),
    (Step::Read(320, 3), Seen::Byte(2)),
    (Step::Least, Seen::Number(1)),
    (Step::Handled(1, 7), Seen::Yes),
    (Step::Least, Seen::Number(2)),
    (Step::Acknowledge(6), Seen::Did),
    (Step::Pairs, Seen::Number(2)),
    (Step::Acknowledge(8), Seen::Did),
    (Step::Pairs, Seen::Number(1)),
    (Step::Callback(1), Seen::No),
    (Step::Resolve(258), Seen::Number(258)),
    (Step::Read(258, 3), Seen::NotLive),
    (Step::IsLive(258, 3), Seen::No),
    (Step::FreeBlocks, Seen::Number(21)),
    (Step::Handled(2, 8), Seen::Yes),
    (Step::Least, Seen::No),
    (Step::Acknowledge(8), Seen::Did),
    (Step::FreeBlocks, Seen::Number(22)),
    (Step::Read(321, 15), Seen::Byte(14)),
    (Step::NextStamp, Seen::Number(34)),
    (Step::Counts, Seen::Counts(33 + 2 + 1, 0, 0)),
];

// The victim is block 8, and its pages go to block 10.
#[test]
fn a_victim_is_cleaned(rt: HostRuntime) {
    assert_none_differs(&rt, differs(rt.alloc(), 0, (0, 0), &CLEANED));
}

const MOVED_TWICE: [(Step, Seen); 34] = [
    (Step::Make, Seen::Did),
    (Step::Copies(2), Seen::Number(2)),
    (Step::Erase, Seen::Did),
    (Step::Writes(31), Seen::Number(31)),
    // Each page of block 9 is live.
    (Step::Copy, Seen::Nothing),
    (Step::Free(288, 33), Seen::Yes),
    (Step::Copies(32), Seen::Number(31)),
    (Step::Callback(3), Seen::Moved(289, 322, 34)),
    (Step::Callback(33), Seen::Moved(319, 352, 64)),
    (Step::Erase, Seen::Did),
    (Step::FreeBlocks, Seen::Number(20)),
    (Step::Pairs, Seen::Number(33)),
    (Step::Free(289, 34), Seen::Yes),
    (Step::Callback(3), Seen::No),
    (Step::Pairs, Seen::Number(32)),
    // The victim is block 10, and both names of the page lead on.
    (Step::Copy, Seen::Did),
    (Step::Resolve(258), Seen::Number(353)),
    (Step::Resolve(320), Seen::Number(353)),
    (Step::Callback(1), Seen::Moved(258, 320, 3)),
    (Step::Callback(34), Seen::Moved(320, 353, 3)),
    (Step::Read(258, 3), Seen::Byte(2)),
    (Step::Free(258, 3), Seen::Yes),
    (Step::Callback(1), Seen::No),
    (Step::Callback(34), Seen::No),
    (Step::IsLive(320, 3), Seen::No),
    (Step::Pairs, Seen::Number(31)),
    // Page 321 is in the victim, and block 8 waits for its name 270 alone.
    (Step::FreeBlocks, Seen::Number(20)),
    (Step::Replace(270, 15, 77), Seen::At(384, 65)),
    (Step::Callback(2), Seen::No),
    (Step::Callback(4), Seen::Moved(290, 323, 35)),
    (Step::Pairs, Seen::Number(30)),
    (Step::FreeBlocks, Seen::Number(20)),
    (Step::Read(384, 65), Seen::Byte(77)),
    (Step::Posted, Seen::Number(34)),
];

// Blocks 8 and 9 are cleaned, and a page of block 8 moves a second time. A free or an overwrite by an old name ends each callback of
// the page.
#[test]
fn moved_pages_are_freed(rt: HostRuntime) {
    assert_none_differs(&rt, differs(rt.alloc(), 0, (0, 0), &MOVED_TWICE));
}

const MANY_PAIRS: [(Step, Seen); 22] = [
    (Step::Writes(129), Seen::Number(129)),
    (Step::Free(256, 1), Seen::Yes),
    (Step::Copies(32), Seen::Number(31)),
    (Step::Erase, Seen::Did),
    (Step::Free(288, 33), Seen::Yes),
    (Step::Copies(32), Seen::Number(31)),
    (Step::Erase, Seen::Did),
    (Step::Free(320, 65), Seen::Yes),
    (Step::Copies(32), Seen::Number(31)),
    (Step::Erase, Seen::Did),
    (Step::Free(352, 97), Seen::Yes),
    (Step::Pairs, Seen::Number(93)),
    (Step::Copy, Seen::Nothing),
    (Step::HandledTo(28, 2), Seen::Yes),
    (Step::Acknowledge(2), Seen::Did),
    (Step::Pairs, Seen::Number(65)),
    (Step::Copy, Seen::Nothing),
    (Step::Handled(29, 3), Seen::Yes),
    (Step::Acknowledge(3), Seen::Did),
    (Step::Pairs, Seen::Number(64)),
    (Step::Copy, Seen::Did),
    (Step::Pairs, Seen::Number(65)),
];

// Three blocks are cleaned that have one dead page each. Then there are more pairs than two blocks have pages, and no victim is begun.
// Transaction 2 handles the first 28 callbacks.
#[test]
fn no_victim_is_begun_with_many_pairs(rt: HostRuntime) {
    assert_none_differs(&rt, differs(rt.alloc(), 0, (0, 0), &MANY_PAIRS));
}

const FAILED_MOVES: [(Step, Seen); 20] = [
    (Step::Make, Seen::Did),
    (Step::Copy, Seen::Fault),
    (Step::FreeBlocks, Seen::Number(22)),
    (Step::Copy, Seen::Fault),
    (Step::FreeBlocks, Seen::Number(21)),
    (Step::Pairs, Seen::Number(0)),
    (Step::Posted, Seen::Number(0)),
    (Step::Read(258, 3), Seen::Byte(2)),
    (Step::Copy, Seen::Did),
    (Step::Callback(1), Seen::Moved(258, 321, 3)),
    (Step::Copy, Seen::Did),
    (Step::Callback(2), Seen::Moved(270, 322, 15)),
    (Step::Erase, Seen::Fault),
    (Step::Read(258, 3), Seen::Byte(2)),
    (Step::Copy, Seen::Nothing),
    (Step::Erase, Seen::Did),
    (Step::Pairs, Seen::Number(2)),
    (Step::FreeBlocks, Seen::Number(21)),
    (Step::Read(270, 15), Seen::Byte(14)),
    (Step::Counts, Seen::Counts(33 + 2 + 1, 1, 2)),
];

// The first read after the scan fails, the first program of a copy, and the first erase.
#[test]
fn moves_fail(rt: HostRuntime) {
    assert_none_differs(&rt, differs(rt.alloc(), 1025, (34, 37), &FAILED_MOVES));
}

const LEVELLED: [(Step, Seen); 14] = [
    (Step::Writes(32), Seen::Number(32)),
    (Step::Wear(345), Seen::Yes),
    (Step::Level, Seen::No),
    (Step::Wear(1), Seen::Yes),
    (Step::Level, Seen::Yes),
    (Step::Level, Seen::No),
    (Step::Copy, Seen::Did),
    (Step::Callback(1), Seen::Moved(256, 320, 1)),
    (Step::Copies(32), Seen::Number(31)),
    (Step::Erase, Seen::Did),
    (Step::Pairs, Seen::Number(32)),
    (Step::Read(287, 32), Seen::Byte(31)),
    // Block 10 has the pages now, and was erased 15 times.
    (Step::Level, Seen::No),
    (Step::Counts, Seen::Counts(32 + 346 * 33 + 32 + 1, 0, 0)),
];

// Block 8 keeps its pages while blocks 9 to 31 are written and erased in turn. Once block 9 was erased 16 times, block 8 is taken
// for the sake of wear. Its first page goes to block 10, the next one in turn.
#[test]
fn a_cold_block_is_taken(rt: HostRuntime) {
    assert_none_differs(&rt, differs(rt.alloc(), 0, (0, 0), &LEVELLED));
}
