// Rounds of reclaiming until no page is dead.
use crate::image::Layout;
use crate::rig::{Seen, Step};
use crate::visit::{assert_none_differs, differing, sound, tree};

/// Thirteen blocks of live pages, and three with 8, 10 and 14 dead pages.
pub const DEAD: Layout = [
    32, 32, 32, 32, 32, 32, 32, 32, 32, 32, 32, 32, 32, 24, 22, 18, 0, 0, 0, 0, 0, 0, 0, 0,
];

/// How many pages are programmed as it is built.
pub const BUILT: u64 = 519;

// The block with 14 dead pages is cleaned first, by 18 copies and an erase: operations 1 to 19. It waits until the old names are gone: with
// the transaction of addresses 0, 67, 73 and 75, operations 20 to 29, whose commit page is operation 25. The next block has 22 copies and
// an erase, 30 to 52, and a transaction of addresses 0 and 73, 53 to 58, with commit page 56; the third 24 copies and an erase, 59 to 83,
// and such a transaction, 84 to 89, with commit page 87. The 64 pages that were copied fill two blocks.
const ROUNDS: [(Step, Seen); 35] = [
    (Step::Clock, Seen::Number(BUILT)),
    (Step::FreeBlocks, Seen::Number(8)),
    (Step::Pairs, Seen::Number(0)),
    (Step::Count, Seen::Number(7)),
    (Step::Committed, Seen::Number(7)),
    (Step::Call, Seen::Did),
    (Step::Round, Seen::Did),
    (Step::Clock, Seen::Number(BUILT + 19)),
    (Step::FreeBlocks, Seen::Number(7)),
    (Step::Pairs, Seen::Number(18)),
    (Step::Committed, Seen::Number(7)),
    (Step::Call, Seen::Did),
    (Step::Round, Seen::Did),
    (Step::Clock, Seen::Number(BUILT + 52)),
    (Step::FreeBlocks, Seen::Number(7)),
    (Step::Pairs, Seen::Number(22)),
    (Step::Committed, Seen::Number(9)),
    (Step::Call, Seen::Did),
    (Step::Round, Seen::Did),
    (Step::Clock, Seen::Number(BUILT + 83)),
    (Step::FreeBlocks, Seen::Number(8)),
    (Step::Pairs, Seen::Number(24)),
    (Step::Committed, Seen::Number(10)),
    (Step::Call, Seen::Did),
    (Step::Round, Seen::Did),
    (Step::Clock, Seen::Number(BUILT + 89)),
    (Step::FreeBlocks, Seen::Number(9)),
    (Step::Pairs, Seen::Number(0)),
    (Step::Committed, Seen::Number(11)),
    (Step::Round, Seen::Did),
    (Step::Clean, Seen::Nothing),
    (Step::Clock, Seen::Number(BUILT + 89)),
    // No call came since, and the fourth transaction has address 0 alone: its header, image and commit page, and the page itself.
    (Step::Commit, Seen::Number(4)),
    (Step::Clock, Seen::Number(BUILT + 93)),
    (Step::Stopped, Seen::Number(0)),
];

#[test]
fn until_no_page_is_dead(rt: HostRuntime) {
    let alloc = rt.alloc();
    let found = differing(
        alloc,
        &DEAD,
        sound(alloc, None),
        tree(&ROUNDS, 11),
        Some(11),
    );
    assert_none_differs(&rt, found);
}
