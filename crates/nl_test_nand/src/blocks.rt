// Rows of calls on a table of blocks, with what each answers.
ghost use Rattle.std.specs.Prelude.{IsTrue};
ghost use Rattle.nl_blocks.specs.Table.{HasBlock, HasPage};

use nl_blocks::{BlockState, Blocks, PageState};

#[derive(Clone, Copy)]
enum Step {
    TakeFree,
    TakeReserve,
    NextPage(u32),
    MarkLive(u32),
    MarkDead(u32),
    Seal(u32),
    Choose(u32),
    Erased(u32, u32),
    Reerased(u32),
    Freed(u32, u32),
    NameGone(u32),
    Found(u32, u32, u32),
    State(u32),
    PageState(u32),
    Wear(u32),
    Dead(u32),
    Free,
}

#[derive(Clone, Copy, PartialEq)]
enum Answer {
    Did,
    Number(u32),
    NoNumber,
    Block(BlockState),
    Page(PageState),
    /// The call has a condition that does not hold.
    Unmet,
}

fn number(answer: Option<u32>) -> Answer {
    match answer {
        Some(n) => Answer::Number(n),
        None => Answer::NoNumber,
    }
}

fn has(blocks: &Blocks, block: u32) -> bool
    ensures { IsTrue result → HasBlock blocks.now block }
{
    let count = blocks.count();
    blocks.first() <= block && block - blocks.first() < count
}

fn has_page(blocks: &Blocks, page: u32) -> bool
    ensures { IsTrue result → HasPage blocks.now page }
{
    let _ = blocks.count();
    has(blocks, page / blocks.pages())
}

fn page_step(blocks: &mut Blocks, step: Step) -> Answer {
    match step {
        Step::MarkLive(page) if has_page(blocks, page) => {
            blocks.mark_live(page);
            Answer::Did
        }
        Step::MarkDead(page) if has_page(blocks, page) => {
            blocks.mark_dead(page);
            Answer::Did
        }
        Step::PageState(page) if has_page(blocks, page) => Answer::Page(blocks.page_state(page)),
        _ => Answer::Unmet,
    }
}

fn look(blocks: &Blocks, step: Step) -> Answer {
    match step {
        Step::NextPage(block) if has(blocks, block) => number(blocks.next_page(block)),
        Step::State(block) if has(blocks, block) => Answer::Block(blocks.state(block)),
        Step::Wear(block) if has(blocks, block) => Answer::Number(blocks.wear(block)),
        Step::Dead(block) if has(blocks, block) => Answer::Number(blocks.dead(block)),
        Step::Free => Answer::Number(blocks.free()),
        _ => Answer::Unmet,
    }
}

fn change(blocks: &mut Blocks, step: Step) -> Answer {
    match step {
        Step::Seal(block) if has(blocks, block) => blocks.seal(block),
        Step::Choose(block) if has(blocks, block) => match blocks.state(block) {
            BlockState::Sealed => blocks.choose(block),
            _ => return Answer::Unmet,
        },
        Step::Erased(block, names) if has(blocks, block) => blocks.erased(block, names),
        Step::Reerased(block) if has(blocks, block) => blocks.reerased(block),
        Step::Freed(block, names) if has(blocks, block) => blocks.freed(block, names),
        Step::NameGone(block) if has(blocks, block) => match blocks.state(block) {
            BlockState::Retired(_) => blocks.name_gone(block),
            _ => return Answer::Unmet,
        },
        Step::Found(block, wear, names) if has(blocks, block) => match blocks.state(block) {
            BlockState::Free | BlockState::Retired(_) => blocks.found(block, wear, names),
            _ => return Answer::Unmet,
        },
        _ => return Answer::Unmet,
    }
    Answer::Did
}

fn run(blocks: &mut Blocks, step: Step) -> Answer {
    match step {
        Step::TakeFree => number(blocks.take_free()),
        Step::TakeReserve => number(blocks.take_reserve()),
        Step::MarkLive(_) | Step::MarkDead(_) | Step::PageState(_) => page_step(blocks, step),
        Step::NextPage(_) | Step::State(_) | Step::Wear(_) | Step::Dead(_) | Step::Free => look(
            blocks, step,
        ),
        _ => change(blocks, step),
    }
}

/// The first row that is answered otherwise.
fn differs(blocks: &mut Blocks, table: &[(Step, Answer)]) -> Option<usize> {
    for row in 0..table.len() {
        let (step, want) = table[row];
        if run(blocks, step) != want {
            return Some(row);
        }
    }
    None
}

const ROUND: [(Step, Answer); 54] = [
    (Step::Free, Answer::Number(4)),
    (Step::State(11), Answer::Block(BlockState::Free)),
    (Step::State(12), Answer::Unmet),
    (Step::Found(8, 5, 0), Answer::Did),
    (Step::Found(9, 7, 2), Answer::Did),
    (Step::State(9), Answer::Block(BlockState::Retired(2))),
    (Step::Free, Answer::Number(3)),
    // Of equals the least number; then the less worn; one is kept.
    (Step::TakeFree, Answer::Number(10)),
    (Step::TakeFree, Answer::Number(11)),
    (Step::TakeFree, Answer::NoNumber),
    (Step::State(10), Answer::Block(BlockState::Active)),
    (Step::NextPage(10), Answer::Number(20)),
    (Step::MarkLive(20), Answer::Did),
    (Step::NextPage(10), Answer::Number(21)),
    (Step::MarkDead(21), Answer::Did),
    (Step::NextPage(10), Answer::NoNumber),
    (Step::Dead(10), Answer::Number(1)),
    (Step::PageState(20), Answer::Page(PageState::Live)),
    (Step::PageState(21), Answer::Page(PageState::Dead)),
    (Step::Choose(10), Answer::Unmet),
    (Step::Seal(10), Answer::Did),
    (Step::Choose(10), Answer::Did),
    (Step::State(10), Answer::Block(BlockState::Victim)),
    // The cleaner gets the last Free block.
    (Step::TakeReserve, Answer::Number(8)),
    (Step::State(8), Answer::Block(BlockState::Target)),
    (Step::TakeReserve, Answer::NoNumber),
    (Step::MarkDead(20), Answer::Did),
    (Step::Dead(10), Answer::Number(2)),
    (Step::Erased(10, 1), Answer::Did),
    (Step::Wear(10), Answer::Number(1)),
    (Step::State(10), Answer::Block(BlockState::Retired(1))),
    (Step::TakeReserve, Answer::NoNumber),
    (Step::NameGone(9), Answer::Did),
    (Step::State(9), Answer::Block(BlockState::Retired(1))),
    (Step::NameGone(10), Answer::Did),
    (Step::State(10), Answer::Block(BlockState::Free)),
    (Step::NameGone(10), Answer::Unmet),
    // A block that is taken again has no marked page.
    (Step::NextPage(10), Answer::NoNumber),
    (Step::TakeReserve, Answer::Number(10)),
    (Step::NextPage(10), Answer::Number(20)),
    (Step::Erased(11, 0), Answer::Did),
    (Step::State(11), Answer::Block(BlockState::Free)),
    (Step::Wear(8), Answer::Number(5)),
    // A block that was taken and had to be erased again; then it is given back without an erase.
    (Step::Reerased(8), Answer::Did),
    (Step::Wear(8), Answer::Number(6)),
    (Step::State(8), Answer::Block(BlockState::Target)),
    (Step::Free, Answer::Number(1)),
    (Step::Freed(8, 0), Answer::Did),
    (Step::Wear(8), Answer::Number(6)),
    (Step::State(8), Answer::Block(BlockState::Free)),
    (Step::Free, Answer::Number(2)),
    (Step::Freed(8, 3), Answer::Did),
    (Step::State(8), Answer::Block(BlockState::Retired(3))),
    (Step::Free, Answer::Number(1)),
];

// Four blocks of 2 pages, numbers 8 to 11, so pages 16 to 23.
#[test]
fn blocks_go_round(rt: HostRuntime) {
    let mut blocks = Blocks::new(rt.alloc(), 8, 4, 2).expect(&rt, "there is memory");
    assert_eq!(rt; differs(&mut blocks, &ROUND), None);
}
