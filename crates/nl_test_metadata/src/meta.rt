// Rows of calls on pages of metadata, with what each answers.
ghost use Rattle.std.specs.Prelude.{◌≡◌, ◌<◌, [], IsTrue, length};
ghost use Rattle.nl_field.specs.Members.{Has};

use crate::asserting::assert_none_differs;
use crate::least::SHAPE;
use nl_field::Memory;
use nl_meta::Meta;
use std::alloc::Global;

#[derive(Clone, Copy)]
enum Step {
    /// Fresh pages from one address on, up to another.
    Fresh(u32, u32),
    /// The first byte of a page becomes this.
    Put(u32, u8),
    Byte(u32),
    Dirty,
    Slots,
    Freeze,
    Thaw,
    Frozen(u32),
    FrozenByte(u32),
}

#[derive(Clone, Copy, PartialEq)]
enum Answer {
    Did,
    Full,
    Number(u32),
    /// There is none, or the call has a condition that does not hold.
    Nothing,
}

fn is_frozen(meta: &Meta, vaddr: u32) -> bool
    ensures { IsTrue result → Has meta.now.frozen.addresses vaddr }
{
    for i in 0..64 {
        if let Some(address) = meta.frozen(i) {
            if address == vaddr {
                return true;
            }
        }
    }
    false
}

fn is_thawed(meta: &Meta) -> bool
    ensures { IsTrue result → meta.now.frozen.addresses ≡ [] }
{
    match meta.frozen(0) {
        Some(_) => false,
        None => true,
    }
}

// How many of these pages could be made.
fn fresh(meta: &mut Meta, from: u32, to: u32) -> Answer
    requires { length meta.old.running ≡ 103 }
    ensures { length meta.new.running ≡ 103 }
{
    let mut made = 0;
    for vaddr in from..to {
        if vaddr < 103 && made < 103 && fresh_page(meta, vaddr) {
            made += 1;
        }
    }
    Answer::Number(made)
}

fn fresh_page(meta: &mut Meta, vaddr: u32) -> bool
    requires below { vaddr < 103 }
    requires count { length meta.old.running ≡ 103 }
    ensures { length meta.new.running ≡ 103 }
{
    meta.fresh(vaddr)
}

fn put(meta: &mut Meta, vaddr: u32, byte: u8) -> Answer
    requires { length meta.old.running ≡ 103 }
    ensures { length meta.new.running ≡ 103 }
{
    if !meta.resident(vaddr) {
        return Answer::Nothing;
    }
    match meta.page_mut(vaddr) {
        Some(page) => {
            page.set_main(0, &[byte]);
            Answer::Did
        }
        None => Answer::Full,
    }
}

fn run(meta: &mut Meta, step: Step) -> Answer
    requires { length meta.old.running ≡ 103 }
    ensures { length meta.new.running ≡ 103 }
{
    match step {
        Step::Fresh(from, to) => fresh(meta, from, to),
        Step::Put(vaddr, byte) => put(meta, vaddr, byte),
        Step::Byte(vaddr) => {
            if meta.resident(vaddr) {
                Answer::Number(u32::from(meta.page(vaddr).main()[0]))
            } else {
                Answer::Nothing
            }
        }
        Step::Dirty => Answer::Number(meta.dirty()),
        Step::Slots => Answer::Number(meta.slots()),
        Step::Freeze => {
            if is_thawed(meta) {
                meta.freeze();
                Answer::Did
            } else {
                Answer::Nothing
            }
        }
        Step::Thaw => {
            meta.thaw();
            Answer::Did
        }
        Step::Frozen(i) => match meta.frozen(i) {
            Some(vaddr) => Answer::Number(vaddr),
            None => Answer::Nothing,
        },
        Step::FrozenByte(vaddr) => {
            if is_frozen(meta, vaddr) {
                Answer::Number(u32::from(meta.frozen_page(vaddr).main()[0]))
            } else {
                Answer::Nothing
            }
        }
    }
}

// The first row that is answered otherwise.
fn differs(meta: &mut Meta, rows: &[(Step, Answer)]) -> Option<usize>
    requires { length meta.old.running ≡ 103 }
{
    for row in 0..rows.len() {
        let (step, want) = rows[row];
        if run(meta, step) != want {
            return Some(row);
        }
    }
    None
}

const PAGES: [(Step, Answer); 26] = [
    (Step::Byte(67), Answer::Nothing),
    (Step::Fresh(67, 97), Answer::Number(30)),
    (Step::Fresh(1, 34), Answer::Number(33)),
    (Step::Dirty, Answer::Number(63)),
    (Step::Fresh(97, 98), Answer::Number(0)),
    (Step::Put(67, 5), Answer::Did),
    (Step::Fresh(0, 1), Answer::Number(1)),
    (Step::Dirty, Answer::Number(64)),
    (Step::Slots, Answer::Number(64)),
    (Step::Freeze, Answer::Did),
    (Step::Dirty, Answer::Number(0)),
    (Step::Freeze, Answer::Nothing),
    (Step::Frozen(0), Answer::Number(0)),
    (Step::Frozen(33), Answer::Number(33)),
    (Step::Frozen(34), Answer::Number(67)),
    (Step::Frozen(63), Answer::Number(96)),
    (Step::Frozen(64), Answer::Nothing),
    (Step::Put(67, 6), Answer::Did),
    (Step::Byte(67), Answer::Number(6)),
    (Step::FrozenByte(67), Answer::Number(5)),
    (Step::FrozenByte(97), Answer::Nothing),
    (Step::Dirty, Answer::Number(1)),
    (Step::Thaw, Answer::Did),
    (Step::FrozenByte(67), Answer::Nothing),
    (Step::Byte(67), Answer::Number(6)),
    (Step::Slots, Answer::Number(64)),
];

fn pages_differ(alloc: Global) -> Result<Option<usize>, Memory> {
    let mut meta = Meta::new(alloc, SHAPE)?;
    let row = differs(&mut meta, &PAGES);
    drop(meta);
    Ok(row)
}

// 63 pages besides address 0 are dirty at most, and a frozen page does not follow the running one.
#[test]
fn pages_run_and_are_frozen(rt: HostRuntime) {
    assert_none_differs(&rt, pages_differ(rt.alloc()));
}
