// Rows of calls on the lines of workers and their pages in flight, with what each answers.
use crate::asserting::assert_none_differs;
use nl_field::{Memory, Pointer, Tag};
use nl_flight::Flight;
use std::alloc::Global;

#[derive(Clone, Copy)]
enum Step {
    Begin(u8, u32),
    /// Puts the page of a number behind those of the worker.
    Put(u8, u32),
    /// Puts sixteen pages: those of the numbers from 0 on for worker 0, and those from 16 on for worker 1.
    PutAll,
    Goal(u8, u64),
    Fault(u8, u64),
    Rename(u64, u32),
    Clear(u8),
    Line(u8),
    /// Whether the worker has at a place the page of that number, under this name.
    Get(u8, u32, u32, u32),
}

#[derive(Clone, Copy, PartialEq)]
enum Answer {
    Yes,
    No,
    /// The line, its fault and its goal.
    Line(u32, u64, Option<u64>),
    Nothing,
}

// A page of the file 3: its index, its place with write sequence number, its owner.
fn page(number: u32, name: u32) -> (u32, Pointer, Tag) {
    (
        number,
        Pointer {
            name,
            stamp: u64::from(number) + 1,
        },
        Tag {
            ino: 3,
            generation: 1,
            index: number,
        },
    )
}

// Each answers whether its condition held.
fn begin(flight: &mut Flight, worker: u8, line: u32) -> bool {
    let is_met = worker < 8 && line > 0 && flight.line(worker) == 0;
    if is_met {
        flight.begin(worker, line);
    }
    is_met
}

// Into one of the worker's own sixteen places.
fn put(flight: &mut Flight, worker: u8, number: u32) -> bool {
    let is_met = worker < 8 && flight.line(worker) > 0 && flight.get(worker, 15).is_none();
    if is_met {
        let (index, at, tag) = page(number, 500 + number % 100);
        flight.put(worker, index, at, tag);
    }
    is_met
}

fn set_goal(flight: &mut Flight, worker: u8, goal: u64) -> bool {
    let is_met = worker < 8 && flight.line(worker) > 0;
    if is_met {
        flight.set_goal(worker, goal);
    }
    is_met
}

// Whether all were put.
fn put_all(flight: &mut Flight) -> bool {
    for number in 0..16 {
        if !put(flight, 0, number) || !put(flight, 1, number + 16) {
            return false;
        }
    }
    true
}

fn line(flight: &Flight, worker: u8) -> Answer {
    if worker >= 8 {
        return Answer::Nothing;
    }
    Answer::Line(
        flight.line(worker),
        flight.fault(worker),
        flight.goal(worker),
    )
}

fn yes(answer: bool) -> Answer {
    if answer { Answer::Yes } else { Answer::No }
}

fn get(flight: &Flight, worker: u8, place: u32, number: u32, name: u32) -> Answer {
    if worker >= 8 {
        return Answer::Nothing;
    }
    match flight.get(worker, place) {
        Some(found) => yes(found == page(number, name)),
        None => Answer::Nothing,
    }
}

fn change(flight: &mut Flight, worker: u8, step: Step) -> Answer {
    if worker >= 8 {
        return Answer::Nothing;
    }
    match step {
        Step::Fault(_, sum) => flight.set_fault(worker, sum),
        _ => flight.clear(worker),
    }
    Answer::Yes
}

fn run(flight: &mut Flight, step: Step) -> Answer {
    match step {
        Step::Begin(worker, line) => yes(begin(flight, worker, line)),
        Step::Put(worker, number) => yes(put(flight, worker, number)),
        Step::PutAll => yes(put_all(flight)),
        Step::Goal(worker, goal) => yes(set_goal(flight, worker, goal)),
        Step::Fault(worker, _) | Step::Clear(worker) => change(flight, worker, step),
        Step::Rename(stamp, to) => yes(flight.rename(stamp, to)),
        Step::Line(worker) => line(flight, worker),
        Step::Get(worker, place, number, name) => get(flight, worker, place, number, name),
    }
}

// The first row that is answered otherwise.
fn differs(flight: &mut Flight, rows: &[(Step, Answer)]) -> Option<usize> {
    for row in 0..rows.len() {
        let (step, want) = rows[row];
        if run(flight, step) != want {
            return Some(row);
        }
    }
    None
}

// The same, where nothing is in flight at first.
fn flown(alloc: Global, rows: &[(Step, Answer)]) -> Result<Option<usize>, Memory> {
    let mut flight = Flight::new(alloc)?;
    let row = differs(&mut flight, rows);
    drop(flight);
    Ok(row)
}

// Worker 2 has pages of a line, worker 7 a line without pages.
const LINES: [(Step, Answer); 27] = [
    (Step::Line(2), Answer::Line(0, 0, None)),
    (Step::Get(2, 0, 0, 500), Answer::Nothing),
    (Step::Put(2, 0), Answer::No),
    (Step::Goal(2, 9), Answer::No),
    (Step::Begin(2, 11), Answer::Yes),
    (Step::Begin(7, 12), Answer::Yes),
    (Step::Begin(2, 13), Answer::No),
    (Step::Put(2, 0), Answer::Yes),
    (Step::Put(2, 1), Answer::Yes),
    (Step::Put(2, 2), Answer::Yes),
    (Step::Fault(2, 5), Answer::Yes),
    (Step::Goal(7, 9), Answer::Yes),
    (Step::Line(2), Answer::Line(11, 5, None)),
    (Step::Line(7), Answer::Line(12, 0, Some(9))),
    (Step::Get(2, 2, 2, 502), Answer::Yes),
    (Step::Get(2, 3, 3, 503), Answer::Nothing),
    (Step::Get(7, 0, 0, 500), Answer::Nothing),
    // The page of number 2 is that of write sequence number 3.
    (Step::Rename(3, 77), Answer::Yes),
    (Step::Rename(4, 78), Answer::No),
    (Step::Get(2, 0, 0, 500), Answer::Yes),
    (Step::Get(2, 1, 1, 501), Answer::Yes),
    (Step::Get(2, 2, 2, 77), Answer::Yes),
    (Step::Clear(2), Answer::Yes),
    (Step::Line(2), Answer::Line(0, 0, None)),
    (Step::Get(2, 0, 0, 500), Answer::Nothing),
    (Step::Line(7), Answer::Line(12, 0, Some(9))),
    (Step::Rename(3, 79), Answer::No),
];

#[test]
fn lines_are_in_flight(rt: HostRuntime) {
    assert_none_differs(&rt, flown(rt.alloc(), &LINES));
}

const FULL: [(Step, Answer); 8] = [
    (Step::Begin(0, 1), Answer::Yes),
    (Step::Begin(1, 2), Answer::Yes),
    (Step::PutAll, Answer::Yes),
    (Step::Put(0, 32), Answer::No),
    (Step::Get(0, 15, 15, 515), Answer::Yes),
    (Step::Get(1, 0, 16, 516), Answer::Yes),
    (Step::Get(1, 15, 31, 531), Answer::Yes),
    (Step::Get(1, 16, 32, 532), Answer::Nothing),
];

#[test]
fn pages_fill_their_places(rt: HostRuntime) {
    assert_none_differs(&rt, flown(rt.alloc(), &FULL));
}
