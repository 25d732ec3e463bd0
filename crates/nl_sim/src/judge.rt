// Whether what a run tells is what a plain tree answers, in an order in which its lines may be answered.
use crate::answer::answer_text;
use crate::history::History;
use crate::order::{
    Row, is_changing, is_since, is_within, leaves_out, position_of, rows_of, waits,
};
use crate::wrong::Wrong;
use nl_field::Memory;
use nl_nand::{MemNand, Nand};
use nl_testkit_program::program::Told;
use nl_tree::{Call, Lines};
use std::alloc::Global;

/// The calls of a medium that failed: reads, and formings, programs and erases.
#[derive(Clone, Copy)]
pub(crate) struct Faults {
    pub(crate) reads: u64,
    pub(crate) writes: u64,
}

impl Faults {
    /// The calls of the medium that failed since it was made or restarted.
    pub(crate) fn of(media: &MemNand) -> Faults {
        Faults {
            reads: media.read_faults(),
            writes: media.write_faults(),
        }
    }

    /// How many calls failed.
    pub(crate) fn sum(self) -> u64 {
        self.reads.saturating_add(self.writes)
    }
}

/// How a run ended that was judged right: how many calls a stop cannot lose, and whether a call of the medium failed.
#[derive(Clone, Copy)]
pub(crate) struct Ended {
    pub(crate) durable: u64,
    pub(crate) rose: bool,
}

// What is known of a run while its lines are judged.
#[derive(Drop)]
struct Course {
    rows: Vec<Row>,
    opened: u64,
    durable: u64,
    before: Faults,
    after: Faults,
    // The numbers of the lines that failed.
    failed: Vec<u64>,
    // The number with which lines are refused by a read-only volume, 0 where none is.
    refused: u64,
}

// A fault reply.
#[derive(Clone, Copy)]
enum Fault {
    Failed(u64),
    Refused(u64),
}

// The number of these digits, if they are its one spelling.
fn number_of(digits: &str) -> Option<u64> {
    if digits.len() > 1 && digits.starts_with('0') || digits.starts_with('+') {
        return None;
    }
    digits.parse::<u64>().ok()
}

fn fault_of(answer: &str) -> Option<Fault> {
    if let Some(digits) = answer.strip_prefix("EIO ") {
        return match number_of(digits) {
            Some(number) => Some(Fault::Failed(number)),
            None => None,
        };
    }
    match number_of(answer.strip_prefix("EROFS ")?) {
        Some(number) => Some(Fault::Refused(number)),
        None => None,
    }
}

impl Course {
    fn new(
        alloc: Global,
        lines: &Lines,
        opened: u64,
        before: Faults,
        after: Faults,
    ) -> Result<Course, Memory> {
        Ok(Course {
            rows: rows_of(alloc, lines)?,
            opened,
            durable: opened,
            before,
            after,
            failed: Vec::new(alloc),
            refused: 0,
        })
    }

    fn row(&self, at: u32) -> Option<Row> {
        self.rows.get(at as usize).copied()
    }

    fn give_place(&mut self, at: u32, place: u64) {
        if let Some(row) = self.rows.get_mut(at as usize) {
            row.place = place;
        }
    }

    // Whether a line may fail with this number: a call of the medium failed since the opening, and no other line has the number.
    fn may_fail(&mut self, number: u64) -> Result<bool, Memory> {
        if !is_since(self.before.sum(), number, self.after.sum()) || self.failed.contains(&number) {
            return Ok(false);
        }
        self.failed.push(number)?;
        Ok(true)
    }

    // Whether a line may be refused with this number: it changes something, a program or an erase failed since the opening, and all refused
    // lines have the number.
    fn may_be_refused(&mut self, number: u64, call: &Call) -> bool {
        let is_one = self.refused == 0 || self.refused == number;
        self.refused = number;
        is_one
            && is_changing(call)
            && self.before.writes < self.after.writes
            && is_since(self.before.sum(), number, self.after.sum())
    }

    fn may_meet(&mut self, fault: Fault, call: &Call) -> Result<bool, Memory> {
        match fault {
            Fault::Failed(number) => self.may_fail(number),
            Fault::Refused(number) => Ok(self.may_be_refused(number, call)),
        }
    }

    // Whether a sync may answer so: it tells a number below its place, and each line that had to be answered before is among these calls.
    fn may_sync(&mut self, answer: &str, row: &Row, place: u64) -> bool {
        let Some(digits) = answer.strip_prefix("ok ") else {
            return false;
        };
        let Some(upto) = number_of(digits) else {
            return false;
        };
        self.durable = self.durable.max(upto);
        is_within(self.opened, upto, place) && !leaves_out(self.rows.as_slice(), row, upto)
    }
}

/// The longest answer that is noted.
const LONGEST: usize = 300;

// Notes what was answered at a place, and what was due.
fn note_answer(history: &mut History, place: u64, answer: &str, due: &str) -> Result<(), Memory> {
    let alloc = history.alloc;
    if answer.len() > LONGEST || due.len() > LONGEST {
        let note = format!(in alloc; "place {place}")?;
        return history.note(note.as_str());
    }
    let note = format!(in alloc; "place {place}: {answer}, due: {due}")?;
    history.note(note.as_str())
}

// Whether the line at a position may answer so, where it meets no fault. The plain tree makes its call.
fn is_due(
    history: &mut History,
    lines: &Lines,
    at: u32,
    answer: &str,
    place: u64,
) -> Result<bool, Memory> {
    if lines.len() <= at {
        return Ok(false);
    }
    let reply = history.reply(&lines.get(at).call)?;
    let due = answer_text(history.alloc, reply, history.bytes())?;
    let is = due.as_str() == answer;
    let noted = if is {
        Ok(())
    } else {
        note_answer(history, place, answer, due.as_str())
    };
    drop(due);
    noted?;
    Ok(is)
}

// Gives the line at a position its place, where it may be answered now.
fn take_turn(course: &mut Course, at: u32, place: u64) -> Result<Row, Wrong> {
    let Some(row) = course.row(at) else {
        return Err(Wrong::Differs("a line that the script has not"));
    };
    if row.place != 0 {
        return Err(Wrong::Differs("a line is answered twice"));
    }
    if waits(course.rows.as_slice(), &row) {
        return Err(Wrong::Differs("a line is answered before its time"));
    }
    course.give_place(at, place);
    Ok(row)
}

// Judges a fault reply.
fn judge_fault(
    history: &mut History,
    course: &mut Course,
    call: &Call,
    fault: Fault,
    answer: &str,
    place: u64,
) -> Result<(), Wrong> {
    if course.may_meet(fault, call)? {
        return Ok(());
    }
    note_answer(history, place, answer, "no such fault")?;
    Err(Wrong::Differs("a fault without a cause"))
}

// Judges the answer of a sync that met no fault.
fn judge_sync(
    history: &mut History,
    course: &mut Course,
    row: &Row,
    answer: &str,
    place: u64,
) -> Result<(), Wrong> {
    if course.may_sync(answer, row, place) {
        return Ok(());
    }
    note_answer(history, place, answer, "the calls before")?;
    Err(Wrong::Differs("the number of a sync"))
}

// Judges the answer of the line at a position, whose turn it is, and tells whether its call may have changed the tree.
fn judge_answer(
    history: &mut History,
    lines: &Lines,
    course: &mut Course,
    at: u32,
    answer: &str,
) -> Result<bool, Wrong> {
    let place = history.count().saturating_add(1);
    let row = take_turn(course, at, place)?;
    if lines.len() <= at {
        return Err(Wrong::Differs("a line that the script has not"));
    }
    let call = &lines.get(at).call;
    if let Some(fault) = fault_of(answer) {
        judge_fault(history, course, call, fault, answer, place)?;
        return Ok(false);
    }
    if let Call::Sync = call {
        judge_sync(history, course, &row, answer, place)?;
        return Ok(false);
    }
    if is_due(history, lines, at, answer, place)? {
        Ok(is_changing(call))
    } else {
        Err(Wrong::Differs("an answer"))
    }
}

// The number with which a printed line begins.
fn line_number(printed: &str) -> Option<u32> {
    let (digits, _) = printed.split_once(' ')?;
    digits.parse::<u32>().ok()
}

// Judges a printed line, and adds its call to the history.
fn judge_line(
    history: &mut History,
    lines: &Lines,
    course: &mut Course,
    printed: &str,
) -> Result<(), Wrong> {
    let Some(number) = line_number(printed) else {
        return Err(Wrong::Differs("a line without a number"));
    };
    let place = history.count().saturating_add(1);
    let front = format!(in history.alloc; "{number} @{place} ")?;
    let answer = printed.strip_prefix(front.as_str());
    drop(front);
    let Some(answer) = answer else {
        return Err(Wrong::Differs("the place of a line"));
    };
    let Some(at) = position_of(lines, number) else {
        return Err(Wrong::Differs("a line that the script has not"));
    };
    let changes = judge_answer(history, lines, course, at, answer)?;
    history.add(at, changes)?;
    Ok(())
}

// Judges the printed lines: one for each line of the script, and no more.
fn judge_lines(
    history: &mut History,
    lines: &Lines,
    course: &mut Course,
    body: &str,
) -> Result<(), Wrong> {
    let mut rest = body;
    for _ in 0..lines.len() {
        let Some((printed, after)) = rest.split_once('\n') else {
            return Err(Wrong::Differs("fewer lines than the script has"));
        };
        judge_line(history, lines, course, printed)?;
        rest = after;
    }
    if rest.is_empty() {
        Ok(())
    } else {
        Err(Wrong::Differs("more lines than the script has"))
    }
}

// Judges the printed lines of a run, and tells how many calls a stop cannot lose behind it.
fn judge_body(
    history: &mut History,
    lines: &Lines,
    body: &str,
    before: Faults,
    after: Faults,
) -> Result<u64, Wrong> {
    let mut course = Course::new(history.alloc, lines, history.count(), before, after)?;
    let judged = judge_lines(history, lines, &mut course, body);
    let durable = course.durable;
    drop(course);
    judged?;
    Ok(durable)
}

/// Judges what a run of these lines told, where so many calls of the medium had failed before it and behind it, and adds its calls to the
/// history. The status is 5 exactly where more have failed behind it. A run whose opening failed tells no line.
pub(crate) fn judge(
    history: &mut History,
    lines: &Lines,
    told: &Told,
    before: Faults,
    after: Faults,
) -> Result<Ended, Wrong> {
    let rose = before.sum() < after.sum();
    let opened = history.count();
    let wanted = if rose { 5 } else { 0 };
    if told.status != wanted {
        return Err(Wrong::Differs("the status of a run"));
    }
    if rose && told.text() == b"medium fault\n".as_slice() {
        return Ok(Ended {
            durable: opened,
            rose,
        });
    }
    let Ok(text) = str::from_utf8(told.text()) else {
        return Err(Wrong::Differs("the bytes of a text"));
    };
    let front = format!(in history.alloc; "opened {opened}\n")?;
    let body = text.strip_prefix(front.as_str());
    drop(front);
    match body {
        Some(body) => Ok(Ended {
            durable: judge_body(history, lines, body, before, after)?,
            rose,
        }),
        None => Err(Wrong::Differs("the count of an opening")),
    }
}
