// Lines of several workers of which each but a sync is answered in one way, whatever the order.
use nl_field::Memory;
use nl_testkit_program::program::Told;
use std::alloc::Global;
use std::fmt::Write;

/// A line, and its answer. A sync has none, and the end of a round is a line of no worker.
#[derive(Drop)]
struct Due {
    worker: Option<u8>,
    round: u32,
    answer: String,
}

/// The lines of a script.
#[derive(Drop)]
pub struct Workload {
    script: String,
    due: Vec<Due>,
    round: u32,
}

impl Workload {
    /// A script without lines.
    pub fn new(alloc: Global) -> Workload {
        Workload {
            script: String::new(alloc),
            due: Vec::new(alloc),
            round: 0,
        }
    }

    /// Puts a call of a worker behind the others, with the answer that is due; a failure is want of memory.
    pub fn add(
        &mut self,
        alloc: Global,
        worker: u8,
        call: &str,
        answer: &str,
    ) -> Result<(), Memory> {
        write!(self.script, "{worker} {call}\n")?;
        self.due.push(Due {
            worker: Some(worker),
            round: self.round,
            answer: String::from_str(alloc, answer)?,
        })?;
        Ok(())
    }

    /// Puts a sync of a worker behind the others; a failure is want of memory.
    pub fn sync(&mut self, alloc: Global, worker: u8) -> Result<(), Memory> {
        self.add(alloc, worker, "sync", "")
    }

    /// Puts a barrier behind the lines: those behind it wait for all before it; a failure is want of memory.
    pub fn barrier(&mut self, alloc: Global) -> Result<(), Memory> {
        self.script.push_str("barrier\n")?;
        self.due.push(Due {
            worker: None,
            round: self.round,
            answer: String::new(alloc),
        })?;
        self.round = self.round.saturating_add(1);
        Ok(())
    }

    /// The text of the lines.
    pub fn script(&self) -> &str {
        self.script.as_str()
    }

    /// How many lines are answered.
    pub fn calls(&self) -> usize {
        self.due.iter().filter(|due| due.worker.is_some()).count()
    }

    // Whether one line comes before another in each order.
    fn precedes(&self, before: usize, at: usize) -> bool {
        match (self.due.get(before), self.due.get(at)) {
            (Some(before), Some(at)) => before.round < at.round || before.worker == at.worker,
            _ => false,
        }
    }

    fn is_sync(&self, at: usize) -> bool {
        match self.due.get(at) {
            Some(due) => due.worker.is_some() && due.answer.is_empty(),
            None => false,
        }
    }
}

/// What the answered lines are told as, of a volume after so many calls: the text, the place of each line of the script, and the durable
/// count of each sync, 0 where there is none.
#[derive(Drop)]
struct Course {
    text: String,
    places: Vec<u64>,
    durable: Vec<u64>,
}

fn answer_of(alloc: Global, work: &Workload, line: usize, upto: u64) -> Result<String, Memory> {
    if work.is_sync(line) {
        return format!(in alloc; "ok {upto}");
    }
    match work.due.get(line) {
        Some(due) => String::from_str(alloc, due.answer.as_str()),
        None => String::from_str(alloc, "no line"),
    }
}

fn put(values: &mut Vec<u64>, at: usize, value: u64) {
    if let Some(slot) = values.get_mut(at) {
        *slot = value;
    }
}

fn upto_of(told: &Told, line: u32) -> u64 {
    let mut upto = 0;
    for at in 0..told.syncs.len() {
        let sync = told.syncs.get(at);
        if sync.line == line {
            upto = sync.upto;
        }
    }
    upto
}

fn course_of(alloc: Global, work: &Workload, told: &Told, opened: u64) -> Result<Course, Memory> {
    let mut text = format!(in alloc; "opened {opened}\n")?;
    let mut places = vec![in alloc; 0u64; work.due.len()]?;
    let mut durable = vec![in alloc; 0u64; work.due.len()]?;
    let mut place = opened;
    for at in 0..told.order.len() {
        let line = told.order.get(at).line;
        let index = (line as usize).saturating_sub(1);
        place = place.saturating_add(1);
        let upto = upto_of(told, line);
        let answer = answer_of(alloc, work, index, upto)?;
        write!(text, "{line} @{place} {answer}\n")?;
        put(&mut places, index, place);
        put(&mut durable, index, upto);
    }
    Ok(Course {
        text,
        places,
        durable,
    })
}

fn value(values: &[u64], at: usize) -> u64 {
    match values.get(at) {
        Some(value) => *value,
        None => 0,
    }
}

// Whether the places keep the order of a worker's lines and of the rounds, and each sync tells a count below its place that has all lines
// before it.
fn is_ordered(work: &Workload, course: &Course) -> bool {
    for at in 0..work.due.len() {
        let place = value(&course.places, at);
        let durable = value(&course.durable, at);
        if work.is_sync(at) && place <= durable {
            return false;
        }
        for before in 0..at {
            let earlier = value(&course.places, before);
            if work.precedes(before, at) && place != 0 && place < earlier {
                return false;
            }
            if work.is_sync(at) && work.precedes(before, at) && durable < earlier {
                return false;
            }
        }
    }
    true
}

/// Whether these lines are told as wanted on a volume after so many calls: each line has one place, the places are those behind the count,
/// and each answer is that of its line.
pub fn is_course(alloc: Global, work: &Workload, told: &Told, opened: u64) -> Result<bool, Memory> {
    let course = course_of(alloc, work, told, opened)?;
    let placed = course.places.iter().filter(|place| **place > 0).count();
    let all = told.order.len() as usize == work.calls() && placed == work.calls();
    let is = told.text() == course.text.as_bytes() && all && is_ordered(work, &course);
    drop(course);
    Ok(is)
}
