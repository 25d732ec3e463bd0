// Rows of calls on the table of moved pages, with what each answers.
use nl_remap::Remap;

#[derive(Clone, Copy)]
enum Step {
    Add(u32, u32),
    Drop(u32),
    Resolve(u32),
    NameOf(u32),
    Room,
    Len,
}

#[derive(Clone, Copy, PartialEq)]
enum Answer {
    Did,
    Number(u32),
    No,
    /// The call has a condition that does not hold.
    Unmet,
}

fn add(table: &mut Remap, old: u32, new: u32) -> Answer {
    if table.room() == 0 || old == new || table.resolve(old) != old || table.resolve(new) != new {
        return Answer::Unmet;
    }
    table.add(old, new);
    Answer::Did
}

fn run(table: &mut Remap, step: Step) -> Answer {
    match step {
        Step::Add(old, new) => add(table, old, new),
        Step::Drop(name) => {
            if table.drop_name(name) {
                Answer::Did
            } else {
                Answer::No
            }
        }
        Step::Resolve(name) => Answer::Number(table.resolve(name)),
        Step::NameOf(target) => match table.name_of(target) {
            Some(name) => Answer::Number(name),
            None => Answer::No,
        },
        Step::Room => Answer::Number(table.room()),
        Step::Len => Answer::Number(table.len()),
    }
}

/// The first row that is answered otherwise.
fn differs(table: &mut Remap, rows: &[(Step, Answer)]) -> Option<usize> {
    for row in 0..rows.len() {
        let (step, want) = rows[row];
        if run(table, step) != want {
            return Some(row);
        }
    }
    None
}

const MOVES: [(Step, Answer); 33] = [
    (Step::Room, Answer::Number(4)),
    (Step::Resolve(7), Answer::Number(7)),
    (Step::NameOf(7), Answer::No),
    (Step::Drop(7), Answer::No),
    (Step::Add(40, 50), Answer::Did),
    (Step::Resolve(40), Answer::Number(50)),
    (Step::NameOf(50), Answer::Number(40)),
    // The place of an old name is not given twice, and no target is an old name.
    (Step::Add(40, 60), Answer::Unmet),
    (Step::Add(30, 40), Answer::Unmet),
    (Step::Add(30, 30), Answer::Unmet),
    // The page moves on: both its names lead to the new place in one step.
    (Step::Add(50, 60), Answer::Did),
    (Step::Resolve(40), Answer::Number(60)),
    (Step::Resolve(50), Answer::Number(60)),
    (Step::NameOf(50), Answer::No),
    (Step::NameOf(60), Answer::Number(40)),
    (Step::Add(20, 90), Answer::Did),
    (Step::Add(60, 10), Answer::Did),
    (Step::Room, Answer::Number(0)),
    (Step::Len, Answer::Number(4)),
    (Step::Add(70, 80), Answer::Unmet),
    (Step::Resolve(40), Answer::Number(10)),
    (Step::Resolve(60), Answer::Number(10)),
    (Step::Resolve(20), Answer::Number(90)),
    (Step::NameOf(10), Answer::Number(40)),
    (Step::Drop(40), Answer::Did),
    (Step::Resolve(40), Answer::Number(40)),
    (Step::NameOf(10), Answer::Number(50)),
    (Step::Drop(40), Answer::No),
    (Step::Drop(50), Answer::Did),
    (Step::Drop(60), Answer::Did),
    (Step::NameOf(10), Answer::No),
    (Step::NameOf(90), Answer::Number(20)),
    (Step::Room, Answer::Number(3)),
];

// A page that is moved three times, and others.
#[test]
fn pages_move(rt: HostRuntime) {
    let mut table = Remap::new(rt.alloc(), 4).expect(&rt, "there is memory");
    assert_eq!(rt; differs(&mut table, &MOVES), None);
}
