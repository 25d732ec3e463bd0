// The scripts of soaks: a text that another program made, their sizes, and what a small volume answers.
use nl_field::{Memory, shape_of};
use nl_gen::soak_script;
use nl_script::script_of;
use nl_tree::{Lines, Refusal, Reply, ReplyBuf};
use nl_tree_model::Plain;
use std::alloc::Global;

/// What another program gives for the number 7, 16 lines and 2 workers.
const SIXTEEN: &str = "\
0 mkdir /w0\n\
1 mkdir /w1\n\
0 stat /w0/f1\n\
1 create /w1/f0\n\
0 read /w0/f3 23356 109\n\
1 create /w1/f1\n\
0 write /w0/f2 21537 2b28c497\n\
1 read /w1/f1 8975 112\n\
0 fill /w0/f1 13231 3725 91\n\
1 read /w1/f0 91027 28\n\
0 create /w0/f3\n\
1 read /w1/f1 3773 88\n\
0 truncate /w0/f2 29651\n\
1 write /w1/f2 27794 c06fcf57\n\
0 sync\n\
1 unlink /w1/f2\n\
0 truncate /w0/f3 1\n\
1 create /w1/f0\n\
0 read /w0/f2 28940 244\n\
1 fill /w1/f0 55828 18079 82\n\
0 write /w0/f0 19255 b88c11d0\n\
1 create /w1/f1\n\
0 truncate /w0/f1 27780\n\
1 fill /w1/f1 6380 13815 65\n\
0 read /w0/f0 51252 155\n\
1 create /w1/f2\n\
0 write /w0/f2 7671 3a939e4e\n\
1 create /w1/f3\n\
0 read /w0/f2 19446 192\n\
1 fill /w1/f3 8204 7397 77\n\
0 write /w0/f0 16707 a6ddf8e1\n\
1 rename /w1/f2 /w1/f3\n\
0 read /w0/f2 9484 221\n\
1 rename /w1/f2 /w1/f3\n\
";

fn is_text(alloc: Global, want: &str) -> Option<bool> {
    let text = soak_script(alloc, 7, 16, 2).ok()?;
    Some(text.bytes() == want.as_bytes())
}

#[test]
fn two_workers_with_sixteen_lines(rt: HostRuntime) {
    assert_eq!(rt; is_text(rt.alloc(), SIXTEEN), Some(true));
}

// How many bytes the script of eight workers with 200 lines has, and how many lines it is read as.
fn sizes(alloc: Global) -> Option<(usize, u32)> {
    let text = soak_script(alloc, 7, 200, 8).ok()?;
    match script_of(alloc, text.bytes()) {
        Ok(lines) => Some((text.bytes().len(), lines.len())),
        Err(_) => None,
    }
}

#[test]
fn eight_workers_have_a_script(rt: HostRuntime) {
    assert_eq!(rt; sizes(rt.alloc()), Some((37386, 1608)));
}

// How many calls of the lines were done, and how many were refused since the volume was full.
fn replies_of(alloc: Global, lines: &Lines, plain: &mut Plain) -> Result<(u32, u32), Memory> {
    let mut out = ReplyBuf::new(alloc)?;
    let mut done = 0;
    let mut full = 0;
    for at in 0..lines.len() {
        match plain.step(&lines.get(at).call, &mut out)? {
            Reply::No(Refusal::Enospc(_)) => full += 1,
            Reply::No(_) => {}
            _ => done += 1,
        }
    }
    Ok((done, full))
}

fn drawn(alloc: Global, seed: u64, count: u32, workers: u8) -> Option<Lines> {
    if count == 0 || count > 20000 || workers == 0 || workers > 8 {
        return None;
    }
    let text = soak_script(alloc, seed, count, workers).ok()?;
    script_of(alloc, text.bytes()).ok()
}

// Whether more than half of the lines were done, and none was refused since the volume was full.
fn has_room(alloc: Global, seed: u64, count: u32, workers: u8) -> Option<bool> {
    let lines = drawn(alloc, seed, count, workers)?;
    let mut plain = Plain::new(alloc, shape_of(32, 32)?).ok()?;
    let (done, full) = replies_of(alloc, &lines, &mut plain).ok()?;
    Some(full == 0 && done > lines.len() / 2)
}

const SEEDS: [(u64, u32, u8); 3] = [(7, 200, 8), (1, 300, 8), (2, 40, 1)];

// How many of the rows have room before the first that has none.
fn having_room(alloc: Global, rows: &[(u64, u32, u8)]) -> usize {
    for (at, row) in rows.iter().enumerate() {
        let (seed, count, workers) = *row;
        if has_room(alloc, seed, count, workers) != Some(true) {
            return at;
        }
    }
    rows.len()
}

// The least volume has room for what eight workers do.
#[test]
fn no_call_meets_a_full_volume(rt: HostRuntime) {
    assert_eq!(rt; having_room(rt.alloc(), &SEEDS), 3);
}
