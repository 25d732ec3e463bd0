// Each form of text, written into a sink in memory.
use bitflags::Flags;
use nl_field::{FailList, Findings, Name, Place, Shape, Text, What, shape_of};
use nl_io::{MemSink, Sink, SinkAnswer};
use nl_print::{
    answer_line, damaged_line, dir_line, file_line, findings_lines, formatted_line, number_line,
    refused_line, report_lines, soak_lines, word_line,
};
use nl_tree::{FaultReply, Path, Refusal, Reply, Space, WalkPath};
use std::alloc::Global;

fn sink_with(alloc: Global, room: u32) -> Option<MemSink> {
    MemSink::new(alloc, room, FailList::new(alloc)).ok()
}

/// A reply, its bytes, and its line.
type Row = (Reply, &'static str, &'static str);

const ANSWERS: [Row; 25] = [
    (Reply::Done, "", "7 @12 ok\n"),
    (Reply::Count(65536), "", "7 @12 ok 65536\n"),
    (Reply::Content, "\n~", "7 @12 ok 0a7e\n"),
    (Reply::Content, "", "7 @12 ok -\n"),
    (Reply::Names(2), " b d/", "7 @12 ok 2 b d/\n"),
    (Reply::Names(0), "", "7 @12 ok 0\n"),
    (
        Reply::File {
            size: 16809984,
            pages: 16,
        },
        "",
        "7 @12 ok file 16809984 16\n",
    ),
    (Reply::Dir { entries: 1024 }, "", "7 @12 ok dir 1024\n"),
    (Reply::Synced { upto: 3, moment: 9 }, "", "7 @12 ok 3\n"),
    (Reply::No(Refusal::Enoent), "", "7 @12 ENOENT\n"),
    (Reply::No(Refusal::Eexist), "", "7 @12 EEXIST\n"),
    (Reply::No(Refusal::Enotdir), "", "7 @12 ENOTDIR\n"),
    (Reply::No(Refusal::Eisdir), "", "7 @12 EISDIR\n"),
    (Reply::No(Refusal::Enotempty), "", "7 @12 ENOTEMPTY\n"),
    (Reply::No(Refusal::Einval), "", "7 @12 EINVAL\n"),
    (Reply::No(Refusal::Enametoolong), "", "7 @12 ENAMETOOLONG\n"),
    (Reply::No(Refusal::Efbig), "", "7 @12 EFBIG\n"),
    (
        Reply::No(Refusal::Enospc(Space::Dir)),
        "",
        "7 @12 ENOSPC dir\n",
    ),
    (
        Reply::No(Refusal::Enospc(Space::Nodes)),
        "",
        "7 @12 ENOSPC nodes\n",
    ),
    (
        Reply::No(Refusal::Enospc(Space::Meta)),
        "",
        "7 @12 ENOSPC meta\n",
    ),
    (
        Reply::No(Refusal::Enospc(Space::Pages)),
        "",
        "7 @12 ENOSPC data\n",
    ),
    (
        Reply::Fault(FaultReply::Eio(18446744073709551615)),
        "",
        "7 @12 EIO 18446744073709551615\n",
    ),
    (Reply::Fault(FaultReply::Erofs(1)), "", "7 @12 EROFS 1\n"),
    (Reply::Fault(FaultReply::Eworn), "", "7 @12 EWORN\n"),
    (
        Reply::Fault(FaultReply::Edamaged {
            wanted: 12,
            found: 0,
        }),
        "",
        "7 @12 EDAMAGED 12 0\n",
    ),
];

// Whether the answer of line 7 at place 12 has this text.
fn is_line(alloc: Global, reply: &Reply, bytes: &[u8], text: &[u8]) -> Option<bool> {
    let mut sink = sink_with(alloc, 64)?;
    let answer = answer_line(&mut sink, 7, 12, reply, bytes);
    Some(answer == SinkAnswer::Took && sink.bytes() == text)
}

// The first line that differs.
fn differs(alloc: Global, rows: &[Row]) -> Option<&'static str> {
    for row in 0..rows.len() {
        let (reply, bytes, text) = rows[row];
        if is_line(alloc, &reply, bytes.as_bytes(), text.as_bytes()) != Some(true) {
            return Some(text);
        }
    }
    None
}

#[test]
fn each_answer_has_its_line(rt: HostRuntime) {
    assert_eq!(rt; differs(rt.alloc(), &ANSWERS), None);
}

fn path_of(alloc: Global, names: &[&[u8]]) -> Option<Path> {
    let mut path = Path::new(alloc);
    for at in 0..names.len() {
        path.push(Text::of(alloc, names[at]).ok()?).ok()?;
    }
    Some(path)
}

fn dir(sink: &mut MemSink, alloc: Global, names: &[&[u8]], entries: u32) -> Option<SinkAnswer> {
    Some(dir_line(sink, &path_of(alloc, names)?, entries))
}

fn file(sink: &mut MemSink, alloc: Global, names: &[&[u8]]) -> Option<SinkAnswer> {
    Some(file_line(sink, &path_of(alloc, names)?, 4, 1))
}

const TOOK: Option<SinkAnswer> = Some(SinkAnswer::Took);

fn path_lines(sink: &mut MemSink, alloc: Global) -> bool {
    number_line(sink, b"opened", 13) == SinkAnswer::Took
        && dir(sink, alloc, &[], 1) == TOOK
        && dir(sink, alloc, &[b"home"], 1) == TOOK
        && file(sink, alloc, &[b"home", b"note"]) == TOOK
}

// Whether each line is taken, and they have this text.
fn are_paths(alloc: Global, text: &[u8]) -> Option<bool> {
    let mut sink = sink_with(alloc, 1000)?;
    Some(path_lines(&mut sink, alloc) && sink.bytes() == text)
}

#[test]
fn paths_and_counts(rt: HostRuntime) {
    let text = b"opened 13\nd / 1\nd /home 1\nf /home/note 4 1\n";
    assert_eq!(rt; are_paths(rt.alloc(), text), Some(true));
}

fn volume_lines(sink: &mut MemSink, shape: &Shape) -> [SinkAnswer; 3] {
    let formatted = formatted_line(sink, shape);
    let report = report_lines(sink, shape, 4, 1, 2, 3, 5, 6, 7, 8);
    [
        formatted,
        report,
        soak_lines(sink, 1608, 1500, 20, 7, 3, 2, 1),
    ]
}

fn ending_lines(sink: &mut MemSink) -> [SinkAnswer; 5] {
    let at = Place {
        place: 1,
        what: What::Pointer,
    };
    let refused = refused_line(sink, 1, 14, b"hex");
    let damaged = damaged_line(sink, &at);
    let all = findings_lines(sink, Findings::from_bits_retain(511));
    let names = findings_lines(sink, Findings::NAMES);
    [refused, damaged, all, names, word_line(sink, b"blank")]
}

// Whether each line is taken, and they have this text.
fn are_endings(alloc: Global, text: &[u8]) -> Option<bool> {
    let shape = shape_of(32, 32)?;
    let mut sink = sink_with(alloc, 1000)?;
    let volume = volume_lines(&mut sink, &shape) == [SinkAnswer::Took; 3];
    let ending = ending_lines(&mut sink) == [SinkAnswer::Took; 5];
    Some(volume && ending && sink.bytes() == text)
}

#[test]
fn volumes_and_endings(rt: HostRuntime) {
    let text =
        b"formatted blocks 32 pages 32 data 480 nodes 64 meta 32\nopened 4\nblocks virtual 8 physical 24\npages data 1 of 480 nodes 2 of 64 meta 3 of 32\nremap 5\nwear least 6 greatest 7\nstamp 8\nsoak calls 1608 ok 1500 refused 108\nbytes written 20 read 7\ndata 3 nodes 2 meta 1\nscript 1 14 hex\ndamaged 1 pointer\nsuper\nstamp\ninode\npages\nentry\npointer\nnames\ncharges\ncrowded\nnames\nblank\n";
    assert_eq!(rt; are_endings(rt.alloc(), text), Some(true));
}

// The second and the fourth write fail.
fn failing(alloc: Global) -> Option<MemSink> {
    let mut failing = FailList::new(alloc);
    failing.push(2).ok()?;
    failing.push(4).ok()?;
    MemSink::new(alloc, 1000, failing).ok()
}

// A line is one write, and a longer one is written in pieces. Whether each answer is the one that is due, with its faults.
fn are_answered(sink: &mut MemSink) -> bool {
    answer_line(sink, 1, 1, &Reply::Content, b"ab") == SinkAnswer::Took
        && answer_line(sink, 2, 2, &Reply::Names(1), b" a") == SinkAnswer::Failed
        && sink.faults() == 1
        && answer_line(sink, 3, 3, &Reply::Content, [0u8; 1500].as_slice()) == SinkAnswer::Failed
        && sink.faults() == 2
}

fn takes_a_prefix(alloc: Global, text: &[u8]) -> Option<bool> {
    let mut sink = failing(alloc)?;
    Some(are_answered(&mut sink) && sink.bytes() == text)
}

#[test]
fn a_failing_sink_takes_a_prefix(rt: HostRuntime) {
    let text = b"1 @1 ok 6162\n3 @3 ok ";
    assert_eq!(rt; takes_a_prefix(rt.alloc(), text), Some(true));
}

fn walk_to(alloc: Global) -> Option<WalkPath> {
    let mut path = WalkPath::new(alloc, 2).ok()?;
    path.push(Name::of(b"home")?);
    path.push(Name::of(b"note")?);
    Some(path)
}

fn walk_lines(sink: &mut MemSink, path: &mut WalkPath) -> ([SinkAnswer; 3], bool) {
    let note = file_line(sink, path, 4, 1);
    let is_popped = path.pop().is_some();
    let failed = dir_line(sink, path, 1);
    ([note, failed, dir_line(sink, path, 1)], is_popped)
}

// Whether the second line fails, and the others have this text.
fn are_walked(alloc: Global, text: &[u8]) -> Option<bool> {
    let mut path = walk_to(alloc)?;
    let mut sink = failing(alloc)?;
    let (answers, is_popped) = walk_lines(&mut sink, &mut path);
    let want = [SinkAnswer::Took, SinkAnswer::Failed, SinkAnswer::Took];
    Some(is_popped && answers == want && sink.bytes() == text)
}

#[test]
fn a_walk_prints_its_path(rt: HostRuntime) {
    let text = b"f /home/note 4 1\nd /home 1\n";
    assert_eq!(rt; are_walked(rt.alloc(), text), Some(true));
}
