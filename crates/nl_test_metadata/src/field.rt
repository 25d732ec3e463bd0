// Records byte by byte, from the text of the format, and bytes with one bit changed.
ghost use Rattle.std.specs.Prelude.{◌+◌, ◌<◌, ◌≤◌};

use bitflags::Flags;
use nl_field::{
    AddressList, CommitRec, EntryRec, Findings, HeaderRec, InodeRec, Kind, Memory, Name, PageBuf,
    Pointer, PointerList, SpareRec, SuperRec, Tag, What, shape_of, spare_into, spare_of,
};
use std::alloc::Global;

/// Bytes at offsets of a page, which has zeros elsewhere.
type Parts = &'static [(usize, &'static [u8])];

fn page_with(alloc: Global, parts: Parts) -> Result<PageBuf, Memory> {
    let mut page = PageBuf::new(alloc)?;
    for (at, bytes) in parts {
        put(&mut page, *at, bytes);
    }
    Ok(page)
}

fn put(page: &mut PageBuf, at: usize, bytes: &[u8]) {
    if at <= 4096 && bytes.len() <= 4096 - at {
        page.set_main(at, bytes);
    }
}

fn has(alloc: Global, page: &PageBuf, parts: Parts) -> Result<bool, Memory> {
    let want = page_with(alloc, parts)?;
    let is = page.main() == want.main();
    drop(want);
    Ok(is)
}

const SPARE: SpareRec = SpareRec::Physical {
    tag: Tag {
        ino: 1,
        generation: 1,
        index: 0,
    },
    stamp: 5,
    wear: 0,
};

fn spare_bytes() -> [u8; 64] {
    let mut bytes = [0; 64];
    bytes[0] = 2;
    bytes[8] = 5;
    bytes[16] = 1;
    bytes[20] = 1;
    bytes
}

// Whether another record is read where that bit is changed, and one at all just where the wear, the sequence number below its highest bit,
// or the owner has another value.
fn is_changed(at: usize, bit: u8) -> bool
    requires { at < 64 }
{
    let mut changed = spare_bytes();
    changed[at] ^= bit;
    let read = spare_of(&changed);
    let may = 4 <= at && at < 28 && !(at == 15 && bit == 128);
    read != Some(SPARE) && read.is_some() == may
}

// The first byte of the spare record with a bit that changes it otherwise, and 64 where there is none.
fn unchanged() -> usize {
    for at in 0..64 {
        for bit in [1u8, 2, 4, 8, 16, 32, 64, 128] {
            if !is_changed(at, bit) {
                return at;
            }
        }
    }
    64
}

fn is_spare() -> bool {
    let mut out = [255; 64];
    spare_into(&SPARE, &mut out);
    out == spare_bytes() && spare_of(&out) == Some(SPARE)
}

#[test]
fn spare_records(rt: HostRuntime) {
    assert!(rt; is_spare());
    assert_eq!(rt; unchanged(), 64);
}

/// A record of a page, each where the rows have it.
#[derive(Clone, Copy)]
enum Form {
    Super,
    Commit,
    Header,
    /// Node 1 of its page: a directory of one entry, whose page is at address 71.
    Directory,
    /// Node 0: a file of 4097 bytes with the pointer of name 256 and sequence number 9.
    File,
    /// The pointer of name 256 and sequence number 9.
    Pointer,
    /// Node 7 of generation 2 under the name `a!b`.
    Entry,
}

const SUPER: Parts = &[(0, b"NAMELESS\x01\0\0\0\x20\0\0\0\x20\0\0\0")];

const COMMIT: Parts = &[(0, b"NLCOMMIT\x07")];

// transaction 3, with the addresses 0 and 67
const HEADER: Parts = &[(
    0,
    b"NLHEADER\x03\0\0\0\0\0\0\0\x02\0\0\0\0\0\0\0\0\0\0\0\x43",
)];

const DIRECTORY: Parts = &[
    (256, b"\x02"),
    (260, b"\x05"),
    (264, b"\x01"),
    (448, b"\x47"),
];

const FILE: Parts = &[(0, b"\x01"), (8, b"\x01\x10"), (65, b"\x01"), (72, b"\x09")];

const ENTRY: Parts = &[(64, b"\x07"), (68, b"\x02"), (72, b"\x03a!b")];

const FRESH: SuperRec = SuperRec {
    version: 1,
    blocks: 32,
    pages: 32,
    count: 0,
};

const NINE: Pointer = Pointer {
    name: 256,
    stamp: 9,
};

fn is_directory(page: &PageBuf) -> bool {
    match InodeRec::of(page, 256) {
        Some(read) => {
            read.kind == Kind::Dir
                && read.generation == 5
                && read.size == 1
                && read.addresses[0] == 71
                && read.addresses[1] == 0
                && read.direct[0].is_none()
        }
        None => false,
    }
}

fn is_file(page: &PageBuf) -> bool {
    match InodeRec::of(page, 0) {
        Some(read) => read.kind == Kind::File && read.size == 4097 && read.direct[0] == NINE,
        None => false,
    }
}

fn is_header(page: &PageBuf) -> bool {
    match HeaderRec::of(page, 0) {
        Some(read) => read.number == 3 && read.addresses.as_slice() == [0, 67].as_slice(),
        None => false,
    }
}

fn is_entry(page: &PageBuf) -> bool {
    match EntryRec::of(page, 64) {
        Some(read) => {
            read.ino == 7 && read.generation == 2 && read.name.bytes() == b"a!b".as_slice()
        }
        None => false,
    }
}

fn is_read(page: &PageBuf, form: Form) -> bool {
    match form {
        Form::Super => SuperRec::of(page, 0) == Some(FRESH),
        Form::Commit => CommitRec::of(page, 0) == Some(CommitRec { number: 7 }),
        Form::Header => is_header(page),
        Form::Directory => is_directory(page),
        Form::File => is_file(page),
        Form::Pointer => Pointer::of(page, 64) == Some(NINE),
        Form::Entry => is_entry(page),
    }
}

fn is_none(page: &PageBuf, form: Form) -> bool {
    match form {
        Form::Super => SuperRec::of(page, 0).is_none(),
        Form::Commit => CommitRec::of(page, 0).is_none(),
        Form::Header => HeaderRec::of(page, 0).is_none(),
        Form::Directory => InodeRec::of(page, 256).is_none(),
        Form::File => InodeRec::of(page, 0).is_none(),
        Form::Pointer => Pointer::of(page, 64).is_none(),
        Form::Entry => EntryRec::of(page, 64).is_none(),
    }
}

// The bytes of a page with the record.
fn parts_of(form: Form) -> Parts {
    match form {
        Form::Super => SUPER,
        Form::Commit => COMMIT,
        Form::Header => HEADER,
        Form::Directory => DIRECTORY,
        Form::File | Form::Pointer => FILE,
        Form::Entry => ENTRY,
    }
}

const FORMS: [Form; 7] = [
    Form::Super,
    Form::Commit,
    Form::Header,
    Form::Directory,
    Form::File,
    Form::Pointer,
    Form::Entry,
];

fn is_spelled(alloc: Global, form: Form) -> Result<bool, Memory> {
    let page = page_with(alloc, parts_of(form))?;
    let is = is_read(&page, form);
    drop(page);
    Ok(is)
}

// How many of the forms are read from their bytes before the first that is not.
fn spelled(alloc: Global) -> Result<usize, Memory> {
    for (at, form) in FORMS.iter().enumerate() {
        if !is_spelled(alloc, *form)? {
            return Ok(at);
        }
    }
    Ok(FORMS.len())
}

#[test]
fn records_of_pages(rt: HostRuntime) {
    assert!(rt; spelled(rt.alloc()) == Ok(FORMS.len()));
}

/// A record, and an offset and a byte that is put there: then it is none.
type Changed = (Form, usize, u8);

const CHANGED: [Changed; 36] = [
    // a letter, the version, the gap, a count of 2^63, and the first and the last byte behind the record
    (Form::Super, 0, 0x6e),
    (Form::Super, 8, 2),
    (Form::Super, 20, 1),
    (Form::Super, 31, 0x80),
    (Form::Super, 32, 1),
    (Form::Super, 4095, 1),
    // a letter, the numbers 0 and 2^63 + 7, and a byte behind the record
    (Form::Commit, 7, 0x53),
    (Form::Commit, 8, 0),
    (Form::Commit, 15, 0x80),
    (Form::Commit, 16, 1),
    // no number, no address, three addresses, the gap, an address of 66, one above the last, and a byte behind the record
    (Form::Header, 8, 0),
    (Form::Header, 16, 0),
    (Form::Header, 16, 3),
    (Form::Header, 20, 1),
    (Form::Header, 28, 66),
    (Form::Header, 24, 68),
    (Form::Header, 32, 1),
    // another kind, links, a size of two pages, a pointer, a second address, no address
    (Form::Directory, 256, 3),
    (Form::Directory, 272, 1),
    (Form::Directory, 264, 65),
    (Form::Directory, 328, 1),
    (Form::Directory, 452, 72),
    (Form::Directory, 448, 0),
    // the pad of the pointer, and a sequence number of 0 and of 2^63 + 9
    (Form::File, 68, 1),
    (Form::File, 72, 0),
    (Form::File, 79, 0x80),
    (Form::Pointer, 68, 1),
    (Form::Pointer, 72, 0),
    (Form::Pointer, 79, 0x80),
    // a length of 0, 2, 4 and 56, a slash, a space, and a byte behind the name
    (Form::Entry, 72, 0),
    (Form::Entry, 72, 2),
    (Form::Entry, 72, 4),
    (Form::Entry, 72, 56),
    (Form::Entry, 74, 0x2f),
    (Form::Entry, 74, 0x20),
    (Form::Entry, 76, 1),
];

fn is_spoilt(alloc: Global, row: &Changed) -> Result<bool, Memory> {
    let (form, at, byte) = *row;
    let mut page = page_with(alloc, parts_of(form))?;
    put(&mut page, at, &[byte]);
    let is = is_none(&page, form);
    drop(page);
    Ok(is)
}

// How many of the changed records are read as none before the first that is read.
fn spoilt(alloc: Global) -> Result<usize, Memory> {
    for (at, row) in CHANGED.iter().enumerate() {
        if !is_spoilt(alloc, row)? {
            return Ok(at);
        }
    }
    Ok(CHANGED.len())
}

#[test]
fn records_with_a_changed_byte(rt: HostRuntime) {
    assert!(rt; spoilt(rt.alloc()) == Ok(CHANGED.len()));
}

fn spell_header(page: &mut PageBuf) {
    let mut addresses = AddressList::new();
    addresses.push(0);
    addresses.push(67);
    let header = HeaderRec {
        number: 3,
        addresses,
    };
    header.into_page(page, 0);
}

// Reads the node at an offset, and writes it over other bytes.
fn spell_node(page: &mut PageBuf, at: u32)
    requires { at + 256 ≤ 4096 }
{
    if let Some(read) = InodeRec::of(page, at) {
        page.set_main(at as usize + 44, b"other");
        read.into_page(page, at);
    }
}

fn spell_entry(page: &mut PageBuf) {
    if let Some(read) = EntryRec::of(page, 64) {
        page.set_main(80, b"junk");
        read.into_page(page, 64);
    }
}

// Writes the record of a form where the rows have it.
fn spell(page: &mut PageBuf, form: Form) {
    match form {
        Form::Super => FRESH.into_page(page, 0),
        Form::Commit => CommitRec { number: 7 }.into_page(page, 0),
        Form::Header => spell_header(page),
        Form::Directory => spell_node(page, 256),
        Form::File => spell_node(page, 0),
        Form::Pointer => NINE.into_page(page, 64),
        Form::Entry => spell_entry(page),
    }
}

// What stands at other bytes of a page before the record is written to it.
fn junk(form: Form) -> (usize, &'static [u8]) {
    match form {
        Form::Super => (4090, b"junk".as_slice()),
        Form::Commit => (16, b"junk".as_slice()),
        Form::Header => (32, b"junk".as_slice()),
        Form::Directory => (600, b"\x09".as_slice()),
        _ => (0, b"".as_slice()),
    }
}

// A page of a directory, a file or an entry has the record, which is read and written; another page has it written.
fn before(alloc: Global, form: Form) -> Result<PageBuf, Memory> {
    match form {
        Form::Directory | Form::File | Form::Entry => page_with(alloc, parts_of(form)),
        _ => PageBuf::new(alloc),
    }
}

// What a page has once the record is written to it.
fn after(form: Form) -> Parts {
    match form {
        Form::Pointer => &[(65, b"\x01"), (72, b"\x09")],
        Form::Directory => &[
            (256, b"\x02"),
            (260, b"\x05"),
            (264, b"\x01"),
            (448, b"\x47"),
            (600, b"\x09"),
        ],
        form => parts_of(form),
    }
}

fn is_written(alloc: Global, form: Form) -> Result<bool, Memory> {
    let mut page = before(alloc, form)?;
    let (at, bytes) = junk(form);
    put(&mut page, at, bytes);
    spell(&mut page, form);
    let is = has(alloc, &page, after(form));
    drop(page);
    is
}

// How many of the forms are written as their bytes before the first that is not.
fn written(alloc: Global) -> Result<usize, Memory> {
    for (at, form) in FORMS.iter().enumerate() {
        if !is_written(alloc, *form)? {
            return Ok(at);
        }
    }
    Ok(FORMS.len())
}

#[test]
fn records_are_written(rt: HostRuntime) {
    assert!(rt; written(rt.alloc()) == Ok(FORMS.len()));
}

const NAMES: [(&[u8], bool); 9] = [
    (b"a", true),
    (b"...", true),
    (b"\xff", true),
    (b"", false),
    (b".", false),
    (b"..", false),
    (b"\x7f", false),
    (&[b'x'; 55], true),
    (&[b'x'; 56], false),
];

// How many of the rows tell right whether their bytes are a name, before the first that does not.
fn named() -> usize {
    for (at, row) in NAMES.iter().enumerate() {
        let (bytes, is_name) = *row;
        if Name::of(bytes).is_some() != is_name {
            return at;
        }
    }
    NAMES.len()
}

#[test]
fn names(rt: HostRuntime) {
    assert_eq!(rt; named(), NAMES.len());
}

fn has_cap(blocks: u32, pages: u32, cap: u32) -> bool {
    match shape_of(blocks, pages) {
        Some(shape) => shape.cap == cap,
        None => false,
    }
}

#[test]
fn shapes(rt: HostRuntime) {
    let capped = has_cap(32, 32, 480) && has_cap(256, 64, 15_008) && has_cap(512, 64, 30_816);
    assert!(rt; capped && shape_of(31, 32).is_none() && shape_of(4096, 128).is_none());
}

// Three are pushed to a list without any, and the second alone is kept.
fn is_second_of_three(list: &mut PointerList) -> Result<bool, Memory> {
    if list.len() != 0 {
        return Ok(false);
    }
    list.reserve(2)?;
    list.push(NINE)?;
    list.push(Pointer { name: 7, stamp: 3 })?;
    list.push(NINE)?;
    if list.len() != 3 {
        return Ok(false);
    }
    list.set(1, Pointer { name: 8, stamp: 4 });
    list.drop_first(1);
    list.shorten(1);
    Ok(list.len() == 1 && *list.get(0) == Pointer { name: 8, stamp: 4 })
}

fn keeps_the_second(alloc: Global) -> Result<bool, Memory> {
    let mut list = PointerList::new(alloc);
    let is = is_second_of_three(&mut list);
    drop(list);
    is
}

#[test]
fn lists_of_pointers(rt: HostRuntime) {
    assert!(rt; keeps_the_second(rt.alloc()) == Ok(true));
}

fn are_found(findings: &mut Findings) -> bool {
    let none = findings.is_none();
    findings.add(What::Names);
    findings.add(What::Stamp);
    none && findings.has(What::Stamp)
        && findings.has(What::Names)
        && !findings.has(What::Crowded)
        && findings.bits() == 66
}

#[test]
fn findings(rt: HostRuntime) {
    let mut findings = Findings::none();
    assert!(rt; are_found(&mut findings));
}
