// The text of an answer.
use nl_field::Memory;
use nl_tree::{Refusal, Reply, Space};
use std::alloc::Global;

fn refusal_word(refusal: Refusal) -> &'static str {
    match refusal {
        Refusal::Enoent => "ENOENT",
        Refusal::Eexist => "EEXIST",
        Refusal::Enotdir => "ENOTDIR",
        Refusal::Eisdir => "EISDIR",
        Refusal::Enotempty => "ENOTEMPTY",
        Refusal::Einval => "EINVAL",
        Refusal::Enametoolong => "ENAMETOOLONG",
        Refusal::Efbig => "EFBIG",
        Refusal::Enospc(Space::Dir) => "ENOSPC dir",
        Refusal::Enospc(Space::Nodes) => "ENOSPC nodes",
        Refusal::Enospc(Space::Meta) => "ENOSPC meta",
        Refusal::Enospc(Space::Pages) => "ENOSPC data",
    }
}

fn content_text(alloc: Global, bytes: &[u8]) -> Result<String, Memory> {
    if bytes.is_empty() {
        return String::from_str(alloc, "ok -");
    }
    let mut text = String::from_str(alloc, "ok ")?;
    let digits = hex::encode(alloc, bytes)?;
    text.push_str(digits.as_str())?;
    Ok(text)
}

fn names_text(alloc: Global, count: u32, bytes: &[u8]) -> Result<String, Memory> {
    let names = String::from_utf8_lossy(alloc, bytes)?;
    format!(in alloc; "ok {count}{names}")
}

/// What is printed of a reply and the bytes that come with it, behind the number of the line and the place. No plain tree gives a fault.
pub(crate) fn answer_text(alloc: Global, reply: Reply, bytes: &[u8]) -> Result<String, Memory> {
    match reply {
        Reply::Done => String::from_str(alloc, "ok"),
        Reply::Count(count) => format!(in alloc; "ok {count}"),
        Reply::Content => content_text(alloc, bytes),
        Reply::Names(count) => names_text(alloc, count, bytes),
        Reply::File { size, pages } => format!(in alloc; "ok file {size} {pages}"),
        Reply::Dir { entries } => format!(in alloc; "ok dir {entries}"),
        Reply::Synced { upto, moment: _ } => format!(in alloc; "ok {upto}"),
        Reply::No(refusal) => String::from_str(alloc, refusal_word(refusal)),
        Reply::Fault(_) => String::from_str(alloc, "a fault"),
    }
}
