// Calls on names, and what they answered.
ghost use Rattle.std.specs.Prelude.{◌≡◌, None};
ghost use Rattle.nl_iface.specs.Calls.{OnlyReads};
ghost use Rattle.nl_namespace.specs.Calls.{PathsHaveNames, IsOfNames};
ghost use Rattle.nl_test_namespace.specs.Volumes.{IsOpen, gone_of};
ghost use Rattle.nl_meta_running.specs.Running.{IsDirectoryAt, IsUsedNode};

use nl_field::Kind;
use nl_iface::VirtualPages;
use nl_inode::Nodes;
use nl_meta::Meta;
use nl_meta_running::node;
use nl_namespace::{Change, Listing, Look, change, list, look};
use nl_tree::{Call, Path, Refusal, ReplyBuf};

/// What a call answered: the node that lost its name, the node of a path, or how many names there are and how their text begins.
#[derive(Clone, Copy, PartialEq)]
pub enum Seen {
    Done,
    Gone(u32),
    At(u32),
    Missing,
    No(Refusal),
    Listed(u32, [u8; 12]),
    /// So many were made, and then one was refused.
    Made(u32, Refusal),
    Fault,
    Lost,
}

/// What a call that changes names answered, and the node that lost its name.
#[derive(Clone, Copy)]
pub struct Outcome {
    pub seen: Seen,
    pub gone: Option<u32>,
}

/// Does a call that changes names, where few pages are dirty.
pub fn changed<D: VirtualPages>(
    device: &mut D,
    meta: &mut Meta,
    nodes: &mut Nodes,
    call: &Call,
) -> Outcome
    requires formed { D.formed device.old }
    requires volume { IsOpen D.Counts device.old meta.old nodes.old }
    requires names { PathsHaveNames call.now }
    requires of_names { IsOfNames call.now }
    ensures formed { D.formed device.new }
    ensures reads { OnlyReads D.Counts device.old device.new }
    ensures volume { result.gone ≡ None → IsOpen D.Counts device.new meta.new nodes.new }
{
    if meta.dirty() > 50 {
        return Outcome {
            seen: Seen::Fault,
            gone: None,
        };
    }
    let answer = change(device, meta, nodes, call);
    Outcome {
        seen: seen_of(answer),
        gone: gone_of(answer),
    }
}

fn seen_of(answer: Change) -> Seen {
    match answer {
        Change::Changed { gone: None } => Seen::Done,
        Change::Changed { gone: Some(ino) } => Seen::Gone(ino),
        Change::No(refusal) => Seen::No(refusal),
        Change::Fault => Seen::Fault,
        Change::Lost { .. } => Seen::Lost,
    }
}

fn gone_of(answer: Change) -> Option<u32>
    ensures { result ≡ gone_of answer }
{
    match answer {
        Change::Changed { gone } => gone,
        _ => None,
    }
}

/// Lists the directory of a path into a buffer, where it is one.
pub fn listed<D: VirtualPages>(
    device: &mut D,
    meta: &mut Meta,
    nodes: &Nodes,
    path: &Path,
    out: &mut ReplyBuf,
) -> Seen
    requires formed { D.formed device.old }
    requires volume { IsOpen D.Counts device.old meta.old nodes.now }
    ensures formed { D.formed device.new }
    ensures reads { OnlyReads D.Counts device.old device.new }
    ensures volume { IsOpen D.Counts device.new meta.new nodes.now }
{
    match look(device, meta, nodes, path) {
        Look::At(ino) => listed_at(device, meta, nodes, ino, out),
        Look::Missing => Seen::Missing,
        Look::No(refusal) => Seen::No(refusal),
        Look::Fault => Seen::Fault,
        Look::Lost { .. } => Seen::Lost,
    }
}

fn listed_at<D: VirtualPages>(
    device: &mut D,
    meta: &mut Meta,
    nodes: &Nodes,
    ino: u32,
    out: &mut ReplyBuf,
) -> Seen
    requires formed { D.formed device.old }
    requires volume { IsOpen D.Counts device.old meta.old nodes.now }
    requires used { IsUsedNode D.Counts device.old meta.old ino }
    ensures formed { D.formed device.new }
    ensures reads { OnlyReads D.Counts device.old device.new }
    ensures volume { IsOpen D.Counts device.new meta.new nodes.now }
{
    match node(device, meta, nodes, ino) {
        Ok(rec) => match rec.kind {
            Kind::Dir => names_of(device, meta, nodes, ino, out),
            _ => Seen::At(ino),
        },
        Err(_) => Seen::Fault,
    }
}

fn names_of<D: VirtualPages>(
    device: &mut D,
    meta: &mut Meta,
    nodes: &Nodes,
    ino: u32,
    out: &mut ReplyBuf,
) -> Seen
    requires formed { D.formed device.old }
    requires volume { IsOpen D.Counts device.old meta.old nodes.now }
    requires directory { IsDirectoryAt D.Counts device.old meta.old ino }
    ensures formed { D.formed device.new }
    ensures reads { OnlyReads D.Counts device.old device.new }
    ensures volume { IsOpen D.Counts device.new meta.new nodes.now }
{
    let listing = list(device, meta, nodes, ino, out);
    seen_in(listing, out)
}

fn seen_in(listing: Listing, out: &ReplyBuf) -> Seen {
    match listing {
        Listing::Listed(count) => Seen::Listed(count, beginning(out)),
        Listing::Fault => Seen::Fault,
        Listing::Lost { .. } => Seen::Lost,
    }
}

/// The first bytes, with zeros behind fewer.
fn beginning(out: &ReplyBuf) -> [u8; 12] {
    let mut bytes = [0; 12];
    for at in 0..12 {
        if at < out.bytes().len() {
            bytes[at] = out.bytes()[at];
        }
    }
    bytes
}
