//! What a call answers that is not refused.
ghost use Rattle.nl_field.specs.Numbers.{max_bytes};
ghost use Rattle.std.specs.Prelude.{◌≡◌, ◌≤◌, [], false, None, length, is_none};
ghost use Rattle.nl_field.specs.FileContent.{bytes_read};
ghost use Rattle.nl_tree.specs.Tree.{node_at, entries_of, content_of};
ghost use Rattle.nl_tree.specs.Step.{listing, status_of, effect_of, own_refusal};
ghost use Rattle.nl_tree.specs.Calls.{HasFewBytes};
ghost use Rattle.nl_tree_model.specs.PlainTree.{IsRoomy, numbered};
ghost use Rattle.nl_tree.specs.declared.reply.Reply.TheVariants.{Names};

use super::after::content_at;
use nl_field::Text;
use nl_tree::{Call, Path, Refusal, Reply, ReplyBuf};
use nl_tree_content::{FileBuf, read};
use nl_tree_entries::{Entry, count_entries, find, push_names};
use std::alloc::Global;

/// The reply, with the bytes that come with it.
#[tactic(auto, unfolding(nl_tree::specs::Step::effect_of))]
pub(crate) fn reply_of(
    alloc: Global,
    tree: &[Entry],
    call: &Call,
    calls: u64,
    out: &mut ReplyBuf,
) -> Reply
    requires bounded { HasFewBytes call.now }
    requires passes { own_refusal tree.now call.now ≡ None }
    requires roomy { IsRoomy tree.now }
    requires empty { out.old ≡ [] }
    ensures reply { result ≡ numbered calls (effect_of tree.now call.now).reply }
    ensures bytes { out.new ≡ (effect_of tree.now call.now).bytes }
{
    match call {
        Call::Mkdir(_)
        | Call::Create(_)
        | Call::Rmdir(_)
        | Call::Unlink(_)
        | Call::Rename(_, _)
        | Call::Truncate(_, _)
        | Call::Clean => Reply::Done,
        Call::Write(_, _, bytes) => Reply::Count(bytes.bytes().len() as u64),
        Call::Fill(_, _, len, _) => Reply::Count(*len as u64),
        Call::Read(path, from, len) => {
            read_at(alloc, tree, path.names(), *from, *len, out);
            Reply::Content
        }
        Call::Stat(path) => status_at(tree, path),
        Call::List(path) => names_at(tree, path, out),
        Call::Sync => Reply::Synced {
            upto: calls,
            moment: 0,
        },
    }
}

fn read_at(alloc: Global, tree: &[Entry], path: &[Text], from: u64, len: u32, out: &mut ReplyBuf)
    requires small { len ≤ max_bytes }
    requires empty { out.old ≡ [] }
    ensures { out.new ≡ bytes_read (content_of (node_at tree.now path.now)) from len }
{
    match content_at(tree, path) {
        Some(content) => read(content, from, len, out),
        None => read(&FileBuf::empty(alloc), from, len, out),
    }
}

fn status_at(tree: &[Entry], path: &Path) -> Reply
    requires roomy { IsRoomy tree.now }
    requires there { is_none (node_at tree.now path.now) ≡ false }
    ensures { result ≡ status_of (length (entries_of tree.now path.now)) (node_at tree.now path.now) }
{
    status(tree, path.names())
}

fn names_at(tree: &[Entry], path: &Path, out: &mut ReplyBuf) -> Reply
    requires roomy { IsRoomy tree.now }
    requires there { is_none (node_at tree.now path.now) ≡ false }
    requires empty { out.old ≡ [] }
    ensures reply { result ≡ Names (length (entries_of tree.now path.now)) }
    ensures bytes { out.new ≡ listing (entries_of tree.now path.now) }
{
    names(tree, path.names(), out)
}

fn status(tree: &[Entry], path: &[Text]) -> Reply
    requires roomy { IsRoomy tree.now }
    requires there { is_none (node_at tree.now path.now) ≡ false }
    ensures { result ≡ status_of (length (entries_of tree.now path.now)) (node_at tree.now path.now) }
{
    let Some(node) = find(tree, path) else {
        return Reply::No(Refusal::Enoent);
    };
    match node.content() {
        Some(content) => Reply::File {
            size: content.size(),
            pages: content.page_count() as u32,
        },
        None => Reply::Dir {
            entries: count_entries(tree, path) as u32,
        },
    }
}

fn names(tree: &[Entry], path: &[Text], out: &mut ReplyBuf) -> Reply
    requires roomy { IsRoomy tree.now }
    requires there { is_none (node_at tree.now path.now) ≡ false }
    requires empty { out.old ≡ [] }
    ensures reply { result ≡ Names (length (entries_of tree.now path.now)) }
    ensures bytes { out.new ≡ listing (entries_of tree.now path.now) }
{
    push_names(tree, path, out);
    Reply::Names(count_entries(tree, path) as u32)
}
