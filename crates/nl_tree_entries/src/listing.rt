//! The names of a directory as they are printed.
ghost use Rattle.nl_field.specs.Numbers.{max_bytes};
ghost use Rattle.std.specs.Prelude.{◌≡◌, ◌≤◌, ◌+◌, ◌++◌, ◌∷◌, [], length, if◌then◌else◌, Some};
ghost use Rattle.nl_tree.specs.Tree.{last_name, is_directory, entries_of};
ghost use Rattle.nl_tree.specs.Step.{listing};
ghost use Rattle.nl_tree.specs.KeptSums.{is_entry_of};

use crate::entries::{Entry, is_entry};
use crate::shared::SharedNode;
use nl_field::Text;
use nl_tree::ReplyBuf;
use nl_tree_content::SharedPath;

/// Adds a space and the name for each entry of a directory.
#[tactic(auto, unfolding(nl_tree::specs::Tree::entries_of))]
pub fn push_names(tree: &[Entry], path: &[Text], out: &mut ReplyBuf)
    requires { length out.old + length (listing (entries_of tree.now path.now)) ≤ max_bytes }
    ensures { out.new ≡ out.old ++ listing (entries_of tree.now path.now) }
{
    'entries: for entry in tree {
        push_if_entry(path, entry, out);
    }
}

fn push_if_entry(path: &[Text], entry: &Entry, out: &mut ReplyBuf)
    requires { length out.old + length (listing (if is_entry_of path.now entry.now.0 then entry.now ∷ [] else [])) ≤ max_bytes }
    ensures { out.new ≡ out.old ++ listing (if is_entry_of path.now entry.now.0 then entry.now ∷ [] else []) }
{
    if is_entry(path, &entry.0) {
        push_entry(entry, out);
    }
}

/// A space and the name, with `/` after the name of a directory.
fn push_entry(entry: &Entry, out: &mut ReplyBuf)
    requires { length out.old + length (listing (entry.now ∷ [])) ≤ max_bytes }
    ensures { out.new ≡ out.old ++ listing (entry.now ∷ []) }
{
    out.push(b' ');
    out.extend(last_name_of(&entry.0));
    out.extend(mark_of(&entry.1));
}

fn last_name_of(path: &SharedPath) -> &[u8]
    ensures { result.now ≡ last_name path.now }
{
    let names = path.names();
    match names.last() {
        Some(name) => name.bytes(),
        None => &[],
    }
}

fn mark_of(node: &SharedNode) -> &[u8]
    ensures { result.now ≡ (if is_directory (Some node.now) then 47 ∷ [] else []) }
{
    match node.content() {
        Some(_) => &[],
        None => b"/".as_slice(),
    }
}
