//! The refusals of the calls, in their order.
ghost use Rattle.std.specs.Prelude.{◌≡◌, ◌<◌, ◌&&◌, ◌||◌, ◌+◌, [], ◌∷◌, is_none, length, nat_lt, if◌then◌else◌, None};
ghost use Rattle.std.specs.List.{list_any};
ghost use Rattle.nl_tree.specs.Tree.{node_at, entries_of, is_root, is_file, is_directory, paths_eq};
ghost use Rattle.nl_field.specs.Numbers.{max_file_size};
ghost use Rattle.nl_tree.specs.Calls.{HasFewBytes};
ghost use Rattle.nl_tree.specs.Step.{refusal_before, when, is_too_long, paths_of};
ghost use Rattle.nl_tree.specs.declared.reply.Refusal.TheVariants.{Efbig, Enotdir};
ghost use Rattle.nl_tree.specs.Step as step;

use nl_field::{MAX_FILE_SIZE, Text};
use nl_tree::{Call, Path, Refusal, is_long};
use nl_tree_entries::{Entry, are_equal, count_entries, find, is_under};

/// The first refusal of a list in which None stands for none.
pub(crate) fn first_of(refusals: &[Option<Refusal>]) -> Option<Refusal>
    ensures { result ≡ step.first_of refusals.now }
{
    match refusals {
        [] => None,
        [None, rest @ ..] => first_of(rest),
        [Some(refusal), ..] => Some(*refusal),
    }
}

/// The refusal where the condition holds, else None.
pub(crate) fn refused_when(holds: bool, refusal: Refusal) -> Option<Refusal>
    ensures { result ≡ when holds refusal }
{
    if holds { Some(refusal) } else { None }
}

fn is_root_path(path: &[Text]) -> bool
    ensures { result ≡ is_root path.now }
{
    match path {
        [] => true,
        [_, ..] => false,
    }
}

/// Whether the tree has nothing at the path.
pub(crate) fn is_missing(tree: &[Entry], path: &[Text]) -> bool
    ensures { result ≡ is_none (node_at tree.now path.now) }
{
    find(tree, path).is_none()
}

fn is_file_at(tree: &[Entry], path: &[Text]) -> bool
    ensures { result ≡ is_file (node_at tree.now path.now) }
{
    match find(tree, path) {
        Some(node) => node.content().is_some(),
        None => false,
    }
}

fn is_directory_at(tree: &[Entry], path: &[Text]) -> bool
    ensures { result ≡ is_directory (node_at tree.now path.now) }
{
    match find(tree, path) {
        Some(node) => node.content().is_none(),
        None => false,
    }
}

fn has_entries(tree: &[Entry], path: &[Text]) -> bool
    ensures { result ≡ nat_lt 0 (length (entries_of tree.now path.now)) }
{
    count_entries(tree, path) > 0
}

/// The path prefix: all names but the last.
fn of_prefix(tree: &[Entry], path: &[Text]) -> Option<Refusal>
    ensures { result ≡ step.prefix_refusal tree.now path.now }
{
    let last = path.len().saturating_sub(1);
    'names: for at in 0..last {
        let here = &path[..at + 1];
        if is_missing(tree, here) {
            return Some(Refusal::Enoent);
        }
        if is_file_at(tree, here) {
            return Some(Refusal::Enotdir);
        }
    }
    None
}

fn of_missing(tree: &[Entry], path: &[Text]) -> Option<Refusal>
    ensures { result ≡ step.missing tree.now path.now }
{
    refused_when(is_missing(tree, path), Refusal::Enoent)
}

#[tactic(auto, unfolding(nl_tree::specs::Step::refusal_of_new))]
fn of_new(tree: &[Entry], path: &[Text]) -> Option<Refusal>
    ensures { result ≡ step.refusal_of_new tree.now path.now }
{
    first_of(&[
        refused_when(is_root_path(path), Refusal::Eexist),
        of_prefix(tree, path),
        refused_when(!is_missing(tree, path), Refusal::Eexist),
    ])
}

#[tactic(auto, unfolding(nl_tree::specs::Step::refusal_of_file))]
fn of_file(tree: &[Entry], path: &[Text]) -> Option<Refusal>
    ensures { result ≡ step.refusal_of_file tree.now path.now }
{
    first_of(&[
        refused_when(is_root_path(path), Refusal::Eisdir),
        of_prefix(tree, path),
        of_missing(tree, path),
        refused_when(is_directory_at(tree, path), Refusal::Eisdir),
    ])
}

#[tactic(auto, unfolding(nl_tree::specs::Step::refusal_of_rmdir))]
fn of_rmdir(tree: &[Entry], path: &[Text]) -> Option<Refusal>
    ensures { result ≡ step.refusal_of_rmdir tree.now path.now }
{
    first_of(&[
        refused_when(is_root_path(path), Refusal::Einval),
        of_prefix(tree, path),
        of_missing(tree, path),
        refused_when(is_file_at(tree, path), Refusal::Enotdir),
        refused_when(has_entries(tree, path), Refusal::Enotempty),
    ])
}

/// The refusal of a rename to another path.
#[tactic(auto, unfolding(nl_tree::specs::Step::refusal_of_move))]
fn of_move(tree: &[Entry], from: &[Text], to: &[Text]) -> Option<Refusal>
    ensures { result ≡ step.refusal_of_move tree.now from.now to.now }
{
    let from_directory = is_directory_at(tree, from);
    let to_directory = is_directory_at(tree, to);
    let from_file = is_file_at(tree, from);
    let to_file = is_file_at(tree, to);
    first_of(&[
        refused_when(from_directory && is_under(from, to), Refusal::Einval),
        of_prefix(tree, to),
        refused_when(from_file && to_directory, Refusal::Eisdir),
        refused_when(from_directory && to_file, Refusal::Enotdir),
        refused_when(
            from_directory && to_directory && has_entries(tree, to),
            Refusal::Enotempty,
        ),
    ])
}

fn of_other_path(tree: &[Entry], from: &[Text], to: &[Text]) -> Option<Refusal>
    ensures { result ≡ (if paths_eq from.now to.now then None else step.refusal_of_move tree.now from.now to.now) }
{
    if are_equal(from, to) {
        None
    } else {
        of_move(tree, from, to)
    }
}

#[tactic(auto, unfolding(nl_tree::specs::Step::refusal_of_rename))]
fn of_rename(tree: &[Entry], from: &[Text], to: &[Text]) -> Option<Refusal>
    ensures { result ≡ step.refusal_of_rename tree.now from.now to.now }
{
    first_of(&[
        refused_when(is_root_path(from) || is_root_path(to), Refusal::Einval),
        of_prefix(tree, from),
        of_missing(tree, from),
        of_other_path(tree, from, to),
    ])
}

fn of_write(tree: &[Entry], path: &[Text], from: u64, len: u64) -> Option<Refusal>
    ensures { result ≡ step.refusal_of_write tree.now path.now from len }
{
    first_of(&[
        of_file(tree, path),
        refused_when(ends_too_far(from, len), Refusal::Efbig),
    ])
}

fn ends_too_far(from: u64, len: u64) -> bool
    ensures { result ≡ (nat_lt 0 len && nat_lt max_file_size (from + len)) }
{
    len > 0 && (from > MAX_FILE_SIZE || len > MAX_FILE_SIZE - from)
}

fn of_truncate(tree: &[Entry], path: &[Text], size: u64) -> Option<Refusal>
    ensures { result ≡ step.first_of (step.refusal_of_file tree.now path.now ∷ when (nat_lt max_file_size size) Efbig ∷ []) }
{
    first_of(&[
        of_file(tree, path),
        refused_when(size > MAX_FILE_SIZE, Refusal::Efbig),
    ])
}

fn of_stat(tree: &[Entry], path: &[Text]) -> Option<Refusal>
    ensures { result ≡ step.first_of (step.prefix_refusal tree.now path.now ∷ step.missing tree.now path.now ∷ []) }
{
    first_of(&[of_prefix(tree, path), of_missing(tree, path)])
}

fn of_list(tree: &[Entry], path: &[Text]) -> Option<Refusal>
    ensures { result ≡ step.first_of
        (step.prefix_refusal tree.now path.now ∷ step.missing tree.now path.now ∷ when (is_file (node_at tree.now path.now)) Enotdir ∷ []) }
{
    first_of(&[
        of_prefix(tree, path),
        of_missing(tree, path),
        refused_when(is_file_at(tree, path), Refusal::Enotdir),
    ])
}

/// The call's own refusals.
#[tactic(auto, unfolding(nl_tree::specs::Step::own_refusal))]
pub(crate) fn of_call(tree: &[Entry], call: &Call) -> Option<Refusal>
    requires { HasFewBytes call.now }
    ensures { result ≡ step.own_refusal tree.now call.now }
{
    match call {
        Call::Mkdir(path) => of_new(tree, path.names()),
        Call::Create(path) => of_new(tree, path.names()),
        Call::Rmdir(path) => of_rmdir(tree, path.names()),
        Call::Unlink(path) => of_file(tree, path.names()),
        Call::Rename(from, to) => of_rename(tree, from.names(), to.names()),
        Call::Write(path, from, bytes) => {
            of_write(tree, path.names(), *from, bytes.bytes().len() as u64)
        }
        Call::Fill(path, from, len, _) => of_write(tree, path.names(), *from, *len as u64),
        Call::Read(path, _, _) => of_file(tree, path.names()),
        Call::Truncate(path, size) => of_truncate(tree, path.names(), *size),
        Call::Stat(path) => of_stat(tree, path.names()),
        Call::List(path) => of_list(tree, path.names()),
        Call::Sync | Call::Clean => None,
    }
}

/// Whether a path of the call is too long, or a name in one.
pub(crate) fn has_long_path(call: &Call) -> bool
    ensures { result ≡ list_any is_too_long (paths_of call.now) }
{
    match call {
        Call::Mkdir(path)
        | Call::Create(path)
        | Call::Rmdir(path)
        | Call::Unlink(path)
        | Call::Write(path, _, _)
        | Call::Fill(path, _, _, _)
        | Call::Read(path, _, _)
        | Call::Truncate(path, _)
        | Call::Stat(path)
        | Call::List(path) => is_long(path.names()),
        Call::Rename(from, to) => is_long(from.names()) || is_long(to.names()),
        Call::Sync | Call::Clean => false,
    }
}

/// What refuses a call before it is tried.
pub(crate) fn before(tree: &[Entry], call: &Call) -> Option<Refusal>
    requires { HasFewBytes call.now }
    ensures { result ≡ refusal_before tree.now call.now }
{
    first_of(&[
        refused_when(has_long_path(call), Refusal::Enametoolong),
        of_call(tree, call),
    ])
}
