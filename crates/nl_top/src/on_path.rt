// The commands on the file at the path of the words.
ghost use Rattle.std.specs.Prelude.{IfSome, IsSome, ℕ};
ghost use Rattle.nl_cmd_put.specs.Putting.{PutEnds};
ghost use Rattle.nl_cmd_view.specs.Getting.{GetEnds};
ghost use Rattle.nl_cmd_words.specs.Paths.{path_word};
ghost use Rattle.nl_field.specs.Page.{Image};
ghost use Rattle.nl_spec_headline.specs.Streams.{medium_seen, sink_seen, source_seen};
ghost use Rattle.nl_top.specs.Leaving.{leaves_within, nothing_new, prefixes_of};
ghost use Rattle.nl_tree.specs.Calls.{AreNames};

use nl_cmd_put::put;
use nl_cmd_view::{get, refused};
use nl_cmd_words::{Done, ended, path_word};
use nl_io::{Sink, Source, Words};
use nl_nand::Nand;
use nl_tree::Path;
use std::alloc::Global;

// Prints the bytes of the file at the path of the words.
pub(crate) fn get_file<K: Sink, M: Nand>(
    alloc: Global,
    words: &Words,
    sink: &mut K,
    media: M,
) -> Done<M>
    requires path { IsSome (path_word words.now) }
    ensures ended { IfSome (path_word words.now) (λ path. GetEnds M.tells path (sink_seen K.Sink sink.old) (sink_seen K.Sink sink.new)
        (medium_seen M.Nand media) (medium_seen M.Nand result.media)
        result.order.items result.syncs.items result.refused result.status) }
    ensures left { M.tells → (m : ℕ) (c : Image) → M.left result.media m c → M.left media m c }
{
    match path_word(alloc, words) {
        Ok(path) => get(alloc, path, sink, media),
        Err(_) => ended(alloc, 6, b"memory", sink, media),
    }
}

// Puts the bytes of a source at the path of the words.
pub(crate) fn put_file<S: Source, K: Sink, M: Nand>(
    alloc: Global,
    words: &Words,
    src: &mut S,
    sink: &mut K,
    media: M,
) -> Done<M>
    requires path { IsSome (path_word words.now) }
    ensures ended { IfSome (path_word words.now) (λ path. PutEnds M.tells path (leaves_within M.Nand media result.media nothing_new)
        (λ run. leaves_within M.Nand media result.media (prefixes_of run))
        (source_seen S.Source src.old) (source_seen S.Source src.new) (sink_seen K.Sink sink.old) (sink_seen K.Sink sink.new)
        (medium_seen M.Nand media) (medium_seen M.Nand result.media)
        result.order.items result.syncs.items result.refused result.status) }
{
    match path_word(alloc, words) {
        Ok(path) => put_at(alloc, path, src, sink, media),
        Err(_) => ended(alloc, 6, b"memory", sink, media),
    }
}

// Puts the bytes of a source at a path, or tells why no volume was opened.
fn put_at<S: Source, K: Sink, M: Nand>(
    alloc: Global,
    path: Path,
    src: &mut S,
    sink: &mut K,
    media: M,
) -> Done<M>
    requires names { AreNames path }
    ensures ended { PutEnds M.tells path (leaves_within M.Nand media result.media nothing_new)
        (λ run. leaves_within M.Nand media result.media (prefixes_of run))
        (source_seen S.Source src.old) (source_seen S.Source src.new) (sink_seen K.Sink sink.old) (sink_seen K.Sink sink.new)
        (medium_seen M.Nand media) (medium_seen M.Nand result.media)
        result.order.items result.syncs.items result.refused result.status }
{
    match put(alloc, path, src, sink, media) {
        Ok(done) => done,
        Err(why) => refused(alloc, why, sink),
    }
}
