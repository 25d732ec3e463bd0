// The words of a command line, answered on a store of bytes.
ghost use Rattle.std.specs.Prelude.{◌≡◌, true, false, Ok, None, IfOk, IfErr, OnErr, codes};
ghost use Rattle.nl_cmd_words.specs.Command.{command_of};
ghost use Rattle.nl_spec_headline.specs.Streams.{Prints, stream};
ghost use Rattle.nl_store.specs.Store.{StoreOnlyRead};
ghost use Rattle.nl_app_file.specs.Ended.{forms, makes_a_file};
ghost use Rattle.nl_app_file.specs.OnStore.{EndsOnStore, HasNoticeCause};

use nl_app_process::Notice;
use nl_field::FailList;
use nl_imgfile::{FormingNand, OpenedNand, StoreAttach};
use nl_io::{Sink, Source, Words};
use nl_nand::MemNand;
use nl_store::Store;
use nl_top::{Command, Done, NoGate, command_of, nameless};
use nl_tree::Refusal;
use std::alloc::Global;
use std::sync::Wait;
use std::thread::Threads;

/// How the words of a command line ended: with which status, and with which refusal of the tree, where the command was one on a path.
#[derive(Clone, Copy, Debug, PartialEq, Eq)]
pub struct Ending {
    pub status: u8,
    pub refused: Option<Refusal>,
}

/// How the words of a command line ended on a store, or a notice in its place. The store is given back.
#[derive(Drop)]
pub struct OnStore<B> {
    pub ending: Result<Ending, Notice>,
    pub store: B,
}

/// Whether the command forms the medium; no other one makes a file that is missing.
pub fn makes_a_file(command: Command) -> bool
    ensures { result ≡ makes_a_file command }
{
    matches!(command, Command::Format(_, _))
}

/// Answers the words of a command line on the medium that a store holds, and gives the ending, which is that of `nameless`. What the
/// medium holds, and what a stop leaves of it, is said of the store's bytes: where the store tells them, the image that they are is what
/// the sentences of `nameless` speak of, and whatever a kill leaves of them at any moment of the call, but within a forming that is done, is
/// an image of which they say the same.
///
/// Faulty words are told as such, and leave the store alone. Where the store cannot be attached, it was only read, and nothing else is read
/// or printed: `MediumFault` where its header could not be read, `Memory` for want of memory.
pub fn answer_on<Rt: Threads + Wait + Sync, S: Source, K: Sink, B: Store + Send>(
    rt: &Rt,
    alloc: Global,
    words: &Words,
    src: &mut S,
    sink: &mut K,
    store: B,
) -> OnStore<B>
    ensures faulty { command_of words.now ≡ None → result.ending ≡ Ok (record { status = 2; refused = None }) }
    ensures ended { IfOk result.ending (λ e. EndsOnStore B.Store words.now store result.store (stream (S.left src.old) (S.faults src.old))
        (stream (S.left src.new) (S.faults src.new)) (stream (K.taken sink.old) (K.faults sink.old))
        (stream (K.taken sink.new) (K.faults sink.new)) e.refused e.status) }
    ensures untouched { OnErr result.ending ((src.new ≡ src.old) × (sink.new ≡ sink.old)
        × StoreOnlyRead B.bytes B.moment B.left store result.store) }
    ensures cause { IfErr result.ending (λ notice. HasNoticeCause B.read_faults notice store result.store) }
{
    let command = match command_of(words) {
        Some(command) => command,
        None => {
            let status = tell_faulty(rt, alloc, words, src, sink);
            return OnStore {
                ending: Ok(Ending {
                    status,
                    refused: None,
                }),
                store,
            };
        }
    };
    if makes_a_file(command) {
        format_on(rt, alloc, words, src, sink, store)
    } else {
        open_on(rt, alloc, words, src, sink, store)
    }
}

/// Tells faulty words as such.
pub fn tell_faulty<Rt: Threads + Wait + Sync, S: Source, K: Sink>(
    rt: &Rt,
    alloc: Global,
    words: &Words,
    src: &mut S,
    sink: &mut K,
) -> u8
    requires { command_of words.now ≡ None }
    ensures status { result ≡ 2 }
    ensures source { stream (S.left src.new) (S.faults src.new) ≡ stream (S.left src.old) (S.faults src.old) }
    ensures prints { Prints (stream (K.taken sink.old) (K.faults sink.old)) (stream (K.taken sink.new) (K.faults sink.new))
        (codes "words\n") }
{
    let media = MemNand::new(alloc, FailList::new(alloc), FailList::new(alloc), None);
    let Done {
        status,
        refused: _,
        media: _,
        syncs: _,
        order: _,
    } = nameless(rt, alloc, words, src, sink, media, &NoGate);
    status
}

// A command that does not form the medium.
fn open_on<Rt: Threads + Wait + Sync, S: Source, K: Sink, B: Store + Send>(
    rt: &Rt,
    alloc: Global,
    words: &Words,
    src: &mut S,
    sink: &mut K,
    store: B,
) -> OnStore<B>
    requires { forms (command_of words.now) ≡ false }
    ensures ended { IfOk result.ending (λ e. EndsOnStore B.Store words.now store result.store (stream (S.left src.old) (S.faults src.old))
        (stream (S.left src.new) (S.faults src.new)) (stream (K.taken sink.old) (K.faults sink.old))
        (stream (K.taken sink.new) (K.faults sink.new)) e.refused e.status) }
    ensures untouched { OnErr result.ending ((src.new ≡ src.old) × (sink.new ≡ sink.old)
        × StoreOnlyRead B.bytes B.moment B.left store result.store) }
    ensures cause { IfErr result.ending (λ notice. HasNoticeCause B.read_faults notice store result.store) }
{
    match OpenedNand::attach(alloc, store) {
        Ok(media) => {
            let Done {
                status,
                refused,
                media,
                syncs: _,
                order: _,
            } = nameless(rt, alloc, words, src, sink, media, &NoGate);
            OnStore {
                ending: Ok(Ending { status, refused }),
                store: media.into_store(),
            }
        }
        Err(StoreAttach::Fault(store)) => OnStore {
            ending: Err(Notice::MediumFault),
            store,
        },
        Err(StoreAttach::Memory(store)) => OnStore {
            ending: Err(Notice::Memory),
            store,
        },
    }
}

// The command that forms the medium.
fn format_on<Rt: Threads + Wait + Sync, S: Source, K: Sink, B: Store + Send>(
    rt: &Rt,
    alloc: Global,
    words: &Words,
    src: &mut S,
    sink: &mut K,
    store: B,
) -> OnStore<B>
    requires { forms (command_of words.now) ≡ true }
    ensures ended { IfOk result.ending (λ e. EndsOnStore B.Store words.now store result.store (stream (S.left src.old) (S.faults src.old))
        (stream (S.left src.new) (S.faults src.new)) (stream (K.taken sink.old) (K.faults sink.old))
        (stream (K.taken sink.new) (K.faults sink.new)) e.refused e.status) }
    ensures untouched { OnErr result.ending ((src.new ≡ src.old) × (sink.new ≡ sink.old)
        × StoreOnlyRead B.bytes B.moment B.left store result.store) }
    ensures cause { IfErr result.ending (λ notice. HasNoticeCause B.read_faults notice store result.store) }
{
    match FormingNand::attach(alloc, store) {
        Ok(media) => {
            let Done {
                status,
                refused,
                media,
                syncs: _,
                order: _,
            } = nameless(rt, alloc, words, src, sink, media, &NoGate);
            OnStore {
                ending: Ok(Ending { status, refused }),
                store: media.into_store(),
            }
        }
        Err(StoreAttach::Fault(store)) => OnStore {
            ending: Err(Notice::MediumFault),
            store,
        },
        Err(StoreAttach::Memory(store)) => OnStore {
            ending: Err(Notice::Memory),
            store,
        },
    }
}
