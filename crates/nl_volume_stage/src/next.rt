// The page of a line that is to be staged next.
ghost use Rattle.std.specs.Prelude.{◌≡◌, ◌≢◌, ℕ, ◌+◌, ◌-◌, ◌*◌, ◌≤◌, ◌<◌, false, take, drop, IfSome, IsSome, IsTrue, Some, None, length};
ghost use Rattle.nl_field.specs.Numbers.{max_file_size};
ghost use Rattle.nl_meta_running.specs.Running.{IsUsedNode};
ghost use Rattle.std.specs.Int.{div_ceil};
ghost use Rattle.nl_core.specs.Core.{IsCore};
ghost use Rattle.nl_calls_steps.specs.Steps.{ReadsOn};
ghost use Rattle.nl_field.specs.CrashStates.{Rose};
ghost use Rattle.nl_flight.specs.Flight.{of_worker};
ghost use Rattle.nl_tree.specs.Event.{is_whole, page_given};
ghost use Rattle.nl_volume_stage.specs.StagedPages.{IsTagOfCall, IsTagOfNode, IsTagOfPath};
ghost use Rattle.nl_volume_stage.specs.Staging.{IfPage, IsNextTag, IsNextAt, IsNextIn};
ghost use Rattle.nl_calls_bytes.specs.Ranges.{from_of, len_of, path_of};

use nl_calls_steps::{look_up, open_node};
use nl_core::Core;
use nl_field::{Kind, PageBuf, Tag};
use nl_flight::Flight;
use nl_iface::MovingPages;
use nl_meta_running::Stop;
use nl_namespace::Look;
use nl_namespace::laws::looks_in_tree;
use nl_spec_commits::laws::device_stands;
use nl_tree::{Call, Path};

const PAGE: u64 = 4096;

/// The greatest size of a file.
const MOST: u64 = 16_809_984;

/// The page of a line that is staged next.
#[derive(Clone, Copy, Debug, PartialEq, Eq)]
pub(crate) enum Next {
    /// The page of this tag is next.
    Page(Tag),
    /// No whole page is left.
    Whole,
    /// A page that was read does not hold the wanted number: `found` is another one, 0 where it holds none.
    Lost { wanted: u64, found: u64 },
    /// A read failed.
    Fault,
}

// What is staged next of a call, so many of whose pages are in flight.
pub(crate) fn next_of<D: MovingPages>(core: &mut Core<D>, call: &Call, place: u32) -> Next
    requires core { IsCore D.Counts core.old }
    requires few { place ≤ 16 }
    ensures core { IsCore D.Counts core.new }
    ensures same { ReadsOn D.Counts core.old core.new }
    ensures page { IfPage result (IsNextTag call.now place) }
    ensures left { IsNextIn D.Counts core.old (path_of call.now) (from_of call.now) (len_of call.now) place result }
    ensures own { IfPage result (IsTagOfCall D.Counts core.old call.now) }
    ensures fault { result ≡ Next.Fault → Rose (D.read_faults core.old.device) (D.read_faults core.new.device) }
    ensures lost { (w : ℕ) (f : ℕ) → result ≡ Next.Lost w f → (f ≢ w) × (D.tells → ⊥) }
{
    match call {
        Call::Write(path, from, bytes) => next_in(
            core,
            path,
            *from,
            bytes.bytes().len() as u64,
            place,
        ),
        Call::Fill(path, from, len, _) => next_in(core, path, *from, u64::from(*len), place),
        _ => Next::Whole,
    }
}

// What is staged next of a range of bytes of what a path leads to, so many of whose pages are in flight.
fn next_in<D: MovingPages>(core: &mut Core<D>, path: &Path, from: u64, len: u64, place: u32) -> Next
    requires core { IsCore D.Counts core.old }
    requires few { place ≤ 16 }
    ensures core { IsCore D.Counts core.new }
    ensures same { ReadsOn D.Counts core.old core.new }
    ensures page { IfPage result (λ tag. (tag.index ≡ div_ceil from 4096 + place) × IsTrue (is_whole from len tag.index)) }
    ensures left { IsNextIn D.Counts core.old path.now from len place result }
    ensures own { IfPage result (IsTagOfPath D.Counts core.old path.now) }
    ensures fault { result ≡ Next.Fault → Rose (D.read_faults core.old.device) (D.read_faults core.new.device) }
    ensures lost { (w : ℕ) (f : ℕ) → result ≡ Next.Lost w f → (f ≢ w) × (D.tells → ⊥) }
{
    looks_in_tree();
    device_stands(&core.device);
    match look_up(core, path) {
        Look::At(ino) => next_at(core, ino, from, len, place),
        Look::Missing | Look::No(_) => Next::Whole,
        Look::Fault => Next::Fault,
        Look::Lost { wanted, found } => Next::Lost { wanted, found },
    }
}

// What is staged next of a range of bytes of a node that is used, so many of whose pages are in flight.
fn next_at<D: MovingPages>(core: &mut Core<D>, ino: u32, from: u64, len: u64, place: u32) -> Next
    requires core { IsCore D.Counts core.old }
    requires used { IsUsedNode D.Counts core.old.device core.old.meta ino }
    requires few { place ≤ 16 }
    ensures core { IsCore D.Counts core.new }
    ensures same { ReadsOn D.Counts core.old core.new }
    ensures page { IfPage result (λ tag. (tag.index ≡ div_ceil from 4096 + place) × IsTrue (is_whole from len tag.index)) }
    ensures left { IsNextAt D.Counts core.old ino from len place result }
    ensures own { IfPage result (IsTagOfNode D.Counts core.old ino) }
    ensures fault { result ≡ Next.Fault → Rose (D.read_faults core.old.device) (D.read_faults core.new.device) }
    ensures lost { (w : ℕ) (f : ℕ) → result ≡ Next.Lost w f → (f ≢ w) × (D.tells → ⊥) }
{
    match open_node(core, ino) {
        Ok(rec) => match rec.kind {
            Kind::File => match whole_at(from, len, place) {
                Some(index) => Next::Page(Tag {
                    ino,
                    generation: rec.generation,
                    index,
                }),
                None => Next::Whole,
            },
            _ => Next::Whole,
        },
        Err(Stop::Fault) => Next::Fault,
        Err(Stop::Lost { wanted, found }) => Next::Lost { wanted, found },
    }
}

// The index of the whole page at a place of a range that ends at the greatest size at the latest. None where there is none.
fn whole_at(from: u64, len: u64, place: u32) -> Option<u32>
    requires few { place ≤ 16 }
    ensures whole { IfSome result (λ index. (index ≡ div_ceil from 4096 + place) × IsTrue (is_whole from len index)) }
    ensures within { IsSome result → from + len ≤ max_file_size }
    ensures none { result ≡ None → (from + len ≤ max_file_size) → is_whole from len (div_ceil from 4096 + place) ≡ false }
{
    if from > MOST || len > MOST - from {
        return None;
    }
    let index = from.div_ceil(PAGE) + u64::from(place);
    if (index + 1) * PAGE > from + len {
        return None;
    }
    Some(index as u32)
}

// How many pages a worker's line has in flight.
pub(crate) fn flying(flight: &Flight, worker: u8) -> u32
    requires known { worker < 8 }
    ensures { result ≡ length (of_worker flight.now worker).pages }
{
    let _line = flight.line(worker);
    let mut count = 0;
    'pages: while let Some(_) = flight.get(worker, count) {
        count += 1;
    }
    count
}

// The bytes that a call gives a whole page of its range.
pub(crate) fn fill_page(page: &mut PageBuf, call: &Call, index: u32)
    requires whole { IsSome (page_given call.now index) }
    ensures { page_given call.now index ≡ Some page.new.main }
{
    match call {
        Call::Write(_, from, bytes) => copy_part(page, bytes.bytes(), *from, index),
        Call::Fill(_, _, _, byte) => {
            let bytes = [*byte; PAGE as usize];
            page.set_head(&bytes);
        }
        _ => unreachable!(),
    }
}

// The page of that index has the bytes that lie in it, of those that begin at an offset.
fn copy_part(page: &mut PageBuf, bytes: &[u8], from: u64, index: u32)
    requires whole { IsTrue (is_whole from (length bytes.now) index) }
    ensures { page.new.main ≡ take 4096 (drop (4096 * index - from) bytes.now) }
{
    let start = (u64::from(index) * PAGE - from) as usize;
    let part = &bytes[start..start + PAGE as usize];
    page.set_head(part);
}
