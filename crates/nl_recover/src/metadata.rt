//! The journal and the committed pages of a volume are read, as far as a walk looks at them.
ghost use Rattle.std.specs.Prelude.{◌≡◌, IfOk};
ghost use Rattle.nl_iface.specs.Calls.{OnlyReads, ReadsCounted};
ghost use Rattle.nl_meta.specs.Pages.{no_pages};
ghost use Rattle.nl_recover.specs.Reading.{IfRead, IsFailed, MetadataIsRead};

use crate::loading::load;
use nl_field::{Memory, Shape};
use nl_iface::VirtualPages;
use nl_journal::{Journal, ReadBack};
use nl_meta::Meta;
use std::alloc::Global;

/// The journal of a volume, and its committed pages, as far as a walk looks at them.
#[derive(Drop)]
pub struct Metadata {
    pub journal: Journal,
    pub meta: Meta,
}

/// What the reading of the journal and of the committed pages answers.
#[derive(Drop)]
pub enum ReadPages {
    /// The journal and the committed pages were read.
    Done(Metadata),
    /// A read failed.
    Fault,
    Memory,
}

/// Reads the journal, makes the images of the transaction that counts the frozen pages, and makes resident the committed pages at which
/// a walk looks. The device is only read, and no page twice that is there.
pub fn read_pages<D: VirtualPages>(alloc: Global, device: &mut D, shape: &Shape) -> ReadPages
    requires formed { D.formed device.old }
    requires shape { shape.now ≡ D.shape device.old }
    ensures formed { D.formed device.new }
    ensures device { OnlyReads D.Counts device.old device.new }
    ensures faults { ReadsCounted D.Counts (IsFailed result) device.old device.new }
    ensures read { IfRead result (MetadataIsRead D.Counts device.new) }
{
    match empty_tables(alloc, shape) {
        Ok(tables) => fill(device, tables, shape),
        Err(Memory) => ReadPages::Memory,
    }
}

// What is read into.
#[derive(Drop)]
struct Tables {
    journal: Journal,
    meta: Meta,
}

fn empty_tables(alloc: Global, shape: &Shape) -> Result<Tables, Memory>
    ensures { IfOk result (λ t. t.meta ≡ no_pages shape.now.vaddrs) }
{
    let journal = Journal::new(alloc)?;
    let meta = Meta::new(alloc, *shape)?;
    Ok(Tables { journal, meta })
}

fn fill<D: VirtualPages>(device: &mut D, tables: Tables, shape: &Shape) -> ReadPages
    requires formed { D.formed device.old }
    requires shape { shape.now ≡ D.shape device.old }
    requires none { tables.meta ≡ no_pages shape.now.vaddrs }
    ensures formed { D.formed device.new }
    ensures device { OnlyReads D.Counts device.old device.new }
    ensures faults { ReadsCounted D.Counts (IsFailed result) device.old device.new }
    ensures read { IfRead result (MetadataIsRead D.Counts device.new) }
{
    let Tables {
        mut journal,
        mut meta,
    } = tables;
    match journal.bring_back(device, &mut meta, shape) {
        ReadBack::Agreed(_) | ReadBack::Nothing => {
            if load(device, &mut meta, shape) {
                ReadPages::Done(Metadata { journal, meta })
            } else {
                ReadPages::Fault
            }
        }
        ReadBack::Fault => ReadPages::Fault,
    }
}
