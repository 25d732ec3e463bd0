// What a volume holds is read back: the bytes of each address, and each page of its files through the name that its pointer has now.
ghost use Rattle.std.specs.Prelude.{◌<◌};

use crate::image::{ADDRESSES, PAGES, fill_data, fill_metadata, slot_of, stamp, tag};
use nl_core::Core;
use nl_device::Device;
use nl_field::{Memory, NamedRead, PageBuf, Pointer, Tag};
use nl_flight::Flight;
use nl_iface::{Counts, NamedPages};
use nl_meta::Meta;
use nl_nand::MemNand;
use std::alloc::Global;

/// What is not as it should be.
#[derive(Clone, Copy)]
pub enum Wrong {
    /// The bytes of an address.
    Address(u32),
    /// The bytes of the page of that number.
    Page(u32),
    /// A read of the page of that number.
    Read(u32),
    /// How many pages are in flight.
    InFlight(u32),
}

/// Room for three pages, and for the names of the pages of the files.
#[derive(Drop)]
pub struct Work {
    pub page: PageBuf,
    buf: PageBuf,
    wanted: PageBuf,
    names: Vec<u32>,
}

impl Work {
    /// Room for the pages and the names; a failure is want of memory.
    pub fn new(alloc: Global) -> Result<Work, Memory> {
        Ok(Work {
            page: PageBuf::new(alloc)?,
            buf: PageBuf::new(alloc)?,
            wanted: PageBuf::new(alloc)?,
            names: vec![in alloc; 0u32; PAGES as usize]?,
        })
    }
}

fn name_of(meta: &Meta, number: u32) -> u32
    requires { number < 480 }
{
    let slot = slot_of(number);
    if !meta.resident(slot.vaddr) {
        return 0;
    }
    let main = meta.page(slot.vaddr).main();
    u32::from_le_bytes([
        main[slot.at],
        main[slot.at + 1],
        main[slot.at + 2],
        main[slot.at + 3],
    ])
}

fn find_names(meta: &Meta, names: &mut Vec<u32>) {
    for number in 0..names.len() {
        if number < 480 {
            names[number] = name_of(meta, number as u32);
        }
    }
}

/// The first address whose bytes are others than those that were built, but for the names of pages. A page of nodes that was never written
/// has zeros.
fn wrong_address(meta: &Meta, names: &[u32], calls: u64, wanted: &mut PageBuf) -> Option<Wrong> {
    for vaddr in ADDRESSES.iter().chain([68, 69, 70].iter()) {
        fill_metadata(*vaddr, names, calls, wanted);
        if !meta.resident(*vaddr) || meta.page(*vaddr).main() != wanted.main() {
            return Some(Wrong::Address(*vaddr));
        }
    }
    None
}

/// Whether a pointer does not lead to the page of that number, with its owner.
fn wrong_page(
    device: &mut Device<MemNand>,
    at: Pointer,
    tag: Tag,
    number: u32,
    buf: &mut PageBuf,
    wanted: &mut PageBuf,
) -> Option<Wrong>
    requires { ⟦<Device<MemNand> as Counts>⟧.formed device.old }
    ensures { ⟦<Device<MemNand> as Counts>⟧.formed device.new }
{
    match device.physical_read(at, tag, buf) {
        NamedRead::Done => {
            fill_data(number, wanted);
            if buf.main() == wanted.main() {
                None
            } else {
                Some(Wrong::Page(number))
            }
        }
        _ => Some(Wrong::Read(number)),
    }
}

fn wrong_pages(
    device: &mut Device<MemNand>,
    names: &[u32],
    buf: &mut PageBuf,
    wanted: &mut PageBuf,
) -> Option<Wrong>
    requires { ⟦<Device<MemNand> as Counts>⟧.formed device.old }
    ensures { ⟦<Device<MemNand> as Counts>⟧.formed device.new }
{
    'pages: for (number, name) in names.iter().enumerate() {
        if number < 480 {
            let number = number as u32;
            let at = Pointer {
                name: *name,
                stamp: stamp(number),
            };
            let wrong = wrong_page(device, at, tag(number), number, buf, wanted);
            if wrong.is_some() {
                return wrong;
            }
        }
    }
    None
}

/// The number of the page in flight of that place of a worker's line.
pub fn flight_number(worker: u8, place: u32) -> u32
    requires worker { worker < 8 }
    requires place { place < 16 }
    ensures { result < 1024 }
{
    600 + 16 * u32::from(worker) + place
}

/// Whether other pages are in flight than the first so many of each worker.
fn wrong_flight(
    device: &mut Device<MemNand>,
    flight: &Flight,
    each: u32,
    buf: &mut PageBuf,
    wanted: &mut PageBuf,
) -> Option<Wrong>
    requires { ⟦<Device<MemNand> as Counts>⟧.formed device.old }
    ensures { ⟦<Device<MemNand> as Counts>⟧.formed device.new }
{
    let mut count = 0u32;
    'workers: for worker in 0..8u8 {
        'places: for place in 0..16 {
            if let Some((_, at, tag)) = flight.get(worker, place) {
                count = count.saturating_add(1);
                let wrong = wrong_page(device, at, tag, flight_number(worker, place), buf, wanted);
                if wrong.is_some() {
                    return wrong;
                }
            }
        }
    }
    if count == each {
        None
    } else {
        Some(Wrong::InFlight(count))
    }
}

/// What of a volume is not as it was built, after so many calls, with so many pages in flight.
pub fn first_wrong(
    core: &mut Core<Device<MemNand>>,
    calls: u64,
    in_flight: u32,
    work: &mut Work,
) -> Option<Wrong>
    requires { ⟦<Device<MemNand> as Counts>⟧.formed core.old.device }
{
    find_names(&core.meta, &mut work.names);
    let address = wrong_address(&core.meta, &work.names, calls, &mut work.wanted);
    if address.is_some() {
        return address;
    }
    let page = wrong_pages(
        &mut core.device,
        &work.names,
        &mut work.buf,
        &mut work.wanted,
    );
    if page.is_some() {
        return page;
    }
    wrong_flight(
        &mut core.device,
        &core.flight,
        in_flight,
        &mut work.buf,
        &mut work.wanted,
    )
}
