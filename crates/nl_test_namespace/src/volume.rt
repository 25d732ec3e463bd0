// A volume that was opened over a device, and is opened again.
ghost use Rattle.std.specs.Prelude.{◌≡◌, ◌≤◌, IfOk, length};
ghost use Rattle.nl_test_namespace.specs.Volumes.{AddressesCanBeWritten, IsOpen};
ghost use Rattle.nl_namespace.specs.Calls.{PathsHaveNames, IsOfNames};

use crate::calls::{Outcome, Seen, changed, listed};
use crate::device::Stamps;
use crate::making::makes;
use crate::paths::Series;
use crate::writer::save;
use nl_field::{Memory, PageBuf, Shape};
use nl_inode::Nodes;
use nl_meta::Meta;
use nl_recover::{Recovered, Walked, recover};
use nl_scan::ScanTables;
use nl_tree::{Call, Path, ReplyBuf};
use std::alloc::Global;

/// The pages of a volume in memory, and what is free.
#[derive(Drop)]
pub struct Volume {
    pub meta: Meta,
    pub nodes: Nodes,
}

/// A volume after a call, and what that answered.
#[derive(Drop)]
pub struct After {
    pub volume: Volume,
    pub seen: Seen,
}

/// The volume of a device.
pub fn opened<D: Stamps>(
    alloc: Global,
    device: &mut D,
    shape: &Shape,
    scan: &ScanTables,
) -> Result<Volume, Memory>
    requires write { AddressesCanBeWritten D.Counts device.old shape.now }
    ensures write { IfOk result (λ v. AddressesCanBeWritten D.Counts device.new shape.now) }
    ensures volume { IfOk result (λ v. IsOpen D.Counts device.new v.meta v.nodes) }
{
    match recover(alloc, device, shape, scan) {
        Recovered::Ready(walked) => {
            let Walked { meta, nodes, .. } = walked;
            Ok(Volume { meta, nodes })
        }
        other => {
            drop(other);
            Err(Memory)
        }
    }
}

/// All that is resident is written, and the volume is opened again. A node that lost its name, if one did, is free then.
pub fn reopened<D: Stamps>(
    alloc: Global,
    device: &mut D,
    shape: &Shape,
    scan: &ScanTables,
    meta: &Meta,
    gone: Option<u32>,
) -> Result<Volume, Memory>
    requires write { AddressesCanBeWritten D.Counts device.old shape.now }
    ensures write { IfOk result (λ v. AddressesCanBeWritten D.Counts device.new shape.now) }
    ensures volume { IfOk result (λ v. IsOpen D.Counts device.new v.meta v.nodes) }
{
    let mut buf = PageBuf::new(alloc)?;
    let saved = save(device, shape, meta, gone, &mut buf, 0);
    drop(buf);
    if saved {
        opened(alloc, device, shape, scan)
    } else {
        Err(Memory)
    }
}

/// The volume, opened again where many pages are dirty.
fn settled<D: Stamps>(
    alloc: Global,
    device: &mut D,
    shape: &Shape,
    scan: &ScanTables,
    volume: Volume,
) -> Result<Volume, Memory>
    requires write { AddressesCanBeWritten D.Counts device.old shape.now }
    requires volume { IsOpen D.Counts device.old volume.meta volume.nodes }
    ensures write { IfOk result (λ v. AddressesCanBeWritten D.Counts device.new shape.now) }
    ensures volume { IfOk result (λ v. IsOpen D.Counts device.new v.meta v.nodes) }
{
    if volume.meta.dirty() > 40 {
        let again = reopened(alloc, device, shape, scan, &volume.meta, None);
        drop(volume);
        again
    } else {
        Ok(volume)
    }
}

/// Does a call that changes names.
pub fn change_names<D: Stamps>(
    alloc: Global,
    device: &mut D,
    shape: &Shape,
    scan: &ScanTables,
    volume: Volume,
    call: &Call,
) -> Result<After, Memory>
    requires write { AddressesCanBeWritten D.Counts device.old shape.now }
    requires volume { IsOpen D.Counts device.old volume.meta volume.nodes }
    requires names { PathsHaveNames call.now }
    requires of_names { IsOfNames call.now }
    ensures write { IfOk result (λ a. AddressesCanBeWritten D.Counts device.new shape.now) }
    ensures volume { IfOk result (λ a. IsOpen D.Counts device.new a.volume.meta a.volume.nodes) }
{
    let Volume {
        mut meta,
        mut nodes,
    } = volume;
    let Outcome { seen, gone } = changed(device, &mut meta, &mut nodes, call);
    match gone {
        Some(_) => {
            let again = reopened(alloc, device, shape, scan, &meta, gone);
            drop(Volume { meta, nodes });
            let volume = again?;
            Ok(After { volume, seen })
        }
        None => {
            let volume = settled(alloc, device, shape, scan, Volume { meta, nodes })?;
            Ok(After { volume, seen })
        }
    }
}

/// Makes the paths of a series from a number on, until one is refused.
pub fn make_all<D: Stamps>(
    alloc: Global,
    device: &mut D,
    shape: &Shape,
    scan: &ScanTables,
    volume: Volume,
    series: Series,
    number: u32,
    parts: u32,
) -> Result<After, Memory>
    requires write { AddressesCanBeWritten D.Counts device.old shape.now }
    requires volume { IsOpen D.Counts device.old volume.meta volume.nodes }
    ensures write { IfOk result (λ a. AddressesCanBeWritten D.Counts device.new shape.now) }
    ensures volume { IfOk result (λ a. IsOpen D.Counts device.new a.volume.meta a.volume.nodes) }
{
    let Volume {
        mut meta,
        mut nodes,
    } = volume;
    let made = makes(alloc, device, &mut meta, &mut nodes, series, number);
    let volume = settled(alloc, device, shape, scan, Volume { meta, nodes })?;
    if let Some(refusal) = made.refusal {
        let seen = Seen::Made(made.count, refusal);
        return Ok(After { volume, seen });
    }
    if parts == 0 {
        drop(volume);
        return Err(Memory);
    }
    make_all(
        alloc,
        device,
        shape,
        scan,
        volume,
        series,
        made.count,
        parts - 1,
    )
}

/// Lists the directory of a path.
pub fn list_names<D: Stamps>(
    alloc: Global,
    device: &mut D,
    shape: &Shape,
    volume: Volume,
    path: &Path,
) -> Result<After, Memory>
    requires write { AddressesCanBeWritten D.Counts device.old shape.now }
    requires volume { IsOpen D.Counts device.old volume.meta volume.nodes }
    ensures write { IfOk result (λ a. AddressesCanBeWritten D.Counts device.new shape.now) }
    ensures volume { IfOk result (λ a. IsOpen D.Counts device.new a.volume.meta a.volume.nodes) }
{
    let _shape = shape;
    let mut out = ReplyBuf::new(alloc)?;
    let Volume { mut meta, nodes } = volume;
    let seen = listed(device, &mut meta, &nodes, path, &mut out);
    let volume = Volume { meta, nodes };
    Ok(After { volume, seen })
}
