//! What a node is, told from its page without the rest of its record.
ghost use Rattle.std.specs.Prelude.{◌≡◌, ◌<◌, IfOk, length, slice_index};
ghost use Rattle.nl_field.specs.Inode.{kind_of};
ghost use Rattle.nl_field.specs.declared.inode.InodeRec.{InodeRec as Inode};
ghost use Rattle.nl_meta.specs.Nodes.{slot_in};
ghost use Rattle.nl_meta_running.specs.Reading.{ReadsExplainStop, stop_of};
ghost use Rattle.nl_meta_running.specs.Running.{IsNodeOf, IsUsedNode, RunningIsRight, PreservesRunning};

use nl_field::{Kind, PageBuf};
use nl_iface::VirtualPages;
use nl_meta::Meta;
use nl_meta_running::{Stop, hold};

/// What a used node is, whose page becomes resident. Nothing else of its record is read.
pub(crate) fn node_kind<D: VirtualPages>(
    device: &mut D,
    meta: &mut Meta,
    ino: u32,
) -> Result<Kind, Stop>
    requires formed { D.formed device.old }
    requires runs { RunningIsRight D.Counts device.old meta.old }
    requires used { IsUsedNode D.Counts device.old meta.old ino }
    ensures formed { D.formed device.new }
    ensures kept { PreservesRunning D.Counts device.old meta.old device.new meta.new }
    ensures reads { ReadsExplainStop D.Counts device.old device.new (stop_of result) }
    ensures kind { IfOk result (λ kind. (rec : Inode) × IsNodeOf D.Counts device.old meta.old ino rec × (rec.kind ≡ kind)) }
{
    match hold(device, meta, 67 + ino / 16) {
        Ok(()) => Ok(slot_kind(meta.page(67 + ino / 16), ino % 16)),
        Err(stop) => Err(stop),
    }
}

// What the node in a slot is.
fn slot_kind(page: &PageBuf, slot: u32) -> Kind
    requires { slot < 16 }
    ensures { result ≡ kind_of (slice_index (slot_in 256 slot page.now.main) 0) }
{
    let at = 256 * slot as usize;
    kind_in(&page.main()[at..at + 256])
}

// What the node is whose 256 bytes these are.
fn kind_in(bytes: &[u8]) -> Kind
    requires { length bytes.now ≡ 256 }
    ensures { result ≡ kind_of (slice_index bytes.now 0) }
{
    match bytes[0] {
        1 => Kind::File,
        2 => Kind::Dir,
        _ => Kind::Unused,
    }
}
