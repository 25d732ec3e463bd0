//! The pages of the journal are read at an opening.
ghost use Rattle.std.specs.Prelude.{◌≡◌, ◌<◌, ◌≤◌, ◌+◌, ◌-◌, ◌*◌, ◌^◌, ℕ, length, Some, None, IfSome, nat_lt, true, option_and_then};
ghost use Rattle.std.specs.List.{list_all};
ghost use Rattle.nl_field.specs.Journal.{are_home_addresses};
ghost use Rattle.nl_iface.specs.Calls.{OnlyReads, ReadsCounted};
ghost use Rattle.nl_meta.specs.Committed.{within_volume};
ghost use Rattle.nl_journal.specs.Opening.{IfThere, IsSeenFault, SeenAt, SeesPage, are_there};
ghost use Rattle.nl_journal.specs.Outcomes.{bytes_of};
ghost use Rattle.nl_journal.specs.Restoring.{AreRestored, IsVolumeHeader};
ghost use Rattle.nl_journal.specs.Transaction.{head, mark};

use nl_field::{AddressList, CommitRec, HeaderRec, PageBuf, Shape, VirtualRead};
use nl_iface::VirtualPages;
use nl_meta::Meta;

/// What a read of one page of the journal finds.
#[derive(Clone, Copy, Debug, PartialEq, Eq)]
pub(crate) enum Seen {
    There,
    Absent,
    Fault,
}

/// Reads a page of the journal. One that is lost counts as absent.
pub(crate) fn see<D: VirtualPages>(device: &mut D, vaddr: u32, page: &mut PageBuf) -> Seen
    requires formed { D.formed device.old }
    requires within { vaddr < (D.shape device.old).vaddrs }
    ensures formed { D.formed device.new }
    ensures seen { D.tells → SeenAt (bytes_of (D.map device.old) vaddr) page.new.main result }
    ensures kept { OnlyReads D.Counts device.old device.new }
    ensures faults { ReadsCounted D.Counts (IsSeenFault result) device.old device.new }
{
    match device.virtual_read(vaddr, page) {
        VirtualRead::Done => Seen::There,
        VirtualRead::Unmapped => Seen::Absent,
        VirtualRead::Lost { .. } => Seen::Absent,
        VirtualRead::Fault => Seen::Fault,
    }
}

/// The header that is spelled, None in place of that where the read failed.
#[tactic(auto, using(crate::proofs::Openings::header_if))]
pub(crate) fn header<D: VirtualPages>(
    device: &mut D,
    page: &mut PageBuf,
    shape: &Shape,
) -> Option<Option<HeaderRec>>
    requires formed { D.formed device.old }
    requires shape { shape.now ≡ D.shape device.old }
    ensures formed { D.formed device.new }
    ensures spelled { IfSome result (λ o. IfSome o (λ h. (h.number < 2 ^ 63) × IsVolumeHeader shape.now h)) }
    ensures header { D.tells → IfSome result (λ h. h ≡ head (D.shape device.old) (bytes_of (D.map device.old) 1)) }
    ensures kept { OnlyReads D.Counts device.old device.new }
    ensures faults { ReadsCounted D.Counts (result ≡ None) device.old device.new }
{
    match see(device, 1, page) {
        Seen::There => Some(on_volume(HeaderRec::of(page, 0), shape)),
        Seen::Absent => Some(None),
        Seen::Fault => None,
    }
}

/// The header, where each of its addresses is one of the volume.
fn on_volume(header: Option<HeaderRec>, shape: &Shape) -> Option<HeaderRec>
    ensures { result ≡ option_and_then (within_volume shape.now) header }
{
    match header {
        Some(header) => {
            if are_below(header.addresses.as_slice(), shape.vaddrs) {
                Some(header)
            } else {
                None
            }
        }
        None => None,
    }
}

/// The commit record that is spelled, None in place of that where the read failed.
#[tactic(auto, using(crate::proofs::Openings::commit_if))]
pub(crate) fn commit_page<D: VirtualPages>(
    device: &mut D,
    page: &mut PageBuf,
) -> Option<Option<CommitRec>>
    requires formed { D.formed device.old }
    ensures formed { D.formed device.new }
    ensures spelled { IfSome result (λ o. IfSome o (λ k. k.number < 2 ^ 63)) }
    ensures mark { D.tells → IfSome result (λ k. k ≡ mark (bytes_of (D.map device.old) 66)) }
    ensures kept { OnlyReads D.Counts device.old device.new }
    ensures faults { ReadsCounted D.Counts (result ≡ None) device.old device.new }
{
    match see(device, 66, page) {
        Seen::There => Some(CommitRec::of(page, 0)),
        Seen::Absent => Some(None),
        Seen::Fault => None,
    }
}

/// Whether so many images from a place on are there, None where a read failed.
pub(crate) fn are_there<D: VirtualPages>(
    device: &mut D,
    page: &mut PageBuf,
    from: u32,
    count: u32,
) -> Option<bool>
    requires formed { D.formed device.old }
    requires few { from + count ≤ 64 }
    ensures formed { D.formed device.new }
    ensures images { D.tells → IfSome result (λ b. b ≡ are_there (bytes_of (D.map device.old)) from count) }
    ensures kept { OnlyReads D.Counts device.old device.new }
    ensures faults { ReadsCounted D.Counts (result ≡ None) device.old device.new }
{
    if count == 0 {
        return Some(true);
    }
    match see(device, 2 + from, page) {
        Seen::There => are_there(device, page, from + 1, count - 1),
        Seen::Absent => Some(false),
        Seen::Fault => None,
    }
}

/// Makes the images of these addresses from a place on the frozen pages behind those before, and resident. False where one of them is not
/// there, None where a read failed.
pub(crate) fn images<D: VirtualPages>(
    device: &mut D,
    meta: &mut Meta,
    page: &mut PageBuf,
    addresses: &AddressList,
    from: u32,
) -> Option<bool>
    requires formed { D.formed device.old }
    requires few { length addresses.now ≤ 64 }
    requires rise { are_home_addresses addresses.now ≡ true }
    requires inside { list_all (λ a. nat_lt a (length meta.old.running)) addresses.now ≡ true }
    requires within { from ≤ length addresses.now }
    requires before { AreRestored D.tells (bytes_of (D.map device.old)) addresses.now from meta.old }
    ensures formed { D.formed device.new }
    ensures count { length meta.new.running ≡ length meta.old.running }
    ensures images { D.tells → IfSome result (λ b. b ≡ are_there (bytes_of (D.map device.old)) from (length addresses.now - from)) }
    ensures restored { result ≡ Some true
        → AreRestored D.tells (bytes_of (D.map device.old)) addresses.now (length addresses.now) meta.new }
    ensures kept { OnlyReads D.Counts device.old device.new }
    ensures faults { ReadsCounted D.Counts (result ≡ None) device.old device.new }
{
    if addresses.len() <= from {
        return Some(true);
    }
    match image(device, meta, page, addresses, from) {
        Seen::There => images(device, meta, page, addresses, from + 1),
        Seen::Absent => Some(false),
        Seen::Fault => None,
    }
}

// Makes the image of the address at a place a frozen page behind those before, and resident.
fn image<D: VirtualPages>(
    device: &mut D,
    meta: &mut Meta,
    page: &mut PageBuf,
    addresses: &AddressList,
    at: u32,
) -> Seen
    requires formed { D.formed device.old }
    requires few { length addresses.now ≤ 64 }
    requires rise { are_home_addresses addresses.now ≡ true }
    requires inside { list_all (λ a. nat_lt a (length meta.old.running)) addresses.now ≡ true }
    requires below { at < length addresses.now }
    requires before { AreRestored D.tells (bytes_of (D.map device.old)) addresses.now at meta.old }
    ensures formed { D.formed device.new }
    ensures count { length meta.new.running ≡ length meta.old.running }
    ensures inside { list_all (λ a. nat_lt a (length meta.new.running)) addresses.now ≡ true }
    ensures tells { D.tells → SeesPage (bytes_of (D.map device.old) (2 + at)) result }
    ensures restored { IfThere result (AreRestored D.tells (bytes_of (D.map device.new)) addresses.now (at + 1) meta.new) }
    ensures kept { OnlyReads D.Counts device.old device.new }
    ensures faults { ReadsCounted D.Counts (IsSeenFault result) device.old device.new }
{
    meta.stands();
    match see(device, 2 + at, page) {
        Seen::There => {
            meta.restore(*addresses.get(at), page);
            Seen::There
        }
        Seen::Absent => Seen::Absent,
        Seen::Fault => Seen::Fault,
    }
}

/// Whether each address is below the count.
pub(crate) fn are_below(addresses: &[u32], vaddrs: u32) -> bool
    ensures { result ≡ list_all (λ a. nat_lt a vaddrs) addresses.now }
{
    for address in addresses {
        if *address >= vaddrs {
            return false;
        }
    }
    true
}
