//! The journal of a volume, and its units: each writes one page of the frozen transaction, or copies one home.
ghost use Rattle.std.specs.Prelude.{◌≡◌, ◌⊎◌, ◌<◌, ◌≤◌, ◌+◌, ◌-◌, ◌^◌, ℕ, [], length, max, IfOk, IfSome, None, Some};
ghost use Rattle.nl_field.specs.CrashStates.{Earlier};
ghost use Rattle.nl_iface.specs.Answers.{IsLostStamp, LosesStamp};
ghost use Rattle.nl_iface.specs.Calls.{CallCounted, DoneOrFailed, LeavesAt, OnlyReads, ReadsCounted, TakesStamp, Ticks};
ghost use Rattle.nl_journal.specs.Committing.{ahead_on, committed_on, finished_on};
ghost use Rattle.nl_journal.specs.Homes.{BringsHome, WritesHome};
ghost use Rattle.nl_journal.specs.Left.{CommitWrites, DirtyWrites, FinishWrites, UnitWrites};
ghost use Rattle.nl_journal.specs.Opening.{FindsTransaction, commit_number, counted_in, deciding, header_number, phase_found};
ghost use Rattle.nl_journal.specs.Outcomes.{Agrees, bytes_of};
ghost use Rattle.nl_journal.specs.Passes.{ChangesAddressesOnly};
ghost use Rattle.nl_journal.specs.Progress.{HasNumber, IsPhase, Progress, begun, next, next_after as after, raised as raised_from, units_left};
ghost use Rattle.nl_journal.specs.Restoring.{BringsBack, IsVolumeHeader, Restores};
ghost use Rattle.nl_journal.specs.Standing.{JournalInOrder};
ghost use Rattle.nl_journal.specs.Transaction.{IsTransaction, head};
ghost use Rattle.nl_journal.specs.Units.{Advances, CommitsDirty, EndsCommit, Finishes, IfCommitted, IfCommitLost, IfLostUnit, CommitIsDone, UnitIsDone, Waits, answer};
ghost use Rattle.nl_meta.specs.Committed.{counting, next_number as number_of_next};
ghost use Rattle.nl_meta.specs.Pages.{dirty_pages, no_pages};

use crate::due::{LAST, due, frozen_len, next_after};
use crate::put::put;
use crate::reading::{are_there, commit_page, header, images};
use crate::{Committing, Phase, ReadBack, Unit};
use nl_field::{CommitRec, HeaderRec, Memory, PageBuf, Shape, VirtualWrite};
use nl_iface::VirtualPages;
use nl_meta::Meta;
use std::alloc::Global;
use std::marker::Model;

/// The journal of a volume. It is seen as the number of the last transaction whose commit page was written, and the page that
/// is due of the frozen one.
#[derive(Drop)]
pub struct Journal {
    number: u64,
    phase: Phase,
    page: PageBuf,
}

impl Model for Journal {
    ghost use Rattle.std.specs.Prelude.{◌≤◌, ◌^◌};
    ghost use Rattle.nl_journal.specs.Progress.{Progress};

    ghost Value = { Progress };

    ghost view = { λ j. record { number = j.number; phase = j.phase } };

    ghost invariant = { λ j. j.number ≤ 2 ^ 63 };
}

impl Journal {
    /// A journal before its first transaction.
    pub fn new(alloc: Global) -> Result<Journal, Memory>
        ensures { IfOk result (λ j. j ≡ record { number = 0; phase = Phase.Header }) }
    {
        Ok(Journal {
            number: 0,
            phase: Phase::Header,
            page: PageBuf::new(alloc)?,
        })
    }

    /// The number that the next commit page will have, up to 2^63 - 1: of the transaction that is being written, until its commit page is,
    /// else of the next one to begin.
    pub fn next_number(&self) -> u64
        ensures { result ≡ after self.now.number }
    {
        next_after(self.number)
    }

    /// The number of the last transaction that was begun, up to 2^63. Pages that are frozen are one.
    pub fn begun(&self, meta: &Meta) -> u64
        ensures number { result ≡ begun self.now (length meta.now.frozen.addresses) }
        ensures most { result ≤ 2 ^ 63 }
    {
        let raised = (self.number + 1).min(1 << 63);
        match self.phase {
            Phase::Header => {
                if frozen_len(meta) == 0 {
                    self.number
                } else {
                    raised
                }
            }
            Phase::Image(_) | Phase::Commit => raised,
            Phase::Home(_) => self.number,
        }
    }

    /// The units left of the frozen transaction, 0 where nothing is frozen. The frozen pages are those of the metadata.
    pub fn left(&self, meta: &Meta) -> u32
        requires { IsPhase self.now.phase (length meta.now.frozen.addresses) }
        ensures { result ≡ units_left self.now.phase (length meta.now.frozen.addresses) }
    {
        let count = frozen_len(meta);
        match self.phase {
            Phase::Header => { if count == 0 { 0 } else { 2 * count + 2 } }
            Phase::Image(i) => 2 * count + 1 - i,
            Phase::Commit => count + 1,
            Phase::Home(i) => count - i,
        }
    }

    /// Does one write of the frozen transaction: the header, an image, the commit page, or a page copied home. After `Lost`
    /// and `Fault` the same unit is still to be done. Of the committed pages a stop within it leaves those of before or, where
    /// the commit page is due, those with the frozen ones, and these once it is done. Whatever its number, it changes no page at
    /// an address of the volume but that of one that it copies home.
    pub fn unit<D: VirtualPages>(&mut self, device: &mut D, meta: &mut Meta) -> Unit
        requires formed { D.formed device.old }
        requires spare { D.keeps_spare device.old }
        requires stamp { D.next_stamp device.old < 2 ^ 63 }
        requires some { 1 ≤ length meta.old.frozen.addresses }
        requires order { JournalInOrder D.Counts device.old self.old meta.old.frozen }
        ensures formed { D.formed device.new }
        ensures order { JournalInOrder D.Counts device.new self.new meta.new.frozen }
        ensures advances { Advances result self.old self.new meta.old meta.new }
        ensures writes { D.tells → HasNumber self.old (length meta.old.frozen.addresses)
            → UnitWrites D.Counts (UnitIsDone result) self.old self.new meta.old meta.new device.old device.new }
        ensures home { D.tells → WritesHome self.old.phase meta.old.frozen (UnitIsDone result) (D.shape device.old).vaddrs
            (bytes_of (D.map device.old)) (bytes_of (D.map device.new)) }
        ensures passes { ChangesAddressesOnly D.Counts (UnitIsDone result) 1 device.old device.new }
        ensures lost { IfLostUnit result (IsLostStamp D.tells (D.stamps device.new)) }
        ensures next_stamp { TakesStamp D.Counts (DoneOrFailed D.Counts (UnitIsDone result) device.old device.new) device.old device.new }
        ensures clock { Ticks D.Counts (UnitIsDone result) device.old device.new }
        ensures faults { CallCounted D.Counts (result ≡ Unit.Fault) device.old device.new }
    {
        let vaddr = due(&mut self.page, self.phase, self.number, meta);
        match put(device, vaddr, &self.page) {
            VirtualWrite::Done => self.advance(meta),
            VirtualWrite::Lost { wanted, found } => Unit::Lost { wanted, found },
            VirtualWrite::Fault => Unit::Fault,
        }
    }

    /// Makes all dirty pages take effect at once: it finishes the frozen transaction, where there is one, and then freezes the dirty pages
    /// and finishes these. After `Lost` and `Fault` the pages in memory are as before, or the dirty ones are frozen; the next commit goes
    /// on where this one stopped, and the number tells which pages are committed. A stop within it leaves the committed pages of before, or
    /// those with the frozen ones, or those with the dirty ones too, and after `Done` the last.
    pub fn commit<D: VirtualPages>(&mut self, device: &mut D, meta: &mut Meta) -> Committing
        requires formed { D.formed device.old }
        requires spare { D.keeps_spare device.old }
        requires stamp { D.next_stamp device.old < 2 ^ 63 - 1024 }
        requires dirty { IsTransaction (D.shape device.old).vaddrs (dirty_pages meta.old) }
        requires order { JournalInOrder D.Counts device.old self.old meta.old.frozen }
        ensures formed { D.formed device.new }
        ensures order { JournalInOrder D.Counts device.new self.new meta.new.frozen }
        ensures running { meta.new.running ≡ meta.old.running }
        ensures done { IfCommitted result (λ n. EndsCommit n self.old self.new meta.old meta.new) }
        ensures waits { (CommitIsDone result → ⊥) → Waits meta.old meta.new }
        ensures writes { D.tells → HasNumber self.new (length meta.new.frozen.addresses)
            → CommitWrites D.Counts (CommitIsDone result) self.old self.new meta.old meta.new device.old device.new }
        ensures passes { ChangesAddressesOnly D.Counts (CommitIsDone result) 1024 device.old device.new }
        ensures lost { IfCommitLost result (IsLostStamp D.tells (D.stamps device.new)) }
        ensures clock { Ticks D.Counts (CommitIsDone result) device.old device.new }
        ensures faults { CallCounted D.Counts (result ≡ Committing.Fault) device.old device.new }
    {
        match self.finish(device, meta, 0) {
            VirtualWrite::Done => self.commit_dirty(device, meta),
            VirtualWrite::Lost { wanted, found } => Committing::Lost { wanted, found },
            VirtualWrite::Fault => Committing::Fault,
        }
    }

    /// Reads the journal of a volume that was opened: whether a transaction counts, and its number. A page that is lost counts as
    /// not readable. Where one counts, its pages are to be copied home.
    pub fn read_back<D: VirtualPages>(&mut self, device: &mut D, shape: &Shape) -> ReadBack
        requires formed { D.formed device.old }
        requires shape { shape.now ≡ D.shape device.old }
        ensures formed { D.formed device.new }
        ensures found { D.tells → FindsTransaction (D.shape device.old) (bytes_of (D.map device.old)) result }
        ensures number { D.tells → (result ≡ ReadBack.Fault → ⊥)
            → self.new.number + 1 ≡ number_of_next (D.shape device.old) (bytes_of (D.map device.old)) }
        ensures phase { self.new.phase ≡ phase_found result }
        ensures kept { OnlyReads D.Counts device.old device.new }
        ensures faults { ReadsCounted D.Counts (result ≡ ReadBack.Fault) device.old device.new }
    {
        match self.read_ends(device, shape) {
            None => ReadBack::Fault,
            Some(None) => ReadBack::Nothing,
            Some(Some(header)) => {
                match are_there(device, &mut self.page, 0, header.addresses.len()) {
                    None => ReadBack::Fault,
                    Some(false) => ReadBack::Nothing,
                    Some(true) => {
                        self.phase = Phase::Home(0);
                        ReadBack::Agreed(header.number)
                    }
                }
            }
        }
    }

    /// Reads the journal back, each page of it once, and makes the images of the transaction that counts the frozen pages, and resident.
    /// Where none counts no page is resident, as none was before.
    pub fn bring_back<D: VirtualPages>(
        &mut self,
        device: &mut D,
        meta: &mut Meta,
        shape: &Shape,
    ) -> ReadBack
        requires formed { D.formed device.old }
        requires shape { shape.now ≡ D.shape device.old }
        requires none { meta.old ≡ no_pages shape.now.vaddrs }
        ensures formed { D.formed device.new }
        ensures found { D.tells → FindsTransaction (D.shape device.old) (bytes_of (D.map device.old)) result }
        ensures back { (result ≡ ReadBack.Fault → ⊥) → BringsBack D.Counts device.new self.new meta.new }
        ensures phase { self.new.phase ≡ phase_found result }
        ensures kept { OnlyReads D.Counts device.old device.new }
        ensures faults { ReadsCounted D.Counts (result ≡ ReadBack.Fault) device.old device.new }
    {
        match self.read_ends(device, shape) {
            None => ReadBack::Fault,
            Some(None) => {
                meta.stands();
                ReadBack::Nothing
            }
            Some(Some(header)) => {
                let found = self.bring_images(device, meta, header);
                meta.stands();
                found
            }
        }
    }

    // Makes the images that the header lists the frozen pages, and resident, where all are there.
    fn bring_images<D: VirtualPages>(
        &mut self,
        device: &mut D,
        meta: &mut Meta,
        header: HeaderRec,
    ) -> ReadBack
        requires formed { D.formed device.old }
        requires none { meta.old ≡ no_pages (D.shape device.old).vaddrs }
        requires listing { IsVolumeHeader (D.shape device.old) header }
        requires header { D.tells → head (D.shape device.old) (bytes_of (D.map device.old) 1) ≡ Some header }
        requires decides { D.tells
            → counting (D.shape device.old) (bytes_of (D.map device.old)) ≡ counted_in (bytes_of (D.map device.old)) (Some header) }
        requires phase { self.old.phase ≡ Phase.Header }
        ensures formed { D.formed device.new }
        ensures found { D.tells → FindsTransaction (D.shape device.old) (bytes_of (D.map device.old)) result }
        ensures count { length meta.new.running ≡ length meta.old.running }
        ensures restored { Restores D.tells (D.shape device.old) (bytes_of (D.map device.old)) result meta.new }
        ensures number { self.new.number ≡ self.old.number }
        ensures phase { self.new.phase ≡ phase_found result }
        ensures kept { OnlyReads D.Counts device.old device.new }
        ensures faults { ReadsCounted D.Counts (result ≡ ReadBack.Fault) device.old device.new }
    {
        match images(device, meta, &mut self.page, &header.addresses, 0) {
            None => ReadBack::Fault,
            Some(false) => {
                meta.clear();
                ReadBack::Nothing
            }
            Some(true) => {
                self.phase = Phase::Home(0);
                ReadBack::Agreed(header.number)
            }
        }
    }

    // Reads header and commit page. The header whose images decide whether its transaction counts, if there is one, None in place of that
    // where a read failed.
    fn read_ends<D: VirtualPages>(
        &mut self,
        device: &mut D,
        shape: &Shape,
    ) -> Option<Option<HeaderRec>>
        requires formed { D.formed device.old }
        requires shape { shape.now ≡ D.shape device.old }
        ensures formed { D.formed device.new }
        ensures listing { IfSome result (λ o. IfSome o (IsVolumeHeader shape.now)) }
        ensures header { D.tells → IfSome result (λ o. IfSome o (λ h. head (D.shape device.old) (bytes_of (D.map device.old) 1) ≡ Some h)) }
        ensures decides { D.tells → IfSome result
            (λ o. counting (D.shape device.old) (bytes_of (D.map device.old)) ≡ counted_in (bytes_of (D.map device.old)) o) }
        ensures number { D.tells
            → IfSome result (λ o. self.new.number + 1 ≡ number_of_next (D.shape device.old) (bytes_of (D.map device.old))) }
        ensures phase { self.new.phase ≡ Phase.Header }
        ensures kept { OnlyReads D.Counts device.old device.new }
        ensures faults { ReadsCounted D.Counts (result ≡ None) device.old device.new }
    {
        self.number = 0;
        self.phase = Phase::Header;
        match header(device, &mut self.page, shape) {
            None => None,
            Some(header) => match commit_page(device, &mut self.page) {
                None => None,
                Some(commit) => Some(self.judge(header, commit)),
            },
        }
    }

    // Keeps the greater number of the two records. The header, where both have one.
    fn judge(&mut self, header: Option<HeaderRec>, commit: Option<CommitRec>) -> Option<HeaderRec>
        requires header { IfSome header (λ h. h.number < 2 ^ 63) }
        requires commit { IfSome commit (λ k. k.number < 2 ^ 63) }
        ensures decides { result ≡ deciding header commit }
        ensures number { self.new.number ≡ max (header_number header) (commit_number commit) }
        ensures phase { self.new.phase ≡ self.old.phase }
    {
        match (header, commit) {
            (Some(header), Some(commit)) => {
                self.number = header.number.max(commit.number);
                if header.number == commit.number {
                    Some(header)
                } else {
                    None
                }
            }
            (Some(header), None) => {
                self.number = header.number;
                None
            }
            (None, Some(commit)) => {
                self.number = commit.number;
                None
            }
            (None, None) => {
                self.number = 0;
                None
            }
        }
    }

    /// Does the units of the frozen transaction until at most so many are left, which are no more than its pages: 0 for all of them,
    /// and as many as its pages until the commit page is written. After `Lost` and `Fault` the next unit is still to be done. Of the
    /// committed pages a stop within it leaves those of before or those with the frozen ones, and these once it is done.
    pub fn finish<D: VirtualPages>(
        &mut self,
        device: &mut D,
        meta: &mut Meta,
        until: u32,
    ) -> VirtualWrite
        requires formed { D.formed device.old }
        requires spare { D.keeps_spare device.old }
        requires stamp { D.next_stamp device.old + units_left self.old.phase (length meta.old.frozen.addresses) ≤ 2 ^ 63 }
        requires order { JournalInOrder D.Counts device.old self.old meta.old.frozen }
        requires until { until ≤ length meta.old.frozen.addresses }
        ensures formed { D.formed device.new }
        ensures order { JournalInOrder D.Counts device.new self.new meta.new.frozen }
        ensures finishes { Finishes until (result ≡ VirtualWrite.Done) self.old self.new meta.old meta.new }
        ensures writes { D.tells → HasNumber self.old (length meta.old.frozen.addresses)
            → FinishWrites D.Counts (result ≡ VirtualWrite.Done) self.old self.new meta.old meta.new device.old device.new }
        ensures home { D.tells → BringsHome (D.shape device.old).vaddrs self.old self.new meta.old.frozen meta.new.frozen
            (bytes_of (D.map device.old)) (bytes_of (D.map device.new)) }
        ensures passes { ChangesAddressesOnly D.Counts (result ≡ VirtualWrite.Done)
            (units_left self.old.phase (length meta.old.frozen.addresses)) device.old device.new }
        ensures lost { LosesStamp D.tells (D.stamps device.new) result }
        ensures clock { Ticks D.Counts
            ((result ≡ VirtualWrite.Done) × (until < units_left self.old.phase (length meta.old.frozen.addresses))) device.old device.new }
        ensures faults { CallCounted D.Counts (result ≡ VirtualWrite.Fault) device.old device.new }
    {
        if self.left(meta) <= until {
            return VirtualWrite::Done;
        }
        match self.unit(device, meta) {
            Unit::Lost { wanted, found } => VirtualWrite::Lost { wanted, found },
            Unit::Fault => VirtualWrite::Fault,
            _ => self.finish(device, meta, until),
        }
    }

    // Freezes the dirty pages, and finishes them.
    fn commit_dirty<D: VirtualPages>(&mut self, device: &mut D, meta: &mut Meta) -> Committing
        requires formed { D.formed device.old }
        requires spare { D.keeps_spare device.old }
        requires stamp { D.next_stamp device.old < 2 ^ 63 - 512 }
        requires header { self.old.phase ≡ Phase.Header }
        requires none { meta.old.frozen.addresses ≡ [] }
        requires dirty { IsTransaction (D.shape device.old).vaddrs (dirty_pages meta.old) }
        requires order { JournalInOrder D.Counts device.old self.old meta.old.frozen }
        ensures formed { D.formed device.new }
        ensures order { JournalInOrder D.Counts device.new self.new meta.new.frozen }
        ensures commits { CommitsDirty result self.old self.new meta.old meta.new }
        ensures writes { D.tells → HasNumber self.new (length meta.new.frozen.addresses)
            → DirtyWrites D.Counts (CommitIsDone result) self.old self.new meta.old meta.new device.old device.new }
        ensures passes { ChangesAddressesOnly D.Counts (CommitIsDone result) 512 device.old device.new }
        ensures lost { IfCommitLost result (IsLostStamp D.tells (D.stamps device.new)) }
        ensures clock { Ticks D.Counts (CommitIsDone result) device.old device.new }
        ensures faults { CallCounted D.Counts (result ≡ Committing.Fault) device.old device.new }
    {
        meta.freeze();
        match self.finish(device, meta, 0) {
            VirtualWrite::Done => Committing::Done(self.number.min(LAST)),
            VirtualWrite::Lost { wanted, found } => Committing::Lost { wanted, found },
            VirtualWrite::Fault => Committing::Fault,
        }
    }

    // Goes on after a write that was done.
    fn advance(&mut self, meta: &mut Meta) -> Unit
        requires phase { IsPhase self.old.phase (length meta.old.frozen.addresses) }
        requires some { 1 ≤ length meta.old.frozen.addresses }
        ensures done { UnitIsDone result }
        ensures phase { IsPhase self.new.phase (length meta.new.frozen.addresses) }
        ensures advances { Advances result self.old self.new meta.old meta.new }
    {
        let count = frozen_len(meta);
        match self.phase {
            Phase::Header => {
                self.phase = Phase::Image(0);
                Unit::Programmed
            }
            Phase::Image(i) => {
                self.phase = if i + 1 < count {
                    Phase::Image(i + 1)
                } else {
                    Phase::Commit
                };
                Unit::Programmed
            }
            Phase::Commit => {
                let number = next_after(self.number);
                self.number = raised(self.number);
                self.phase = Phase::Home(0);
                Unit::Decided(number)
            }
            Phase::Home(i) => self.go_home(meta, i, count),
        }
    }

    fn go_home(&mut self, meta: &mut Meta, i: u32, count: u32) -> Unit
        requires phase { self.old.phase ≡ Phase.Home i }
        requires below { i < count }
        requires count { count ≡ length meta.old.frozen.addresses }
        requires few { count ≤ 64 }
        ensures done { UnitIsDone result }
        ensures phase { IsPhase self.new.phase (length meta.new.frozen.addresses) }
        ensures advances { Advances result self.old self.new meta.old meta.new }
    {
        if i + 1 < count {
            self.phase = Phase::Home(i + 1);
            Unit::Programmed
        } else {
            self.phase = Phase::Header;
            meta.thaw();
            Unit::AllHome
        }
    }
}

// The number after a commit page.
fn raised(number: u64) -> u64
    requires { number ≤ 2 ^ 63 }
    ensures { result ≡ raised_from number }
{
    (number + 1).min(1 << 63)
}
