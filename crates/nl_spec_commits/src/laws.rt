//! Laws of a volume between two calls: who holds its pages, and for which trees it stands, through each step. A function stands for each.
ghost use Rattle.std.specs.Prelude.{◌≡◌};
ghost use Rattle.nl_iface.specs.Calls.{StoresMap, StoresPages};
ghost use Rattle.nl_iface.specs.Device.{IsVolumeShape};
ghost use Rattle.nl_spec_holders.specs.Laws.{OldNamesDiffer};
ghost use Rattle.nl_iface.specs.Names.{IsNames, IsTableOfNames};
ghost use Rattle.nl_spec_commits.specs.Changes.{CuttingKeepsHeld, InstallingKeepsHeld, NamesKeepHeld, ReadingKeepsHeld, ReplacingKeepsHeld, RunsOfLists, SuperPageKeepsHeld};
ghost use Rattle.nl_spec_commits.specs.CommittedLaws.{CompletingHolds, FreezingHolds, SuperPageHolds, UnitHolds};
ghost use Rattle.nl_spec_commits.specs.DeviceLaws.{AddressesGo, HoldingOpens, NowHolds, PagesGo};
ghost use Rattle.nl_spec_commits.specs.FileCuts.{EmptyingKeepsHeld, PartingKeepsHeld, TruncatingKeepsHeld};
ghost use Rattle.nl_spec_commits.specs.FirmLaws.{CommitKeepsFirm, MediumKeepsFirm, ProgramKeepsFirm, StoredKeepsFirm, UnitKeepsFirm};
ghost use Rattle.nl_spec_commits.specs.Held.{AcknowledgedKeepsHeld, CommitHolds, CommitKeepsHeld, DecidedKeepsHeld, FreedKeepsHeld, FreezeKeepsHeld, OpeningIsHeld, UnitKeepsHeld};
ghost use Rattle.nl_spec_commits.specs.TreeLaws.{CommitPreservesTrees, CommitLeaves, CompletingPreservesTrees, FreezingPreservesTrees, SuperPagePreservesTrees, UnitLeaves, UnitPreservesTrees};
ghost use Rattle.nl_spec_commits.specs.OpeningLaws.{ConsistentIsFirm, OpenedIsFirm};
ghost use Rattle.nl_spec_commits.specs.SettlingLaws.{AcknowledgesHold, AddressesHold, ChangesJournaled, FreesHold, MetadataHolds, NoneDue, StepsJournaled};
ghost use Rattle.nl_spec_commits.specs.Steps.{CleaningKeepsHeld, CopyKeepsHeld, DropKeepsHeld, HandlingKeepsHeld, ProgramKeepsHeld, StepKeepsHeld, TablesKeepHeld};
ghost use Rattle.nl_spec_commits.specs.Standing.{AheadIsRunning, CommittedReads, HeldLead, RunningLead, AgreeingRepresentSame, CrashStatesRepresent};

use nl_iface::{NamedPages, VirtualPages};

/// Each live page is held on through a commit, and what is committed and what is frozen keep their pages: while the frozen transaction is
/// completed, at once or by one unit, as the dirty pages are frozen, and with another super page.
pub fn commits_hold<D: VirtualPages>()
    ensures completing { CompletingHolds D.Counts }
    ensures unit { UnitHolds D.Counts }
    ensures freezing { FreezingHolds D.Counts }
    ensures super_page { SuperPageHolds D.Counts }
{}

/// What a commit puts in place is what runs, and what is committed reads as what is stored.
pub fn commits_read<D: VirtualPages>()
    ensures ahead { AheadIsRunning D.Counts }
    ensures committed { CommittedReads }
{}

/// Where pages are held for them, the pointers lead of the committed pages, of the frozen ones and of those that run. What a stop within a
/// commit leaves then stands for the tree of one of the three.
pub fn stops_stand<D: VirtualPages>()
    ensures alike { AgreeingRepresentSame }
    ensures held { HeldLead D.Counts }
    ensures running { RunningLead D.Counts }
    ensures stops { CrashStatesRepresent D.Counts }
{}

/// What is committed and frozen keeps its pages while the addresses stay as they are, and while the metadata changes: also as pages that
/// are due are freed, and callbacks acknowledged that transactions handled which count.
pub fn settling_holds<D: VirtualPages>()
    ensures addresses { AddressesHold D.Counts }
    ensures changes { ChangesJournaled D.Counts }
    ensures steps { StepsJournaled D.Counts }
    ensures metadata { MetadataHolds D.Counts }
    ensures freeing { FreesHold D.Counts }
    ensures acknowledging { AcknowledgesHold D.Counts }
    ensures none_due { NoneDue }
{}

/// A whole commit leaves each live page held once, and what is committed and frozen with its pages: done or not, once all that awaited its
/// free is freed, and once callbacks are acknowledged.
pub fn commits_keep_held<D: VirtualPages>()
    ensures commit { CommitHolds D.Counts }
    ensures kept { CommitKeepsHeld D.Counts }
    ensures freed { FreedKeepsHeld D.Counts }
    ensures acknowledged { AcknowledgedKeepsHeld D.Counts }
{}

/// Unit by unit each live page is held once, and what is committed and frozen keeps its pages: as the dirty pages are frozen, through a unit,
/// and once the pages are freed that a transaction gave up whose commit page is written.
pub fn units_keep_held<D: VirtualPages>()
    ensures freeze { FreezeKeepsHeld D.Counts }
    ensures unit { UnitKeepsHeld D.Counts }
    ensures decided { DecidedKeepsHeld D.Counts }
{}

/// An opening leaves each live page held once, where no transaction is open and what runs is what is committed.
pub fn opening_is_held<D: VirtualPages>()
    ensures { OpeningIsHeld D.Counts }
{}

/// The trees of a volume go on through a commit: through each of its parts, and whole. What a stop within it leaves opens as one of them,
/// from the moment of the last commit page on as none earlier than what that one committed.
pub fn trees_go_on<D: VirtualPages>()
    ensures completing { CompletingPreservesTrees D.Counts }
    ensures freezing { FreezingPreservesTrees D.Counts }
    ensures super_page { SuperPagePreservesTrees D.Counts }
    ensures commit { CommitPreservesTrees D.Counts }
    ensures leaves { CommitLeaves D.Counts }
{}

/// The trees of a volume go on through a unit: what was frozen is committed once its commit page is written. What a stop within it leaves
/// opens as one of them, from the moment of that page on as none earlier.
pub fn trees_go_on_by_unit<D: VirtualPages>()
    ensures unit { UnitPreservesTrees D.Counts }
    ensures leaves { UnitLeaves D.Counts }
{}

/// While the device changes, the trees go on: where the addresses stay, and where further pages are there. What a stop within a call of the
/// device leaves opens as the committed tree, where live pages are held on, and so does what there is between two calls.
pub fn trees_stay<D: VirtualPages>()
    ensures addresses { AddressesGo D.Counts }
    ensures pages { PagesGo D.Counts }
    ensures opens { HoldingOpens D.Counts }
    ensures now { NowHolds D.Counts }
{}

/// Each step of a device between two calls leaves a volume held: a page that is programmed and put in flight, one in flight that is freed,
/// pages that the cleaner moves, and what changes no table.
pub fn devices_keep_held<D: VirtualPages>()
    ensures program { ProgramKeepsHeld D.Counts }
    ensures drop_page { DropKeepsHeld D.Counts }
    ensures cleaning { CleaningKeepsHeld D.Counts }
    ensures copy { CopyKeepsHeld D.Counts }
    ensures tables { TablesKeepHeld D.Counts }
{}

/// Any step leaves a volume held that leaves what the addresses have, and what is frozen, where who holds pages holds them on under the
/// number of the last transaction that was begun: callbacks are handled by one that comes after it.
pub fn steps_keep_held<D: VirtualPages>()
    ensures step { StepKeepsHeld D.Counts }
    ensures handling { HandlingKeepsHeld D.Counts }
{}

/// Each change of the metadata leaves a volume held, over a device that is only read: a page in flight is installed in a file, a file is
/// cut, names change, pages are read, the super page changes; or any pages leave the metadata, and others come into it.
pub fn changes_keep_held<D: VirtualPages>()
    ensures installing { InstallingKeepsHeld D.Counts }
    ensures cutting { CuttingKeepsHeld D.Counts }
    ensures names { NamesKeepHeld D.Counts }
    ensures reading { ReadingKeepsHeld D.Counts }
    ensures super_page { SuperPageKeepsHeld D.Counts }
    ensures replacing { ReplacingKeepsHeld D.Counts }
    ensures lists { RunsOfLists }
{}

/// A file that is cut leaves a volume held, and so does one that loses all its pages: what it had from an index on awaits its free.
pub fn cuts_keep_held<D: VirtualPages>()
    ensures truncating { TruncatingKeepsHeld D.Counts }
    ensures parting { PartingKeepsHeld D.Counts }
    ensures emptying { EmptyingKeepsHeld D.Counts }
{}

/// A device stays firm: while its medium stays, while pages are programmed under names, moved and erased, and through a unit or a commit
/// that is done or in which no write failed.
pub fn devices_stay_firm<D: VirtualPages>()
    ensures stored { StoredKeepsFirm D.Counts }
    ensures medium { MediumKeepsFirm D.Counts }
    ensures program { ProgramKeepsFirm D.Counts }
    ensures commit { CommitKeepsFirm D.Counts }
    ensures unit { UnitKeepsFirm D.Counts }
{}

/// A device that stands has legal numbers, and where it tells what it stores, the medium has the map, the live pages, and the names.
pub fn device_stands<D: NamedPages>(device: &D)
    requires formed { D.formed device.now }
    ensures volume { IsVolumeShape (D.shape device.now) }
    ensures map { D.tells → StoresMap D.Counts device.now }
    ensures pages { D.tells → StoresPages D.Counts device.now }
    ensures names { IsNames (D.shape device.now) (D.next_stamp device.now) (D.names device.now) }
    ensures table { IsTableOfNames (D.names device.now) }
    ensures differ { OldNamesDiffer (D.names device.now) }
{}

/// What a consistent image stores is firm, and so is a device that was opened over one.
pub fn opened_is_firm<D: VirtualPages>()
    ensures image { ConsistentIsFirm }
    ensures device { OpenedIsFirm D.Counts }
{}
