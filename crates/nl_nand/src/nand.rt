//! The trait of a flash medium.
ghost use Rattle.std.specs.Prelude.{◌≡◌, ◌⊎◌, ◌<◌, ◌≤◌, ◌+◌, ◌*◌, ℕ, IsTrue};
ghost use Rattle.nl_field.specs.Page.{Image, page_at, erased, written};
ghost use Rattle.nl_field.specs.Numbers.{is_legal};
ghost use Rattle.nl_nand.specs.declared.geometry.Geometry.{Geometry as Numbers};
ghost use Rattle.nl_nand.specs.Nand.{IsLegal, ImageOf, IsBlank, ReadsMediumPage, CanProgram, OperationLeaves, FaultsCounted, Unchanged, MediumOnlyRead, OperationCounted, CrashLeaves, block_start, block_end};

use crate::answers::{FormAnswer, ReadAnswer, WriteAnswer};
use crate::geometry::Geometry;
use nl_field::PageBuf;

/// A flash medium. A page has 4096 main bytes and 64 spare bytes, and is erased, written or uncorrectable. Pages are
/// numbered from 0, block by block. The pages of a block are programmed in rising order after the block was erased.
///
/// A program cut short leaves its page erased, wholly new or uncorrectable. An erase cut short leaves each page of the block
/// as it was, erased or uncorrectable. A failed one leaves what one cut short may. No other page changes.
pub trait Nand {
    /// The medium tells what its pages hold. Where it does not, no clause says what a page of it holds; clauses on `left` then say only how
    /// a program or an erase adds to what a crash may have left, and that `contents` is left now.
    ghost tells: { Type 0 };

    ghost geometry: { Self → Numbers };

    ghost contents: { Self → Image };

    /// Programs and erases that finished.
    ghost clock: { Self → ℕ };

    /// Failed reads.
    ghost read_faults: { Self → ℕ };

    /// Failed formings, programs and erases.
    ghost write_faults: { Self → ℕ };

    /// The images that a crash at a moment may have left. A moment is the number of operations that had finished.
    ghost left: { Self → ℕ → Image → Type 0 };

    /// The blocks of the medium and the pages of each, both 0 where it was never formed.
    fn geometry(&self) -> Geometry
        ensures { result ≡ geometry self.now };

    /// How many programs and erases have finished.
    fn clock(&self) -> u64
        ensures { result ≡ clock self.now };

    /// How many reads have failed.
    fn read_faults(&self) -> u64
        ensures { result ≡ read_faults self.now };

    /// How many formings, programs and erases have failed.
    fn write_faults(&self) -> u64
        ensures { result ≡ write_faults self.now };

    /// Gives the medium that geometry, with all pages erased. What a crash within it leaves is not said: once it is done,
    /// the history of operations begins anew with these pages. After a failure the medium has its old geometry or that one, and what
    /// a crash may have left was left before, or has all pages erased.
    fn form(&mut self, blocks: u32, pages: u32) -> FormAnswer
        requires { IsTrue (is_legal blocks pages) }
        ensures done { result ≡ FormAnswer.Done → geometry self.new ≡ record { blocks = blocks; pages = pages } }
        ensures erased { tells → result ≡ FormAnswer.Done → IsBlank (contents self.new) }
        ensures begins { tells → result ≡ FormAnswer.Done → (m : ℕ) (c : Image) → left self.new m c
            → (m ≡ clock self.new) × (c ≡ contents self.new) }
        ensures failed { result ≡ FormAnswer.Failed
            → (geometry self.new ≡ geometry self.old) ⊎ (geometry self.new ≡ record { blocks = blocks; pages = pages }) }
        ensures failed_left { tells → result ≡ FormAnswer.Failed → (m : ℕ) (c : Image) → left self.new m c → left self.old m c ⊎ IsBlank c }
        ensures memory { result ≡ FormAnswer.Memory → Unchanged geometry contents left self.old self.new }
        ensures clock { clock self.new ≡ clock self.old }
        ensures read_faults { read_faults self.new ≡ read_faults self.old }
        ensures write_faults { FaultsCounted (write_faults self.old) (write_faults self.new) (result ≡ FormAnswer.Failed) };

    /// Reads a page. The buffer holds it where the answer is `Written`.
    fn read(&mut self, page: u32, buf: &mut PageBuf) -> ReadAnswer
        requires { page < (geometry self.old).blocks * (geometry self.old).pages }
        ensures answer { tells → ReadsMediumPage (page_at (contents self.old) page) buf.new result }
        ensures only_reads { MediumOnlyRead geometry contents clock write_faults left self.old self.new }
        ensures read_faults { FaultsCounted (read_faults self.old) (read_faults self.new) (result ≡ ReadAnswer.Failed) };

    /// Programs a page. The page and all later pages of its block are erased.
    fn program(&mut self, page: u32, from: &PageBuf) -> WriteAnswer
        requires within { page < (geometry self.old).blocks * (geometry self.old).pages }
        requires erased { tells → CanProgram (contents self.old) page }
        ensures effect { tells → OperationLeaves page (page + 1) (written from.now) (contents self.old) result (contents self.new) }
        ensures crash { CrashLeaves clock contents left page (page + 1) (written from.now) self.old self.new }
        ensures counted { OperationCounted geometry clock read_faults write_faults self.old self.new result };

    /// Erases all pages of a block.
    fn erase(&mut self, block: u32) -> WriteAnswer
        requires { block < (geometry self.old).blocks }
        ensures effect { tells → OperationLeaves (block_start (geometry self.old) block) (block_end (geometry self.old) block) erased
            (contents self.old) result (contents self.new) }
        ensures crash { CrashLeaves clock contents left (block_start (geometry self.old) block)
            (block_end (geometry self.old) block) erased self.old self.new }
        ensures counted { OperationCounted geometry clock read_faults write_faults self.old self.new result };

    /// The numbers are legal, or both 0.
    ghost legal: { (s : Self) → IsLegal (geometry s) };

    /// The contents are what a crash may leave now.
    ghost now_left: { (s : Self) → left s (clock s) (contents s) };

    /// No moment is later than now.
    ghost no_later: { (s : Self) (m : ℕ) (c : Image) → left s m c → m ≤ clock s };

    /// The contents have as many pages as the geometry.
    ghost contents_fit: { (s : Self) → tells → ImageOf (geometry s) (contents s) };

    /// Each image that a crash may have left has as many pages as the geometry.
    ghost left_fits: { (s : Self) (m : ℕ) (c : Image) → tells → left s m c → ImageOf (geometry s) c };
}
