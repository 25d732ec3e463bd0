// Loads the listed pointers into the physical segment, each at its place.
ghost use Rattle.std.specs.Prelude.{◌≡◌, ◌≢◌, ℕ, ◌<◌, cond, length};
ghost use Rattle.nl_callbacks.specs.Pending.{callback_of};
ghost use Rattle.nl_device.specs.Posting.{Posts};
ghost use Rattle.nl_device.specs.Retain.{CanLoadPointer, CanRetain, HasCalled, HasLoaded, IsCalled, IsFreshSegment, IsEmptyPending, IsSegmentFor, LoadsPointer, placed_at};
ghost use Rattle.nl_device.specs.Kept.{HasCopies, forgotten};

use super::Kept;
use nl_callbacks::Pending;
use nl_field::{Pointer, PointerList, Tag};
use nl_pseg::PSeg;

/// A callback tells where the page of the pointer's name is now, where it is another page.
fn call(pending: &mut Pending, at: &Pointer, page: u32, tag: Tag)
    requires { at.now.name ≢ page → 0 < pending.old.room }
    ensures here { at.now.name ≡ page → pending.new ≡ pending.old }
    ensures away { at.now.name ≢ page
        → (number : ℕ) × Posts (callback_of number at.now.name page tag at.now.stamp) pending.old pending.new }
{
    if page != at.name {
        pending.post(at.name, page, tag, at.stamp);
    }
}

impl Kept {
    /// Keeps no page.
    fn forget(&mut self)
        ensures { self.new ≡ forgotten self.old }
    {
        self.pages.clear();
        self.copies.clear();
    }

    /// Keeps no page after a program that may have erased a block before.
    pub(crate) fn forget_after(&mut self, tried: bool)
        ensures { self.new ≡ cond tried (forgotten self.old) self.old }
    {
        let _ = &self.first;
        if tried {
            self.forget();
        }
    }

    /// The place of a pointer is live. Where it is not its name, the name leads to it, and a callback tells so.
    fn load(&self, pseg: &mut PSeg, pending: &mut Pending, spare: Option<u32>, at: &Pointer)
        requires segment { IsSegmentFor self.now pseg.old }
        requires can { CanLoadPointer self.now spare at.now pseg.old pending.old }
        ensures loaded { LoadsPointer self.now (placed_at self.now spare at.now) at.now pseg.old pseg.new }
        ensures called { IsCalled self.now spare at.now pending.old pending.new }
    {
        let _ = &self.first;
        let Some(page) = self.place(spare, at) else {
            return;
        };
        let Some(kept) = self.page(page) else {
            return;
        };
        pseg.load(page, *at, kept.tag);
        call(pending, at, page, kept.tag);
    }

    /// Exactly the listed pointers are live afterwards, each at its place. Those whose places are not their names have pairs and
    /// callbacks.
    pub(crate) fn retain(&mut self, pseg: &mut PSeg, pending: &mut Pending, list: &PointerList)
        requires segment { IsSegmentFor self.old pseg.old }
        requires fresh { IsFreshSegment pseg.old }
        requires idle { IsEmptyPending self.old pending.old }
        requires can { CanRetain self.old list.now.items }
        ensures loaded { HasLoaded self.old list.now.items (length list.now.items) pseg.old pseg.new }
        ensures called { HasCalled self.old list.now.items (length list.now.items) pseg.new pending.old pending.new }
        ensures kept { HasCopies self.old }
        ensures same { self.new ≡ self.old }
    {
        let _ = &self.first;
        let _ = pending.posted();
        let spare = self.spare(list);
        'listed: for at in 0..list.len() {
            self.load(pseg, pending, spare, list.get(at));
        }
    }
}
