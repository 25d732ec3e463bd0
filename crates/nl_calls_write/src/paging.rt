// The page of a file as a call leaves it that writes some of its bytes.
ghost use Rattle.std.specs.Prelude.{◌≡◌, ◌<◌, ◌≤◌, true, OnOk};
ghost use Rattle.nl_field.specs.Numbers.{max_bytes};
ghost use Rattle.nl_meta_running.specs.Reading.{stop_of};
ghost use Rattle.nl_core.specs.Core.{IsCore};
ghost use Rattle.nl_calls_steps.specs.Answers.{EndsEarly};
ghost use Rattle.nl_calls_steps.specs.Finding.{IsSomeFile};
ghost use Rattle.nl_calls_steps.specs.Steps.{ReadsOn};
ghost use Rattle.nl_calls_write.specs.Making.{MakesPage};
ghost use Rattle.nl_calls_bytes.specs.Ranges.{IsWriting, is_written, len_of};

use nl_calls_bytes::lay_over;
use nl_calls_steps::read_page;
use nl_core::Core;
use nl_field::PageBuf;
use nl_iface::MovingPages;
use nl_meta_running::Stop;
use nl_tree::Call;

const PAGE: u64 = 4096;

/// Makes the page of an index of a file as a call leaves it that writes some of its bytes.
pub(crate) fn make_page<D: MovingPages>(
    core: &mut Core<D>,
    ino: u32,
    call: &Call,
    index: u32,
    page: &mut PageBuf,
) -> Result<(), Stop>
    requires core { IsCore D.Counts core.old }
    requires file { IsSomeFile D.Counts core.old ino }
    requires writing { IsWriting call.now }
    requires few { len_of call.now ≤ max_bytes }
    requires written { is_written call.now index ≡ true }
    requires within { index < 4104 }
    ensures core { IsCore D.Counts core.new }
    ensures same { ReadsOn D.Counts core.old core.new }
    ensures made { OnOk result (MakesPage D.Counts core.old ino call.now index page.new.main) }
    ensures early { EndsEarly D.Counts core.old core.new (stop_of result) }
{
    let mut bytes = [0u8; PAGE as usize];
    page.clear();
    bytes.copy_from_slice(page.main());
    match read_page(core, ino, index, &mut bytes, page) {
        Ok(()) => {
            lay_over(&mut bytes, call, index);
            page.set_head(&bytes);
            Ok(())
        }
        Err(stop) => Err(stop),
    }
}
