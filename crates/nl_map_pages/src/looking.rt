//! Looks at each page of a medium.
ghost use Rattle.std.specs.Prelude.{◌≡◌, ◌<◌, ◌*◌, ◌^◌, length, map, IfOk, IfSome, OnOk, None, Err, ◌++◌, ◌∷◌, []};
ghost use Rattle.std.specs.List.{range_with_len};
ghost use Rattle.nl_map_pages.specs.Judging.{IsJudge};
ghost use Rattle.nl_map_pages.specs.Marks.{look_of, spelled_wear};
ghost use Rattle.nl_nand.specs.Nand.{FaultsCounted, MediumOnlyRead};

use crate::judge::Live;
use crate::look::{Look, Mark};
use nl_field::{Memory, PageBuf, SpareRec, spare_of};
use nl_nand::{Nand, ReadAnswer};
use std::alloc::Global;

/// Why looking ended before the last page.
#[derive(Clone, Copy, Debug, PartialEq, Eq)]
pub enum Stopped {
    /// A read failed.
    Fault,
    Memory,
}

// The count of erases with which a page was written, 0 where it tells none.
fn wear_on(rec: Option<SpareRec>) -> u32
    ensures { result ≡ spelled_wear rec }
{
    match rec {
        Some(SpareRec::Virtual { wear, .. }) => wear,
        Some(SpareRec::Physical { wear, .. }) => wear,
        None => 0,
    }
}

// Looks at a page. None where the read failed.
fn look<M: Nand>(media: &mut M, live: &Option<Live>, page: u32, buf: &mut PageBuf) -> Option<Look>
    requires page { page < (M.geometry media.old).blocks * (M.geometry media.old).pages }
    requires size { IfSome live.now (λ l. 0 < l.shape.pages) }
    ensures told { M.tells → IsJudge (M.contents media.old) live.now → IfSome result (λ l. l ≡ look_of (M.contents media.old) page) }
    ensures reads { MediumOnlyRead M.geometry M.contents M.clock M.write_faults M.left media.old media.new }
    ensures faults { FaultsCounted (M.read_faults media.old) (M.read_faults media.new) (result ≡ None) }
{
    match media.read(page, buf) {
        ReadAnswer::Failed => None,
        ReadAnswer::Erased => Some(Look {
            mark: Mark::Erased,
            wear: 0,
        }),
        ReadAnswer::Uncorrectable => Some(Look {
            mark: Mark::Uncorrectable,
            wear: 0,
        }),
        ReadAnswer::Written => {
            let rec = spare_of(buf.spare());
            let mark = match live {
                Some(live) => live.mark(page, rec),
                None => Mark::Unjudged,
            };
            Some(Look {
                mark,
                wear: wear_on(rec),
            })
        }
    }
}

// Adds what is seen of one more page.
fn add(looks: &mut Vec<Look>, look: Look) -> Result<(), Memory>
    ensures { OnOk result (looks.new.items ≡ looks.old.items ++ look ∷ []) }
{
    looks.push(look)?;
    Ok(())
}

/// Looks at each page, in rising order.
pub fn looks<M: Nand>(
    alloc: Global,
    media: &mut M,
    live: &Option<Live>,
    count: u32,
) -> Result<Vec<Look>, Stopped>
    requires count { count ≡ (M.geometry media.old).blocks * (M.geometry media.old).pages }
    requires size { IfSome live.now (λ l. 0 < l.shape.pages) }
    ensures told { M.tells → IsJudge (M.contents media.old) live.now
        → IfOk result (λ looks. looks.items ≡ map (look_of (M.contents media.old)) (range_with_len 0 count)) }
    ensures len { IfOk result (λ looks. length looks.items ≡ count) }
    ensures reads { MediumOnlyRead M.geometry M.contents M.clock M.write_faults M.left media.old media.new }
    ensures faults { FaultsCounted (M.read_faults media.old) (M.read_faults media.new) (result ≡ Err Stopped.Fault) }
{
    let Ok(mut buf) = PageBuf::new(alloc) else {
        return Err(Stopped::Memory);
    };
    let mut looks = Vec::new(alloc);
    'pages: for page in 0..count {
        let Some(look) = look(media, live, page, &mut buf) else {
            return Err(Stopped::Fault);
        };
        let Ok(()) = add(&mut looks, look) else {
            return Err(Stopped::Memory);
        };
    }
    Ok(looks)
}
