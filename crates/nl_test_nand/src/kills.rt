// A medium in a store in memory, killed within a write, and attached anew.
ghost use Rattle.std.specs.Prelude.{◌≡◌, true};
ghost use Rattle.nl_imgfile.specs.DiskMedium.{geometry_of};

use nl_field::{FailList, Memory, PageBuf};
use nl_imgfile::DiskNand;
use nl_nand::{FormAnswer, Geometry, Nand, ReadAnswer};
use nl_store::{Kill, MemStore};
use std::alloc::Global;
use std::test::Fail;

type Disk = DiskNand<MemStore>;

/// A call that is killed, or none of number 0, and after how many of its bytes. The forming is the calls 1 to 3, the program 4 and 5.
type At = (u64, usize);

/// The medium in a store with these bytes.
fn attached(alloc: Global, bytes: Vec<u8>, kill: Option<Kill>) -> Result<Disk, Memory> {
    let store = MemStore::new(alloc, bytes, FailList::new(alloc), kill);
    DiskNand::attach_store(alloc, store).map_err(|_| Memory)
}

fn is_small(media: &Disk) -> bool
    ensures { result ≡ true → geometry_of media.now ≡ record { blocks = 32; pages = 32 } }
{
    let Geometry { blocks, pages } = media.geometry();
    blocks == 32 && pages == 32
}

/// A letter for what a read of a page answers; of a written page its first byte.
fn seen(media: &mut Disk, page: u32, buf: &mut PageBuf) -> u8 {
    if !is_small(media) || page >= 1024 {
        return b'n';
    }
    match media.read(page, buf) {
        ReadAnswer::Erased => b'e',
        ReadAnswer::Written => buf.main()[0],
        ReadAnswer::Uncorrectable => b'u',
        ReadAnswer::Failed => b'f',
    }
}

/// Forms the medium, and programs page 3 with the letter p. From the kill on every call fails.
fn worked(media: &mut Disk, page: &PageBuf) {
    if !matches!(media.form(32, 32), FormAnswer::Done) {
        return;
    }
    if is_small(media) {
        let _ = media.program(3, page);
    }
}

/// What page 3 is in a new process.
fn left(alloc: Global, at: At) -> Result<u8, Memory> {
    let (call, bytes) = at;
    let mut media = attached(alloc, Vec::new(alloc), Some(Kill { call, bytes }))?;
    let mut page = PageBuf::new(alloc)?;
    page.set_main(0, b"p");
    worked(&mut media, &page);
    let mut again = attached(alloc, media.into_store().into_bytes(), None)?;
    let is = seen(&mut again, 3, &mut page);
    drop(again);
    Ok(is)
}

/// How many rows of the table are right before the first that is not.
fn right(alloc: Global, table: &[(At, u8)]) -> Result<usize, Memory> {
    for row in 0..table.len() {
        let (at, want) = table[row];
        if left(alloc, at)? != want {
            return Ok(row);
        }
    }
    Ok(table.len())
}

// A kill within the forming leaves no medium until the first byte of the pages of a block is written, which is the header's last that is
// not zero. A program leaves its page erased until the first byte of its state, which is the second write. The last row has no kill.
#[test]
fn a_kill_leaves_a_page_as_it_was_or_done(rt: HostRuntime) -> Result<(), Fail> {
    let table = [
        ((1, 0), b'n'),
        ((3, 0), b'n'),
        ((3, 16), b'n'),
        ((3, 17), b'e'),
        ((4, 0), b'e'),
        ((4, 4160), b'e'),
        ((5, 0), b'e'),
        ((5, 1), b'p'),
        ((0, 0), b'p'),
    ];
    assert_eq!(rt; right(rt.alloc(), &table)?, table.len());
    Ok(())
}
