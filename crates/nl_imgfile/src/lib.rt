//! A flash medium in a store of bytes: a header, then a record for each page. The store is read and written a record at a time, by
//! position. It tells its contents where the store tells its bytes; over a file that is not so.
#![tactic(auto)]

mod calls;
mod disk_nand;
mod file_nand;
mod forming_nand;
mod header;
mod layout;
mod opened_nand;
mod page_record;
pub mod rows;

pub use disk_nand::{DiskNand, StoreAttach};
pub use file_nand::{Attach, FileNand, file_store};
pub use forming_nand::FormingNand;
pub use opened_nand::OpenedNand;
