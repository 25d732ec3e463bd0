// A new volume, made until a stop, and what a check finds of it.
use nl_check::{Checked, findings};
use nl_field::{FailList, What};
use nl_nand::{Cut, MemNand, Stop};
use nl_volume_format::{Made, make};
use std::alloc::Global;

/// What a check finds, as a letter: no readable page, damage at the super page, a sound volume after no call, or anything else.
fn letter(checked: &Checked) -> u8 {
    match checked {
        Checked::Blank => b'B',
        Checked::Found { bits, count } => {
            if bits.has(What::Super) {
                b'S'
            } else if bits.is_none() && *count == 0 {
                b'0'
            } else {
                b'?'
            }
        }
        Checked::Fault | Checked::Memory => b'?',
    }
}

/// The medium with which a making ended.
fn medium(made: Made<MemNand>) -> MemNand {
    match made {
        Made::Done(media) => media,
        Made::Fault(media) => media,
        Made::Memory(media) => media,
    }
}

/// A volume is made until this stop, and the medium started again and checked.
fn found(alloc: Global, writes: FailList, stop: Option<Stop>) -> u8 {
    let media = MemNand::new(alloc, FailList::new(alloc), writes, stop);
    let media = medium(make(alloc, media, 32, 32));
    let (checked, _) = findings(alloc, media.restart(None));
    letter(&checked)
}

fn stopped(alloc: Global, operation: u64, cut: Cut) -> u8 {
    found(alloc, FailList::new(alloc), Some(Stop { operation, cut }))
}

const STOPS: [(u64, Cut, u8); 6] = [
    (1, Cut::Before, b'B'),
    (1, Cut::Spoilt, b'B'),
    (1, Cut::After, b'S'),
    (2, Cut::Before, b'S'),
    (2, Cut::Spoilt, b'S'),
    (2, Cut::After, b'0'),
];

// How many of the stops leave what they are to before the first that does not.
fn left(alloc: Global) -> usize {
    for (at, row) in STOPS.iter().enumerate() {
        let (operation, cut, expected) = *row;
        if stopped(alloc, operation, cut) != expected {
            return at;
        }
    }
    STOPS.len()
}

#[test]
fn a_stop_leaves_a_blank_a_damaged_or_a_new_volume(rt: HostRuntime) {
    let alloc = rt.alloc();
    assert_eq!(rt; left(alloc), STOPS.len());
    assert!(rt; found(alloc, FailList::new(alloc), None) == b'0');
}
