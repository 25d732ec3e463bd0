// Which calls a script has, and how often each.
use crate::dice::Dice;
use crate::plan::Mix;

/// A call without its arguments.
#[derive(Clone, Copy)]
pub(crate) enum Kind {
    Mkdir,
    Rmdir,
    Create,
    Unlink,
    Rename,
    Write,
    Fill,
    Read,
    Truncate,
    Stat,
    List,
    Sync,
    Clean,
}

// How often each call comes.
type Table = [(Kind, u32); 13];

const DEEP: Table = [
    (Kind::Mkdir, 14),
    (Kind::Rmdir, 2),
    (Kind::Create, 4),
    (Kind::Unlink, 1),
    (Kind::Rename, 5),
    (Kind::Write, 2),
    (Kind::Fill, 1),
    (Kind::Read, 1),
    (Kind::Truncate, 1),
    (Kind::Stat, 1),
    (Kind::List, 2),
    (Kind::Sync, 2),
    (Kind::Clean, 1),
];

const RENAMES: Table = [
    (Kind::Mkdir, 4),
    (Kind::Rmdir, 1),
    (Kind::Create, 5),
    (Kind::Unlink, 1),
    (Kind::Rename, 12),
    (Kind::Write, 4),
    (Kind::Fill, 1),
    (Kind::Read, 1),
    (Kind::Truncate, 1),
    (Kind::Stat, 1),
    (Kind::List, 1),
    (Kind::Sync, 2),
    (Kind::Clean, 1),
];

const FULL: Table = [
    (Kind::Mkdir, 1),
    (Kind::Rmdir, 0),
    (Kind::Create, 4),
    (Kind::Unlink, 1),
    (Kind::Rename, 1),
    (Kind::Write, 1),
    (Kind::Fill, 20),
    (Kind::Read, 1),
    (Kind::Truncate, 1),
    (Kind::Stat, 1),
    (Kind::List, 0),
    (Kind::Sync, 1),
    (Kind::Clean, 2),
];

const SYNCS: Table = [
    (Kind::Mkdir, 1),
    (Kind::Rmdir, 0),
    (Kind::Create, 4),
    (Kind::Unlink, 1),
    (Kind::Rename, 2),
    (Kind::Write, 10),
    (Kind::Fill, 1),
    (Kind::Read, 2),
    (Kind::Truncate, 1),
    (Kind::Stat, 1),
    (Kind::List, 0),
    (Kind::Sync, 8),
    (Kind::Clean, 3),
];

const EVEN: Table = [
    (Kind::Mkdir, 2),
    (Kind::Rmdir, 2),
    (Kind::Create, 4),
    (Kind::Unlink, 2),
    (Kind::Rename, 2),
    (Kind::Write, 2),
    (Kind::Fill, 2),
    (Kind::Read, 2),
    (Kind::Truncate, 2),
    (Kind::Stat, 2),
    (Kind::List, 2),
    (Kind::Sync, 2),
    (Kind::Clean, 2),
];

fn total(table: &Table) -> u32 {
    let mut sum = 0u32;
    for (_, weight) in table {
        sum = sum.saturating_add(*weight);
    }
    sum
}

// The call into whose share a number falls.
fn kind_at(table: &Table, number: u32) -> Kind {
    let mut left = number;
    for (kind, weight) in table {
        if left < *weight {
            return *kind;
        }
        left -= *weight;
    }
    Kind::Stat
}

fn drawn_from(dice: &mut Dice, table: &Table) -> Kind {
    let number = dice.below(total(table).max(1));
    kind_at(table, number)
}

/// A call of a mix.
pub(crate) fn drawn_kind(dice: &mut Dice, mix: Mix) -> Kind {
    match mix {
        Mix::Deep => drawn_from(dice, &DEEP),
        Mix::Renames => drawn_from(dice, &RENAMES),
        Mix::Full => drawn_from(dice, &FULL),
        Mix::Syncs => drawn_from(dice, &SYNCS),
        Mix::Soak | Mix::Even => drawn_from(dice, &EVEN),
    }
}
