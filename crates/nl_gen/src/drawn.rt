// What a line does, from its three draws.
ghost use Rattle.std.specs.Prelude.{◌≡◌, ◌≤◌, ◌<◌};
ghost use Rattle.nl_gen.specs.Soak as soak;

/// A call on one of the four files of a worker. Files are 0 to 3.
#[derive(Clone, Copy, Debug, PartialEq, Eq)]
pub(crate) enum Drawn {
    Create(u8),
    /// Offset, length and the byte.
    Fill(u8, u32, u32, u8),
    /// Offset, and four bytes as a number, the highest first.
    Write(u8, u32, u32),
    /// Offset and length.
    Read(u8, u32, u32),
    /// The size afterwards.
    Truncate(u8, u32),
    Unlink(u8),
    /// To another file.
    Rename(u8, u8),
    Stat(u8),
    Sync,
}

fn file_number(r: u32) -> u8
    ensures file { result ≡ soak.file_number r }
    ensures small { result < 4 }
{
    (r / 16 % 4) as u8
}

// The most bytes of a file.
fn cap_of(file: u8) -> u32
    ensures cap { result ≡ soak.cap_of file }
    ensures least { 32768 ≤ result }
    ensures most { result ≤ 98304 }
{
    if file == 0 { 98_304 } else { 32_768 }
}

fn filled(file: u8, cap: u32, from: u32, b: u32, byte: u8) -> Drawn
    requires { from < cap }
    ensures { result ≡ soak.filled file cap from b byte }
{
    Drawn::Fill(file, from, (1 + b % 32_768).min(cap - from), byte)
}

fn renamed(file: u8) -> Drawn
    ensures { result ≡ soak.renamed file }
{
    if file == 0 {
        Drawn::Stat(file)
    } else {
        Drawn::Rename(file, 1 + file % 3)
    }
}

fn of_others(file: u8, b: u32) -> Drawn
    ensures { result ≡ soak.of_others file b }
{
    if b == 0 {
        Drawn::Unlink(file)
    } else if b == 1 {
        renamed(file)
    } else if b == 2 {
        Drawn::Sync
    } else {
        Drawn::Stat(file)
    }
}

fn of_kind(kind: u32, file: u8, cap: u32, a: u32, b: u32, byte: u8) -> Drawn
    requires cap { (32768 ≤ cap) × (cap ≤ 98304) }
    ensures { result ≡ soak.of_kind kind file cap a b byte }
{
    if kind < 2 {
        Drawn::Create(file)
    } else if kind < 5 {
        filled(file, cap, a % cap, b, byte)
    } else if kind < 6 {
        Drawn::Write(file, a % (cap - 3), b)
    } else if kind < 8 {
        Drawn::Read(file, a % cap, 1 + b % 256)
    } else if kind < 9 {
        Drawn::Truncate(file, a % (cap + 1))
    } else {
        of_others(file, b % 4)
    }
}

/// The call of three draws.
#[tactic(auto, unfolding(crate::specs::Soak::drawn_of))]
pub(crate) fn of_draws(r: u32, a: u32, b: u32) -> Drawn
    ensures { result ≡ soak.drawn_of r a b }
{
    let file = file_number(r);
    of_kind(
        r % 10,
        file,
        cap_of(file),
        a,
        b,
        (r / 16_777_216 % 256) as u8,
    )
}
