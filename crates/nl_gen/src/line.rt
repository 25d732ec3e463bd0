// The text of a line.
ghost use Rattle.std.specs.Prelude.{◌≡◌, ◌≤◌, ◌++◌, ◌∷◌, [], length, codes, decimal, OnOk};
ghost use Rattle.hex.specs.Hex.{encode_lower};
ghost use Rattle.nl_gen.specs.Soak as soak;
ghost use Rattle.nl_gen.specs.Soak.{line_text, mkdir_text};

use crate::drawn::Drawn;
use itoa::Buffer;
use nl_field::Memory;

/// Adds bytes at the end. An error where memory is refused.
pub(crate) fn push(text: &mut Vec<u8>, bytes: &[u8]) -> Result<(), Memory>
    ensures { OnOk result (text.new.items ≡ text.old.items ++ bytes.now) }
{
    text.extend_from_slice(bytes)?;
    Ok(())
}

fn push_number(text: &mut Vec<u8>, number: u32) -> Result<(), Memory>
    ensures { OnOk result (text.new.items ≡ text.old.items ++ decimal number) }
{
    let mut buffer = Buffer::new();
    push(text, buffer.format(number).as_bytes())
}

// A space and a number.
fn then_number(text: &mut Vec<u8>, number: u32) -> Result<(), Memory>
    ensures { OnOk result (text.new.items ≡ text.old.items ++ codes " " ++ decimal number) }
{
    push(text, b" ")?;
    push_number(text, number)
}

fn push_directory(text: &mut Vec<u8>, worker: u8) -> Result<(), Memory>
    ensures { OnOk result (text.new.items ≡ text.old.items ++ soak.directory_text worker) }
{
    push(text, b"/w")?;
    push_number(text, u32::from(worker))
}

fn push_file(text: &mut Vec<u8>, worker: u8, file: u8) -> Result<(), Memory>
    ensures { OnOk result (text.new.items ≡ text.old.items ++ soak.file_text worker file) }
{
    push_directory(text, worker)?;
    push(text, b"/f")?;
    push_number(text, u32::from(file))
}

// A space and bytes as two lower case hexadecimal digits each.
fn then_hex(text: &mut Vec<u8>, bytes: &[u8]) -> Result<(), Memory>
    requires { length bytes.now ≤ 4 }
    ensures { OnOk result (text.new.items ≡ text.old.items ++ codes " " ++ encode_lower bytes.now) }
{
    push(text, b" ")?;
    let mut digits = [0u8; 8];
    let out = &mut digits[..2 * bytes.len()];
    match hex::encode_to_slice(bytes, out) {
        Ok(()) => {}
        Err(_) => unreachable!(),
    }
    push(text, out)
}

// A command and a file.
fn push_on(text: &mut Vec<u8>, command: &[u8], worker: u8, file: u8) -> Result<(), Memory>
    ensures { OnOk result (text.new.items ≡ text.old.items ++ command.now ++ soak.file_text worker file) }
{
    push(text, command)?;
    push_file(text, worker, file)
}

fn push_fill(
    text: &mut Vec<u8>,
    worker: u8,
    file: u8,
    from: u32,
    count: u32,
    byte: u8,
) -> Result<(), Memory>
    ensures { OnOk result (text.new.items ≡ text.old.items ++ soak.drawn_text worker (Drawn.Fill file from count byte)) }
{
    push_on(text, b"fill ", worker, file)?;
    then_number(text, from)?;
    then_number(text, count)?;
    then_hex(text, &[byte])
}

fn push_write(text: &mut Vec<u8>, worker: u8, file: u8, from: u32, word: u32) -> Result<(), Memory>
    ensures { OnOk result (text.new.items ≡ text.old.items ++ soak.drawn_text worker (Drawn.Write file from word)) }
{
    push_on(text, b"write ", worker, file)?;
    then_number(text, from)?;
    let bytes = [
        (word / 16_777_216 % 256) as u8,
        (word / 65_536 % 256) as u8,
        (word / 256 % 256) as u8,
        (word % 256) as u8,
    ];
    then_hex(text, &bytes)
}

fn push_read(text: &mut Vec<u8>, worker: u8, file: u8, from: u32, count: u32) -> Result<(), Memory>
    ensures { OnOk result (text.new.items ≡ text.old.items ++ soak.drawn_text worker (Drawn.Read file from count)) }
{
    push_on(text, b"read ", worker, file)?;
    then_number(text, from)?;
    then_number(text, count)
}

fn push_truncate(text: &mut Vec<u8>, worker: u8, file: u8, size: u32) -> Result<(), Memory>
    ensures { OnOk result (text.new.items ≡ text.old.items ++ soak.drawn_text worker (Drawn.Truncate file size)) }
{
    push_on(text, b"truncate ", worker, file)?;
    then_number(text, size)
}

fn push_rename(text: &mut Vec<u8>, worker: u8, file: u8, other: u8) -> Result<(), Memory>
    ensures { OnOk result (text.new.items ≡ text.old.items ++ soak.drawn_text worker (Drawn.Rename file other)) }
{
    push_on(text, b"rename ", worker, file)?;
    push(text, b" ")?;
    push_file(text, worker, other)
}

fn push_drawn(text: &mut Vec<u8>, worker: u8, drawn: Drawn) -> Result<(), Memory>
    ensures { OnOk result (text.new.items ≡ text.old.items ++ soak.drawn_text worker drawn) }
{
    match drawn {
        Drawn::Create(file) => push_on(text, b"create ", worker, file),
        Drawn::Fill(file, from, count, byte) => push_fill(text, worker, file, from, count, byte),
        Drawn::Write(file, from, word) => push_write(text, worker, file, from, word),
        Drawn::Read(file, from, count) => push_read(text, worker, file, from, count),
        Drawn::Truncate(file, size) => push_truncate(text, worker, file, size),
        Drawn::Unlink(file) => push_on(text, b"unlink ", worker, file),
        Drawn::Rename(file, other) => push_rename(text, worker, file, other),
        Drawn::Stat(file) => push_on(text, b"stat ", worker, file),
        Drawn::Sync => push(text, b"sync"),
    }
}

/// Adds the line of a worker.
#[tactic(auto, unfolding(crate::specs::Soak::line_text))]
pub(crate) fn push_line(text: &mut Vec<u8>, worker: u8, drawn: Drawn) -> Result<(), Memory>
    ensures { OnOk result (text.new.items ≡ text.old.items ++ line_text worker drawn) }
{
    push_number(text, u32::from(worker))?;
    push(text, b" ")?;
    push_drawn(text, worker, drawn)?;
    push(text, b"\n")
}

/// Adds the line that makes the directory of a worker.
pub(crate) fn push_mkdir(text: &mut Vec<u8>, worker: u8) -> Result<(), Memory>
    ensures { OnOk result (text.new.items ≡ text.old.items ++ mkdir_text worker) }
{
    push_number(text, u32::from(worker))?;
    push(text, b" mkdir ")?;
    push_directory(text, worker)?;
    push(text, b"\n")
}
