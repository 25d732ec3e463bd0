// The commands of a script, and the words that name them.
ghost use Rattle.std.specs.Prelude.{◌≡◌};
ghost use Rattle.nl_script.specs.Spellings as spells;

use crate::Why;

/// The commands that a worker may give.
#[derive(Clone, Copy)]
pub(crate) enum Command {
    Mkdir,
    Rmdir,
    Create,
    Unlink,
    Stat,
    List,
    Rename,
    Write,
    Fill,
    Read,
    Truncate,
    Sync,
    Clean,
}

/// The command that a word names, or why it names none.
#[tactic(auto, unfolding(crate::specs::Spellings::command_of))]
pub(crate) fn command_of(word: &[u8]) -> Result<Command, Why>
    ensures { result ≡ spells.command_of word.now }
{
    if word == b"mkdir".as_slice() {
        Ok(Command::Mkdir)
    } else if word == b"rmdir".as_slice() {
        Ok(Command::Rmdir)
    } else if word == b"create".as_slice() {
        Ok(Command::Create)
    } else if word == b"unlink".as_slice() {
        Ok(Command::Unlink)
    } else if word == b"stat".as_slice() {
        Ok(Command::Stat)
    } else if word == b"list".as_slice() {
        Ok(Command::List)
    } else if word == b"rename".as_slice() {
        Ok(Command::Rename)
    } else if word == b"write".as_slice() {
        Ok(Command::Write)
    } else if word == b"fill".as_slice() {
        Ok(Command::Fill)
    } else if word == b"read".as_slice() {
        Ok(Command::Read)
    } else if word == b"truncate".as_slice() {
        Ok(Command::Truncate)
    } else if word == b"sync".as_slice() {
        Ok(Command::Sync)
    } else if word == b"clean".as_slice() {
        Ok(Command::Clean)
    } else {
        Err(Why::Command)
    }
}
