// The commands that are carried out.

use clap::Error;

/// The numbers of a new pool.
#[derive(Clone, Copy, Debug, PartialEq, Eq)]
pub struct NewPool {
    pub parity: u32,
    pub width: u32,
    pub id: u64,
}

/// A command that is carried out.
#[derive(Clone, Copy, Debug, PartialEq, Eq)]
pub enum ServedCommand {
    Create(NewPool),
    /// With a client that attaches a device and copies, or without.
    Run { attaches: bool },
    Replay,
    Status,
}

/// Why words are no command that is carried out.
#[derive(Debug, Drop)]
pub enum NoCommand {
    /// Help or the version was asked for. The error's text is the answer.
    Asked(Error),
    /// The grammar does not take the words, or a number is misspelled or out of its range.
    Misspelled,
    /// There was no memory to read them.
    NoMemory,
}
