// What the tool asks of the system: files by name, the words of the command line, the standard streams and random
// bytes.
// The methods are of the library's files and streams, which it does not promise of every system's.
use std::io::{Input, IsTerminal, Print, Result};
use std::os::fd::{AsFd, AsRawFd, IntoRawFd};
use std::os::unix::fs::fchown;
use std::random::RandomSource;
use std::rt::{Env, Files};

pub trait System: Files + Env + Print + Input + RandomSource {
    // Whether standard input is a terminal.
    fn reads_terminal(&self) -> bool;

    // Gives an open file to this group, and to this owner if one is named.
    fn give(&self, file: &Self::File, owner: Option<u32>, group: u32) -> Result<()>;

    // Leaves a file open that has the place of a standard stream, and closes any other. Answers which it was.
    fn kept_as_standard(&self, file: Self::File) -> bool;
}

impl<R: Files + Env + Print + Input + RandomSource> System for R
where
    R::File: AsFd + AsRawFd + IntoRawFd,
    R::Reader: IsTerminal,
{
    fn reads_terminal(&self) -> bool {
        self.reader().is_terminal()
    }

    fn give(&self, file: &R::File, owner: Option<u32>, group: u32) -> Result<()> {
        fchown(file, owner, Some(group))
    }

    fn kept_as_standard(&self, file: R::File) -> bool {
        if file.as_raw_fd() > 2 {
            return false;
        }
        file.into_raw_fd();
        true
    }
}
