//! A folder in memory.

ghost use Rattle.std.specs.Prelude.{◌≡◌, ⊤, List, ℕ, Some, MatchOption, find, option_map};
ghost use Rattle.std.specs.Prelude.{true, unwrap_or};
ghost use Rattle.std.specs.Str.{bytes_eq};
ghost use Rattle.mm_serve.specs.Folder.{Absent, Holds, MayHold};

use mm_serve::Folder;
use mm_text::Source;
use std::io;
use std::io::{ErrorKind, Read};

/// A file of the folder.
#[derive(Clone, Copy)]
pub(crate) struct Entry {
    pub(crate) name: &'static str,
    pub(crate) bytes: &'static [u8],
    /// Whether the read after the last byte fails.
    pub(crate) breaks: bool,
}

/// Files that lie in memory. A file that isn't among them is absent.
#[derive(Clone, Copy)]
pub(crate) struct Shelf<'a>(pub(crate) &'a [Entry]);

/// What is left of an open file.
#[derive(Drop)]
pub(crate) struct OpenEntry {
    left: &'static [u8],
    breaks: bool,
}

impl Source for OpenEntry {
    ghost left = { λ file. Some file.left.now };

    ghost may_fail = { λ file. file.breaks ≡ true };

    fn give(&mut self, piece: &mut [u8]) -> io::Result<usize> {
        if self.breaks && self.left.is_empty() {
            return Err(io::Error::from(ErrorKind::Other));
        }
        self.left.read(piece)
    }

    /// Wrong of most files, since nothing may rest on it: too few of long ones, and else too many.
    fn length_hint(&self) -> usize {
        10 - self.left.len().min(10)
    }
}

/// The first of the entries with this name.
fn entry_with(entries: &[Entry], name: &str) -> Option<Entry>
    ensures { result ≡ find (λ entry. bytes_eq entry.name.now name.now) entries.now }
{
    for entry in entries {
        if entry.name == name {
            return Some(*entry);
        }
    }
    None
}

impl Folder for Shelf<'_> {
    type File = OpenEntry;

    ghost holds = { λ shelf name. unwrap_or (option_map (λ entry. Holds entry.bytes.now)
        (find (λ entry. bytes_eq entry.name.now name) shelf.0.now)) Absent };

    ghost may_fail = { λ shelf name. MatchOption
        (find (λ entry. bytes_eq entry.name.now name) shelf.0.now) ⊤
        (λ entry. entry.breaks ≡ true) };

    fn open(&self, name: &str) -> io::Result<OpenEntry> {
        match entry_with(self.0, name) {
            Some(entry) => Ok(OpenEntry {
                left: entry.bytes,
                breaks: entry.breaks,
            }),
            None => Err(io::Error::from(ErrorKind::NotFound)),
        }
    }
}
