//! Reading the files that the words name.

ghost use Rattle.std.specs.Prelude.{◌≡◌, ◌<◌, ◌≤◌, ℕ, List, length, map};
ghost use Rattle.std.specs.Prelude.{IfOk, IfErr, IfSome, IsErrOf};
ghost use Rattle.std.specs.List.{AllZip};
ghost use Rattle.mm_text.specs.Device.{faults_of, inner_of};
ghost use Rattle.mm_text.specs.Files.{PlainFile, total_bytes};
ghost use Rattle.mm_serve.specs.Folder.{AreHeld, IsFileFault, IsHeld, MayHold, plain_read};
ghost use Rattle.mm_serve.specs.ReadFiles.{AreReadAs, IsReadAs};
ghost use Rattle.mm_serve.specs.declared.files.FileFault.TheVariants.{Memory};

use crate::folder::Folder;
use mm_text::{Counted, LoadFault, Source, StrippedBytes, read_all, read_stripped};
use std::alloc::{AllocFailed, Global};
use thiserror::Error;

/// Whether what comments say is kept as a file is read.
#[derive(Clone, Copy, PartialEq, Eq, Debug)]
pub(crate) enum Comments {
    Kept,
    /// It is left out, but for line feeds and faults, as it changes no reply to `check`: a file
    /// then takes less memory. Other commands need files as they are.
    LeftOut,
}

/// A file that was read to its end.
#[derive(Drop)]
pub(crate) struct ReadFile<'a> {
    /// The word that names it.
    pub(crate) name: &'a str,
    pub(crate) bytes: Vec<u8>,
    /// How many bytes the file holds.
    pub(crate) count: usize,
}

/// Why not all files were read.
#[derive(Clone, Copy, Debug, Drop, Error)]
pub(crate) enum FileFault<'a> {
    /// The file with this name can't be opened or read.
    #[error("cannot read {0}")]
    CannotRead(&'a str),
    /// The files up to this one hold more bytes than they may.
    #[error("the files hold too many bytes")]
    TooLong,
    /// A growth was refused.
    #[error("out of memory")]
    Memory,
}

impl<'a, T: Drop> From<AllocFailed<T>> for FileFault<'a> {
    ghost from_gives = { λ _ e. e ≡ Memory };

    fn from(_e: AllocFailed<T>) -> FileFault<'a> {
        FileFault::Memory
    }
}

/// Reads a source to its end, at most `max` bytes.
fn read_bytes<S: Source>(
    alloc: Global,
    reader: &mut Counted<S>,
    max: usize,
    comments: Comments,
) -> Result<StrippedBytes, LoadFault>
    requires { faults_of reader.old < u64.MAX }
    ensures within { IfOk result (λ read. read.count ≤ max) }
    ensures read { IfOk result (λ read. (all : List ℕ)
        × IfSome (S.left (inner_of reader.old)) (λ left. all ≡ left)
        × (length all ≡ read.count) × AreReadAs comments all read.bytes.items) }
    ensures too_long { IsErrOf result LoadFault.TooLong →
        IfSome (S.left (inner_of reader.old)) (λ all. max < length all) }
    ensures cause { IsErrOf result LoadFault.Device → S.may_fail (inner_of reader.old) }
{
    match comments {
        Comments::LeftOut => read_stripped(alloc, reader, max),
        Comments::Kept => {
            let bytes = read_all(alloc, reader, max)?;
            let count = bytes.len();
            Ok(StrippedBytes { bytes, count })
        }
    }
}

/// Reads one file, which may hold at most `max` bytes.
pub(crate) fn read_file<'a, F: Folder>(
    alloc: Global,
    folder: &F,
    name: &'a str,
    max: usize,
    comments: Comments,
) -> Result<ReadFile<'a>, FileFault<'a>>
    ensures within { IfOk result (λ file. file.count ≤ max) }
    ensures read { IfOk result (λ file. (whole : PlainFile)
        × (whole.name ≡ name.entry.now) × IsHeld (F.holds folder.now) whole
        × (length whole.bytes ≡ file.count) × IsReadAs comments whole (plain_read file)) }
    ensures named { (word : _) → result ≡ Err (FileFault.CannotRead word) → word ≡ name.entry }
    ensures unreadable { (word : _) → result ≡ Err (FileFault.CannotRead word)
        → F.may_fail folder.now name.entry.now }
    ensures too_long { IsErrOf result FileFault.TooLong
        → MayHold (F.holds folder.now name.entry.now) (λ all. max < length all) }
{
    let Ok(file) = folder.open(name) else {
        return Err(FileFault::CannotRead(name));
    };
    match read_bytes(alloc, &mut Counted::new(file), max, comments) {
        Ok(StrippedBytes { bytes, count }) => Ok(ReadFile { name, bytes, count }),
        Err(LoadFault::Device) => Err(FileFault::CannotRead(name)),
        Err(LoadFault::TooLong) => Err(FileFault::TooLong),
        Err(LoadFault::Memory) => Err(FileFault::Memory),
    }
}

/// Reads the files with these names, in this order, which may hold at most `max` bytes in all. At
/// the first one that can't be read, or that passes what is left, no later one is opened.
///
/// # Errors
///
/// `CannotRead` where a file can't be opened, or a read fails; `TooLong` where the files read so
/// far hold more than `max` bytes; `Memory` where a growth was refused.
pub(crate) fn read_files<'a, F: Folder>(
    alloc: Global,
    folder: &F,
    names: &[&'a str],
    max: usize,
    comments: Comments,
) -> Result<Vec<ReadFile<'a>>, FileFault<'a>>
    ensures read { IfOk result (λ files. (wholes : List PlainFile)
        × AreHeld (F.holds folder.now) (map (λ n. n.now) names.now) wholes
        × (total_bytes wholes ≤ max)
        × AllZip (IsReadAs comments) wholes (map plain_read files.items)) }
    ensures fault { IfErr result (IsFileFault (F.holds folder.now) (F.may_fail folder.now)
        (map (λ n. n.now) names.now) max) }
{
    let mut files = Vec::new(alloc);
    let mut left = max;
    for name in names {
        let file = read_file(alloc, folder, *name, left, comments)?;
        left -= file.count;
        files.push(file)?;
    }
    Ok(files)
}
