//! Where the proofs of checked files stand: `check` keeps no proof.

ghost use Rattle.std.specs.Prelude.{◌≡◌, map, slice_get, slice_range, Some, None, IfOk};
ghost use Rattle.mm_base.specs.Statement.{plain_statement};
ghost use Rattle.mm_text.specs.Files.{PlainFile, plain_file};
ghost use Rattle.mm_text.specs.Remaining.{IsUnread};
ghost use Rattle.mm_alike.specs.Mirror.Homes.{HaveHomes, IsWithinFiles};
ghost use Rattle.mm_alike.specs.Mirror.Homes.{home_of as home_behind};

use mm_base::{File, Statement};
use mm_rules::AskFault;
use mm_text::Statements;
use mm_verdict::Checked;
use std::alloc::{AllocError, Global};

/// Where the bytes of a proof stand: the number of the file, and the span there. Of a statement
/// without a proof the span is `(0, 0)`.
#[derive(Clone, Copy)]
pub struct Home {
    pub file: usize,
    pub span: (u32, u32),
}

/// Where the proof of a statement stands.
fn home_of(statement: &Statement) -> Home
    ensures { result ≡ home_behind (plain_statement statement.now) }
{
    Home {
        file: statement.first.file,
        span: statement.span,
    }
}

/// A reader of the files of a database.
fn reader_of<'a>(alloc: Global, checked: &Checked<'a>) -> Result<Statements<'a>, AllocError>
    ensures unread { IfOk result (IsUnread checked.now.files) }
    ensures faultless { IfOk result (λ statements. statements.ending ≡ None) }
{
    match checked.reader(alloc) {
        Ok(statements) => Ok(statements),
        Err(AskFault::Memory) => Err(AllocError),
        // Nothing but lack of memory keeps checked files from being read again.
        Err(_) => unreachable!(),
    }
}

/// Where the proofs of the labelled statements of checked files stand, in their order. The files
/// are read again.
pub fn homes_of<'a>(alloc: Global, checked: &Checked<'a>) -> Result<Vec<Home>, AllocError>
    ensures { IfOk result (λ homes. HaveHomes checked.now.files homes.items) }
{
    let mut homes = Vec::new(alloc);
    let mut statements = reader_of(alloc, checked)?;
    let mut statement = Statement::empty(alloc);
    while statements.more(&mut statement)? {
        if statement.label.is_some() {
            homes.push(home_of(&statement))?;
        }
    }
    Ok(homes)
}

/// The bytes of a proof.
pub(crate) fn bytes_at<'a>(files: &[File<'a>], home: Home) -> &'a [u8]
    requires { IsWithinFiles (map plain_file files.now) home }
    ensures { (file : PlainFile) → slice_get (map plain_file files.now) home.file ≡ Some file
        → result.now ≡ slice_range file.bytes home.span.0 home.span.1 }
{
    let bytes = files[home.file].bytes;
    &bytes[home.span.0 as usize..home.span.1 as usize]
}
