//! What comments say of the statements of a database, and in which mathboxes these stand.

ghost use Rattle.std.specs.Prelude.{◌≡◌, ◌≤◌, ◌<◌, ◌↔◌, List, ℕ, map, length, slice_get, true};
ghost use Rattle.std.specs.Prelude.{[], IsTrue, IfOk, OnOk, Some, None};
ghost use Rattle.std.specs.List.{AllByRecursion};
ghost use Rattle.mm_base.specs.Statement.{PlainStatement, plain_statement};
ghost use Rattle.mm_text.specs.Files.{PlainFile, plain_file};
ghost use Rattle.mm_text.specs.Reading.{Reads};
ghost use Rattle.mm_text.specs.Remarks.{mathbox_at};
ghost use Rattle.mm_render.specs.Shorter.{MayUse};
ghost use Rattle.mm_minimize.specs.Remarks.{AreRemarks, AreRemarksOf, IsRemarkOf};
ghost use Rattle.mm_minimize.specs.Mirror.Shortening.{ArePassed, IsPassed};

use mm_base::{File, Statement};
use mm_text::{Statements, headings_between, mathbox_at, says_before};
use mm_verdict::Checked;
use std::alloc::{AllocError, Global};

/// Marks an assertion that no further proof should use.
const USAGE_MARK: &[u8] = b"(New usage is discouraged.)";

/// Marks a theorem whose proof should stay as it is.
const PROOF_MARK: &[u8] = b"(Proof modification is discouraged.)";

/// What is said of a labelled statement where it stands.
#[derive(Clone, Copy)]
pub struct Remark {
    /// The number of its file.
    pub file: usize,
    /// The number of its mathbox in its file; 0 where it stands in none.
    pub mathbox: usize,
    /// Whether no further proof should use it.
    pub is_discouraged: bool,
    /// Whether its proof should stay as it is.
    pub is_settled: bool,
}

/// A position in a file, and the number of the mathbox in which it lies.
#[derive(Clone, Copy)]
struct Passed {
    at: usize,
    mathbox: usize,
}

/// The number of the mathbox in which a position of a file lies, where that of another is known.
fn mathbox_from(bytes: &[u8], passed: Passed, at: usize) -> usize
    requires passed { IsPassed bytes.now passed }
    requires within { at ≤ length bytes.now }
    ensures { result ≡ mathbox_at bytes.now at }
{
    if passed.at <= at {
        passed.mathbox + headings_between(bytes, passed.at, at)
    } else {
        mathbox_at(bytes, at)
    }
}

/// What is said of a statement, where a position in each file was passed.
fn remark_of(files: &[File], statement: &Statement, passed: &mut [Passed]) -> Remark
    requires passed { ArePassed (map plain_file files.now) passed.old }
    requires there { (f : PlainFile) × (slice_get (map plain_file files.now)
        (plain_statement statement.now).first.file ≡ Some f)
        × ((plain_statement statement.now).first.at < length f.bytes) }
    ensures passed { ArePassed (map plain_file files.now) passed.new }
    ensures remark { IsRemarkOf (map plain_file files.now) (plain_statement statement.now) result }
{
    let file = statement.first.file;
    let bytes = files[file].bytes;
    let at = statement.first.at as usize;
    let mathbox = mathbox_from(bytes, passed[file], at);
    passed[file] = Passed { at, mathbox };
    let is_discouraged = says_before(bytes, at, USAGE_MARK);
    let is_settled = says_before(bytes, at, PROOF_MARK);
    Remark {
        file,
        mathbox,
        is_discouraged,
        is_settled,
    }
}

/// The beginning of each of so many files.
fn beginnings(alloc: Global, count: usize) -> Result<Vec<Passed>, AllocError>
    ensures count { IfOk result (λ passed. length passed.items ≡ count) }
    ensures begin { IfOk result (λ passed. AllByRecursion (λ p. (p.at ≡ 0) × (p.mathbox ≡ 0))
        passed.items) }
{
    let mut passed = Vec::new(alloc);
    for _ in 0..count {
        passed.push(Passed { at: 0, mathbox: 0 })?;
    }
    Ok(passed)
}

/// Appends what is said of each labelled statement that is left.
fn read_remarks<'a>(
    files: &[File],
    statements: &mut Statements<'a>,
    into: &mut Statement<'a>,
    passed: &mut [Passed],
    remarks: &mut Vec<Remark>,
) -> Result<(), AllocError>
    requires faultless { statements.old.ending ≡ None }
    requires reads { Reads (map plain_file files.now) statements.old.statements None }
    requires passed { ArePassed (map plain_file files.now) passed.old }
    requires begin { remarks.old.items ≡ [] }
    ensures { OnOk result (AreRemarksOf (map plain_file files.now) statements.old.statements
        remarks.new.items) }
{
    while statements.more(into)? {
        if into.label.is_some() {
            remarks.push(remark_of(files, into, passed))?;
        }
    }
    Ok(())
}

/// What is said of each labelled statement of a database, by its number.
///
/// # Errors
///
/// Only where a growth was refused.
pub fn remarks_of(alloc: Global, checked: &Checked) -> Result<Vec<Remark>, AllocError>
    ensures { IfOk result (λ remarks. AreRemarks checked.now.files remarks.items) }
{
    let files = checked.files;
    let mut passed = beginnings(alloc, files.len())?;
    let mut statements = Statements::of_readable(alloc, checked.book.seed(), files)?;
    let mut statement = Statement::empty(alloc);
    let mut remarks = Vec::new(alloc);
    let read = read_remarks(
        files,
        &mut statements,
        &mut statement,
        &mut passed,
        &mut remarks,
    );
    drop(statements);
    drop(statement);
    drop(passed);
    match read {
        Ok(()) => Ok(remarks),
        Err(fault) => {
            drop(remarks);
            Err(fault)
        }
    }
}

/// Whether a theorem may newly use an assertion, by what is said of both.
pub fn may_use(theorem: &Remark, assertion: &Remark) -> bool
    ensures { (files : List PlainFile) → (s a : PlainStatement)
        → IsRemarkOf files s theorem.now → IsRemarkOf files a assertion.now
        → IsTrue result ↔ MayUse files s a }
{
    if assertion.is_discouraged {
        return false;
    }
    assertion.mathbox == 0
        || (theorem.file == assertion.file && theorem.mathbox == assertion.mathbox)
}
