//! Whether each proof that is replaced is that of a theorem which may have another, and what stands
//! in its place is one.

ghost use Rattle.std.specs.Prelude.{◌≡◌, ◌≤◌, ◌++◌, ◌∷◌, [], List, map, take, length, false, None};
ghost use Rattle.std.specs.Prelude.{IfOk, IsTrue};
ghost use Rattle.mm_base.specs.Statement.{PlainStatement, plain_statement};
ghost use Rattle.mm_text.specs.Files.{plain_file};
ghost use Rattle.mm_text.specs.Reading.{Reads};
ghost use Rattle.mm_render.specs.Shorter.{IsMarkedWith, proof_mark};
ghost use Rattle.mm_rules.specs.Verdict.{is_proof};
ghost use Rattle.mm_with_lemmas.specs.Mirror.Editing.{ArePlaced, AreReplaceable, IsTheoremAt};
ghost use Rattle.mm_with_lemmas.specs.Mirror.Editing.{place_of, proofs_in};

use crate::change::Change;
use crate::proof_text::is_other_proof;
use mm_base::{File, Kind, Statement};
use mm_proof::is_incomplete;
use mm_text::{Statements, says_before};
use mm_verdict::Checked;
use std::alloc::{AllocError, Global};

/// Marks a theorem whose proof should stay as it is.
const PROOF_MARK: &[u8] = b"(Proof modification is discouraged.)";

/// Whether a statement is a `$p` with a complete proof.
pub(crate) fn is_theorem(statement: &Statement) -> bool
    ensures { result ≡ is_proof (plain_statement statement.now) }
{
    match statement.kind {
        Kind::Provable => !is_incomplete(&statement.proof),
        _ => false,
    }
}

/// Whether the comment before a statement may ask that its proof stay as it is: no only where it
/// doesn't.
pub(crate) fn may_be_marked(files: &[File], statement: &Statement) -> bool
    ensures { result ≡ false
        → ¬ (IsMarkedWith proof_mark (map plain_file files.now) (plain_statement statement.now)) }
{
    let at = statement.first.at as usize;
    let Some(file) = files.get(statement.first.file) else {
        return true;
    };
    if file.bytes.len() < at {
        return true;
    }
    says_before(file.bytes, at, PROOF_MARK)
}

/// The changes that replace proofs, in their order.
fn proofs_in<'e>(alloc: Global, changes: &[Change<'e>]) -> Result<Vec<Change<'e>>, AllocError>
    ensures { IfOk result (λ proofs. proofs.items ≡ proofs_in changes.now) }
{
    let mut proofs = Vec::new(alloc);
    for change in changes {
        match change {
            Change::Proof { .. } => proofs.push(*change)?,
            Change::Lemmas { .. } => {}
        }
    }
    Ok(proofs)
}

/// Whether a statement is a theorem of the file with the number, which may have another proof, and
/// the change puts one in its place.
fn is_theorem_at(
    alloc: Global,
    files: &[File],
    number: usize,
    statement: &Statement,
    proof: &Change,
) -> Result<bool, AllocError>
    ensures { IfOk result (λ is. IsTrue is → IsTheoremAt (map plain_file files.now) number
        (place_of proof.now) (plain_statement statement.now)) }
{
    let span = proof.span();
    if statement.first.file != number || statement.span.0 != span.0 || statement.span.1 != span.1 {
        return Ok(false);
    }
    if !is_theorem(statement) || may_be_marked(files, statement) {
        return Ok(false);
    }
    is_other_proof(alloc, proof.text(), statement)
}

/// How many of the new proofs are met with one more statement, where so many were before it.
fn met_with(
    alloc: Global,
    files: &[File],
    number: usize,
    statement: &Statement,
    proofs: &[Change],
    met: usize,
) -> Result<usize, AllocError>
    requires { met ≤ length proofs.now }
    ensures within { IfOk result (λ more. more ≤ length proofs.now) }
    ensures each { IfOk result (λ more. (seen : List PlainStatement)
        → AreReplaceable (map plain_file files.now) seen number (take met proofs.now)
        → AreReplaceable (map plain_file files.now) (seen ++ plain_statement statement.now ∷ [])
        number (take more proofs.now)) }
{
    if proofs.len() <= met {
        return Ok(met);
    }
    if is_theorem_at(alloc, files, number, statement, &proofs[met])? {
        return Ok(met + 1);
    }
    Ok(met)
}

/// Whether the new proofs stand, in their order, in place of those of theorems of the file with the
/// number which may have others, among the statements that are left.
fn are_met<'a>(
    alloc: Global,
    files: &[File],
    number: usize,
    statements: &mut Statements<'a>,
    proofs: &[Change],
) -> Result<bool, AllocError>
    ensures { IfOk result (λ met. IsTrue met → AreReplaceable (map plain_file files.now)
        statements.old.statements number proofs.now) }
{
    let mut statement = Statement::empty(alloc);
    let mut met = 0;
    while statements.more(&mut statement)? {
        met = met_with(alloc, files, number, &statement, proofs, met)?;
    }
    Ok(met == proofs.len())
}

/// Whether each change that replaces a proof puts another one in the span of that of a theorem of
/// the file with the number whose proof isn't marked to stay as it is.
pub(crate) fn proofs_stand(
    alloc: Global,
    checked: &Checked,
    number: usize,
    changes: &[Change],
) -> Result<bool, AllocError>
    ensures { IfOk result (λ stand. IsTrue stand → (statements : List PlainStatement)
        → Reads checked.now.files statements None
        → ArePlaced checked.now.files statements number changes.now) }
{
    let proofs = proofs_in(alloc, changes)?;
    let files = checked.files;
    let mut statements = Statements::of_readable(alloc, checked.book.seed(), files)?;
    are_met(alloc, files, number, &mut statements, &proofs)
}
