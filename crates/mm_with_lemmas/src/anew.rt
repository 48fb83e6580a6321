//! Whether a statement that was there may read as it does now.

ghost use Rattle.std.specs.Prelude.{◌≡◌, List, map, true, IfOk, IsTrue};
ghost use Rattle.mm_base.specs.Statement.{PlainStatement, plain_statement};
ghost use Rattle.mm_text.specs.Files.{plain_file};
ghost use Rattle.mm_frame.specs.Sentence.{sentence_in};
ghost use Rattle.mm_rules.specs.Verdict.{is_proof, proof_of, sentences};
ghost use Rattle.mm_proof.specs.Strict.{IsStrict};
ghost use Rattle.mm_with_lemmas.specs.WithLemmas.{IsProvedAnew, MayRead};
ghost use Rattle.mm_with_lemmas.specs.Mirror.Walking.{IsNext, IsStrictIfProved};

use crate::replaced::{is_theorem, may_be_marked};
use crate::said::{have_one_proof, say_the_same};
use mm_base::{File, Statement};
use mm_frame::{Book, LabelId};
use mm_proof::StepsReader;
use mm_step::{Profile, ProofFault};
use std::alloc::{AllocError, Global};

/// Whether the proof of a theorem is strict, the statement with the number in a book.
fn is_strict<'a>(
    alloc: Global,
    book: &Book,
    reader: &mut StepsReader<'a>,
    id: LabelId,
    statement: &Statement<'a>,
) -> Result<bool, AllocError>
    requires next { (before : List PlainStatement)
        × IsNext book.now.statements id.0 before (plain_statement statement.now) }
    requires theorem { is_proof (plain_statement statement.now) ≡ true }
    ensures { IfOk result (λ strict. IsTrue strict → (before : List PlainStatement)
        → IsNext book.now.statements id.0 before (plain_statement statement.now)
        → IsStrict (sentences before) (sentence_in statement.now)
        (proof_of (plain_statement statement.now))) }
{
    match reader.read(alloc, Profile::Strict, book, id, &statement.proof) {
        Ok(steps) => {
            drop(steps);
            Ok(true)
        }
        Err(ProofFault::Rule { .. }) => Ok(false),
        Err(ProofFault::Memory) => Err(AllocError),
    }
}

/// Whether the proof of a statement, the one with the number in a book, is strict, if it is the
/// complete one of a theorem.
pub(crate) fn is_strict_if_proved<'a>(
    alloc: Global,
    book: &Book,
    reader: &mut StepsReader<'a>,
    id: LabelId,
    statement: &Statement<'a>,
) -> Result<bool, AllocError>
    requires { (before : List PlainStatement)
        × IsNext book.now.statements id.0 before (plain_statement statement.now) }
    ensures { IfOk result (λ strict. IsTrue strict → (before : List PlainStatement)
        → IsNext book.now.statements id.0 before (plain_statement statement.now)
        → IsStrictIfProved before (plain_statement statement.now)) }
{
    if !is_theorem(statement) {
        return Ok(true);
    }
    is_strict(alloc, book, reader, id, statement)
}

/// Whether a theorem of these files has another proof now: it isn't marked to stay as it is, and
/// the new one, of the statement with the number in a book, is complete and strict.
fn is_proved_anew<'a>(
    alloc: Global,
    files: &[File],
    book: &Book,
    reader: &mut StepsReader<'a>,
    id: LabelId,
    old: &Statement,
    new: &Statement<'a>,
) -> Result<bool, AllocError>
    requires { (before : List PlainStatement)
        × IsNext book.now.statements id.0 before (plain_statement new.now) }
    ensures { IfOk result (λ anew. IsTrue anew → (before : List PlainStatement)
        → IsNext book.now.statements id.0 before (plain_statement new.now)
        → IsProvedAnew (map plain_file files.now) before (plain_statement old.now)
        (plain_statement new.now)) }
{
    if !is_theorem(old) || !is_theorem(new) || may_be_marked(files, old) {
        return Ok(false);
    }
    is_strict(alloc, book, reader, id, new)
}

/// Whether a statement of these files may read as it does now, the statement with the number in a
/// book: it says what it said, in the same file, and has its proof, or another that it may have.
pub(crate) fn may_read<'a>(
    alloc: Global,
    files: &[File],
    book: &Book,
    reader: &mut StepsReader<'a>,
    id: LabelId,
    old: &Statement,
    new: &Statement<'a>,
) -> Result<bool, AllocError>
    requires { (before : List PlainStatement)
        × IsNext book.now.statements id.0 before (plain_statement new.now) }
    ensures { IfOk result (λ may. IsTrue may → (before : List PlainStatement)
        → IsNext book.now.statements id.0 before (plain_statement new.now)
        → MayRead (map plain_file files.now) before (plain_statement old.now)
        (plain_statement new.now)) }
{
    if old.first.file != new.first.file || !say_the_same(old, new) {
        return Ok(false);
    }
    if have_one_proof(new, old) {
        return Ok(true);
    }
    is_proved_anew(alloc, files, book, reader, id, old, new)
}
