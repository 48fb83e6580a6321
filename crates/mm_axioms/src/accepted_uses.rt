//! What the accepted proofs of a database use, whatever its other proofs.

ghost use Rattle.std.specs.Prelude.{◌≡◌, ◌++◌, ◌∷◌, ◌<◌, [], List, Ok, true, map, length};
ghost use Rattle.std.specs.Prelude.{IfOk, IfErr, OnOk};
ghost use Rattle.mm_base.specs.Statement.{plain_statement, HasForm};
ghost use Rattle.mm_text.specs.Files.{plain_file};
ghost use Rattle.mm_text.specs.Remaining.{IsUnread};
ghost use Rattle.mm_frame.specs.Sentence.{Sentence, sentence_in};
ghost use Rattle.mm_frame.specs.Taken.{TakenAs};
ghost use Rattle.mm_step.specs.declared.profile.Profile.TheVariants.{Lenient};
ghost use Rattle.mm_rules.specs.Mirror.Judged.{IsLastProof, JudgesProof};
ghost use Rattle.mm_rules.specs.Verdict.{CanBeRead};
ghost use Rattle.mm_axioms.specs.Mirror.Accepted.{AcceptsProof, HasKept, IsKeeping, IsUnkept};
ghost use Rattle.mm_axioms.specs.Mirror.Accepted.{KeepsAccepted, KeepsTurn, StopsKeeping};
ghost use Rattle.mm_axioms.specs.Mirror.Accepted.{TellsAccepted};

use mm_base::{File, Kind, Seed, Statement};
use mm_frame::{Book, LabelId, Taken};
use mm_proof::{Proved, Prover};
use mm_rules::{CheckFault, Kept, Progress, Stop};
use mm_step::{Profile, ProofFault};
use mm_text::Statements;
use mm_verdict::{beginning, load, make_room, next, take};
use std::alloc::{AllocError, Global};

/// What the statements of files say, which break no rule of meaning, and what their accepted proofs
/// use.
#[derive(Drop)]
pub(crate) struct AcceptedUses<'a> {
    pub(crate) book: Book<'a>,
    pub(crate) kept: Kept,
}

/// The verdict on the proof of a `$p`, which the book took last. Where it is complete, the prover
/// has the assertions that it uses.
fn tried<'a>(
    prover: &mut Prover<'a>,
    id: LabelId,
    statement: &Statement<'a>,
) -> Result<Proved, ProofFault>
    requires formed { HasForm (plain_statement statement.now) }
    requires last { IsLastProof prover.old.book.statements id.0 (plain_statement statement.now) }
    ensures judged { JudgesProof Lenient prover.old.book.statements
        (plain_statement statement.now) result prover.new.used }
    ensures accepts { AcceptsProof prover.old.book.statements (plain_statement statement.now)
        result }
    ensures book { prover.new.book ≡ prover.old.book }
{
    prover.prove(Profile::Lenient, id, &statement.proof)
}

/// Whether the proof of a `$p`, which the book took last, is complete and accepted. The prover then
/// has the assertions that it uses.
fn is_accepted<'a>(
    prover: &mut Prover<'a>,
    id: LabelId,
    statement: &Statement<'a>,
) -> Result<bool, AllocError>
    requires formed { HasForm (plain_statement statement.now) }
    requires last { IsLastProof prover.old.book.statements id.0 (plain_statement statement.now) }
    ensures told { IfOk result (λ accepted. TellsAccepted prover.old.book.statements
        (plain_statement statement.now) accepted prover.new.used) }
    ensures book { prover.new.book ≡ prover.old.book }
{
    match tried(prover, id, statement) {
        Ok(Proved::Complete) => Ok(true),
        Ok(Proved::Incomplete) => Ok(false),
        Err(ProofFault::Rule { .. }) => Ok(false),
        Err(ProofFault::Memory) => Err(AllocError),
    }
}

/// Keeps what the proof of a `$p` uses, which the book took last, if it is complete and accepted.
fn keep<'a>(
    kept: &mut Kept,
    prover: &mut Prover<'a>,
    id: LabelId,
    statement: &Statement<'a>,
) -> Result<(), AllocError>
    requires formed { HasForm (plain_statement statement.now) }
    requires last { IsLastProof prover.old.book.statements id.0 (plain_statement statement.now) }
    ensures kept { OnOk result ((before : List Sentence)
        → prover.old.book.statements ≡ before ++ sentence_in statement.now ∷ []
        → KeepsAccepted before (plain_statement statement.now) kept.old kept.new) }
    ensures book { prover.new.book ≡ prover.old.book }
{
    if is_accepted(prover, id, statement)? {
        return kept.push(id, prover.used());
    }
    Ok(())
}

/// Keeps what the proof of the statement uses that the book took last, as this, if it has one that
/// is complete and accepted.
fn keep_taken<'a>(
    kept: &mut Kept,
    prover: &mut Prover<'a>,
    taken: Taken,
    statement: &Statement<'a>,
) -> Result<(), AllocError>
    requires formed { HasForm (plain_statement statement.now) }
    requires taken { (before : List Sentence)
        × (prover.old.book.statements ≡ before ++ sentence_in statement.now ∷ [])
        × TakenAs before statement.now.kind taken }
    ensures kept { OnOk result ((before : List Sentence)
        → prover.old.book.statements ≡ before ++ sentence_in statement.now ∷ []
        → KeepsAccepted before (plain_statement statement.now) kept.old kept.new) }
    ensures book { prover.new.book ≡ prover.old.book }
{
    match taken {
        Taken::Assertion(id) if statement.kind == Kind::Provable => {
            keep(kept, prover, id, statement)
        }
        _ => Ok(()),
    }
}

/// Reads the next statement, takes it, and keeps what its proof uses, if that is accepted; `false`
/// where there is none.
fn keep_next<'a>(
    files: &[File<'a>],
    statements: &mut Statements<'a>,
    progress: &mut Progress<'a>,
    kept: &mut Kept,
    into: &mut Statement<'a>,
) -> Result<bool, Stop<'a>>
    requires { IsKeeping (map plain_file files.now) progress.old statements.old kept.old }
    ensures turned { IfOk result (λ more. KeepsTurn (map plain_file files.now) more progress.new
        statements.new kept.new) }
    ensures fewer { result ≡ Ok true
        → length statements.new.statements < length statements.old.statements }
    ensures stopped { IfErr result (StopsKeeping (map plain_file files.now)) }
{
    if !next(files, statements, into)? {
        return Ok(false);
    }
    make_room(files, progress);
    let taken = take(progress, into)?;
    keep_taken(kept, &mut progress.prover, taken, into)?;
    Ok(true)
}

/// Keeps what the accepted proofs use of the statements that are left.
fn keep_rest<'a>(
    alloc: Global,
    files: &[File<'a>],
    statements: &mut Statements<'a>,
    progress: &mut Progress<'a>,
    kept: &mut Kept,
) -> Result<(), Stop<'a>>
    requires { IsKeeping (map plain_file files.now) progress.old statements.old kept.old }
    ensures kept { OnOk result (HasKept (map plain_file files.now)
        progress.new.prover.book.statements kept.new) }
    ensures stopped { IfErr result (StopsKeeping (map plain_file files.now)) }
{
    let mut statement = Statement::empty(alloc);
    while keep_next(files, statements, progress, kept, &mut statement)? {}
    Ok(())
}

/// What the accepted proofs use of the statements that a new reader has.
fn uses_in<'a>(
    alloc: Global,
    seed: Seed,
    files: &'a [File<'a>],
    statements: &mut Statements<'a>,
) -> Result<AcceptedUses<'a>, CheckFault<'a>>
    requires unread { IsUnread (map plain_file files.now) statements.old }
    requires readable { CanBeRead (map plain_file files.now) }
    ensures kept { IfOk result (λ uses. HasKept (map plain_file files.now) uses.book.statements
        uses.kept) }
    ensures fault { IfErr result (IsUnkept (map plain_file files.now)) }
{
    let mut progress: Progress<'a> = beginning(alloc, seed, files)?;
    let mut kept = Kept::new(alloc);
    match keep_rest(alloc, files, statements, &mut progress, &mut kept) {
        Ok(()) => Ok(AcceptedUses {
            book: progress.prover.into_book(),
            kept,
        }),
        Err(stop) => {
            drop(progress);
            drop(kept);
            Err(CheckFault::from(stop))
        }
    }
}

/// What the accepted proofs of files use, in the lenient profile, whatever their other proofs.
///
/// # Errors
///
/// `Load` where the files can't be taken as a whole, else `Refused` with the first fault of the
/// text or of meaning; `Memory` where a growth was refused.
pub(crate) fn accepted_uses<'a>(
    alloc: Global,
    seed: Seed,
    files: &'a [File<'a>],
) -> Result<AcceptedUses<'a>, CheckFault<'a>>
    ensures kept { IfOk result (λ uses. HasKept (map plain_file files.now) uses.book.statements
        uses.kept) }
    ensures fault { IfErr result (IsUnkept (map plain_file files.now)) }
{
    let mut statements = load(alloc, seed, files)?;
    let outcome = uses_in(alloc, seed, files, &mut statements);
    drop(statements);
    outcome
}
