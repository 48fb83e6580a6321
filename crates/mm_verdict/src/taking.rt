//! Statements of files, taken one after the other, whatever their proofs.

ghost use Rattle.std.specs.Prelude.{◌+◌, ◌<◌, ◌≤◌, ◌^◌, ◌≡◌, map, IfOk, IfErr};
ghost use Rattle.mm_base.specs.declared.statement.Kind.TheVariants.{Closing};
ghost use Rattle.mm_base.specs.MostBytes.{most_bytes};
ghost use Rattle.mm_base.specs.Statement.{plain_statement, HasForm, bytes_in};
ghost use Rattle.mm_text.specs.Files.{plain_file};
ghost use Rattle.mm_frame.specs.Active.{open_marks, close_marks};
ghost use Rattle.mm_rules.specs.Mirror.Judged.{RefusesMeaning};
ghost use Rattle.mm_verdict.specs.Mirror.Judged.{IsRead, StopsTurn};
ghost use Rattle.mm_verdict.specs.Mirror.Taking.{TakesAs, TakesTurn};

use crate::verdict::{make_room, next};
use mm_base::{File, Statement};
use mm_frame::{RuleFault, Taken};
use mm_rules::{Progress, Rule, Stop, refusal};
use mm_text::Statements;

/// Takes a statement after those that the progress has, unless it breaks a rule of meaning. Its
/// proof isn't judged.
pub fn take<'a>(progress: &mut Progress<'a>, statement: &Statement<'a>) -> Result<Taken, Stop<'a>>
    requires formed { HasForm (plain_statement statement.now) }
    requires closes { statement.now.kind ≡ Closing
        → close_marks progress.old.prover.book.statements
        < open_marks progress.old.prover.book.statements }
    requires room { progress.old.prover.book.bytes
        + bytes_in (plain_statement statement.now) ≤ most_bytes }
    requires count { progress.old.count < 2 ^ 62 }
    ensures taken { IfOk result (λ taken. TakesAs progress.old (plain_statement statement.now)
        taken progress.new) }
    ensures refused { IfErr result (RefusesMeaning progress.old.lines
        progress.old.prover.book.statements progress.old.count
        (plain_statement statement.now)) }
{
    match progress.prover.take(statement) {
        Ok(taken) => {
            progress.count += 1;
            Ok(taken)
        }
        Err(RuleFault::Rule(rule)) => {
            let refusal = refusal(
                &mut progress.lines,
                progress.count,
                statement,
                Rule::Meaning(rule),
                0,
            );
            Err(Stop::Refused(refusal))
        }
        Err(RuleFault::Memory) => Err(Stop::Memory),
    }
}

/// Reads the next statement and takes it into the progress, whatever its proof: what it was taken
/// as, or nothing where there is none.
pub fn take_next<'a>(
    files: &[File<'a>],
    statements: &mut Statements<'a>,
    progress: &mut Progress<'a>,
    into: &mut Statement<'a>,
) -> Result<Option<Taken>, Stop<'a>>
    requires { IsRead (map plain_file files.now) progress.old statements.old }
    ensures turned { IfOk result (λ taken. TakesTurn progress.old statements.old taken
        (plain_statement into.new) progress.new statements.new) }
    ensures stopped { IfErr result (StopsTurn (map plain_file files.now) progress.old
        statements.old) }
{
    if !next(files, statements, into)? {
        return Ok(None);
    }
    make_room(files, progress);
    Ok(Some(take(progress, into)?))
}
