//! Statements of checked files, read again: `check` keeps no proof.

ghost use Rattle.std.specs.Prelude.{◌≡◌, ◌↔◌, List, map, None, OnOk, IfOk, IfErr, IsTrue};
ghost use Rattle.mm_base.specs.Statement.{PlainStatement, plain_statement, HasForm};
ghost use Rattle.mm_text.specs.Files.{plain_file};
ghost use Rattle.mm_text.specs.Reading.{Reads};
ghost use Rattle.mm_frame.specs.Sentence.{sentence_in, IsLabelled};
ghost use Rattle.mm_rules.specs.declared.ask.AskFault.TheVariants.{Memory};
ghost use Rattle.mm_rules.specs.Verdict.{CanBeRead};
ghost use Rattle.mm_rules.specs.Shown.{Stands};

use mm_base::{File, Seed, Statement};
use mm_rules::AskFault;
use mm_text::Statements;
use std::alloc::Global;

/// Whether a statement has a label.
pub fn has_label(statement: &Statement, label: &[u8]) -> bool
    ensures { IsTrue result ↔ IsLabelled label.now (sentence_in statement.now) }
{
    match &statement.label {
        Some(own) => own.text == label,
        None => false,
    }
}

/// Reads statements up to one with this label, which stands among those that are left.
fn seek<'a>(
    statements: &mut Statements<'a>,
    label: &[u8],
    into: &mut Statement<'a>,
) -> Result<(), AskFault>
    requires faultless { statements.old.ending ≡ None }
    requires stands { (s : PlainStatement) × Stands statements.old.statements label.now s }
    ensures found { OnOk result
        (Stands statements.old.statements label.now (plain_statement into.new)) }
    ensures formed { OnOk result (HasForm (plain_statement into.new)) }
    ensures memory { IfErr result (λ fault. fault ≡ Memory) }
{
    while statements.more(into)? {
        if has_label(into, label) {
            return Ok(());
        }
    }
    // The statement is among those that were left.
    unreachable!()
}

/// Reads the files up to a statement with this label, which stands in them.
pub fn reread<'a>(
    alloc: Global,
    seed: Seed,
    files: &'a [File<'a>],
    label: &[u8],
) -> Result<Statement<'a>, AskFault>
    requires readable { CanBeRead (map plain_file files.now) }
    requires stands { (statements : List PlainStatement) × (s : PlainStatement)
        × Reads (map plain_file files.now) statements None × Stands statements label.now s }
    ensures found { IfOk result (λ statement. (statements : List PlainStatement)
        → Reads (map plain_file files.now) statements None
        → Stands statements label.now (plain_statement statement)) }
    ensures formed { IfOk result (λ statement. HasForm (plain_statement statement)) }
    ensures memory { IfErr result (λ fault. fault ≡ Memory) }
{
    let mut statements = Statements::of_readable(alloc, seed, files)?;
    let mut statement = Statement::empty(alloc);
    let found = seek(&mut statements, label, &mut statement);
    drop(statements);
    match found {
        Ok(()) => Ok(statement),
        Err(fault) => {
            drop(statement);
            Err(fault)
        }
    }
}
