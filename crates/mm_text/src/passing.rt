//! Statements handed over, one after the other, as they are read.

ghost use Rattle.std.specs.Prelude.{List, [], map, take, OnOk, Option};
ghost use Rattle.mm_base.specs.Statement.{PlainStatement};
ghost use Rattle.mm_text.specs.Files.{plain_file, BreaksLoad};
ghost use Rattle.mm_text.specs.Reading.{PlainFault, Reads};
ghost use Rattle.mm_text.specs.declared.fault.LoadRule.{LoadRule};

use crate::statements::Statements;
use mm_base::{File, Seed, Statement};
use std::alloc::{AllocError, Global};

/// What statements are handed to.
pub trait Passing<'a> {
    ghost use Rattle.std.specs.Prelude.{List, OnOk};
    ghost use Rattle.mm_base.specs.Statement.{PlainStatement, plain_statement};
    ghost use Rattle.mm_text.specs.Passing.{Passes, PassesNext};

    /// What it is after these statements, since the first state.
    ghost has_passed: { Self → Self → List PlainStatement → Type 0 };

    /// Takes note of the next statement.
    ///
    /// # Errors
    ///
    /// Where a growth was refused.
    fn pass(&mut self, statement: &Statement<'a>) -> Result<(), AllocError>
        requires { PassesNext has_passed self.old (plain_statement statement.now) }
        ensures { OnOk result
            (Passes has_passed self.old (plain_statement statement.now) self.new) };
}

/// Hands over the next so many statements of a reader; fewer where the text ends before, or its
/// fault comes.
pub fn pass_next<'a, V: Passing<'a>>(
    alloc: Global,
    statements: &mut Statements<'a>,
    count: usize,
    visitor: &mut V,
) -> Result<(), AllocError>
    requires { V.has_passed visitor.old visitor.old [] }
    ensures { OnOk result
        (V.has_passed visitor.old visitor.new (take count statements.old.statements)) }
{
    let mut statement = Statement::empty(alloc);
    for _ in 0..count {
        if !statements.more(&mut statement)? {
            return Ok(());
        }
        visitor.pass(&statement)?;
    }
    Ok(())
}

/// Hands over the first so many statements of files that break no rule as a whole; fewer where the
/// text ends before, or its fault comes.
pub fn pass_first<'a, V: Passing<'a>>(
    alloc: Global,
    seed: Seed,
    files: &'a [File<'a>],
    count: usize,
    visitor: &mut V,
) -> Result<(), AllocError>
    requires readable { (rule : LoadRule) → ¬ (BreaksLoad (map plain_file files.now) rule) }
    requires begun { V.has_passed visitor.old visitor.old [] }
    ensures { OnOk result ((statements : List PlainStatement) (ending : Option PlainFault)
        → Reads (map plain_file files.now) statements ending
        → V.has_passed visitor.old visitor.new (take count statements)) }
{
    let mut statements = Statements::of_readable(alloc, seed, files)?;
    pass_next(alloc, &mut statements, count, visitor)
}

/// Hands over all statements of files that break no rule as a whole, up to the end of the text or
/// to its fault.
pub fn pass_all<'a, V: Passing<'a>>(
    alloc: Global,
    seed: Seed,
    files: &'a [File<'a>],
    visitor: &mut V,
) -> Result<(), AllocError>
    requires readable { (rule : LoadRule) → ¬ (BreaksLoad (map plain_file files.now) rule) }
    requires begun { V.has_passed visitor.old visitor.old [] }
    ensures { OnOk result ((statements : List PlainStatement) (ending : Option PlainFault)
        → Reads (map plain_file files.now) statements ending
        → V.has_passed visitor.old visitor.new statements) }
{
    // They are no more than the bytes of the files.
    pass_first(alloc, seed, files, usize::MAX, visitor)
}
