//! The types that the `$f` of files give variables.

ghost use Rattle.std.specs.Prelude.{map, IfOk, IfErr, OnOk};
ghost use Rattle.mm_text.specs.Files.{plain_file};
ghost use Rattle.mm_text.specs.Remaining.{IsUnread};
ghost use Rattle.mm_rules.specs.Verdict.{CanBeRead};
ghost use Rattle.mm_find.specs.Found.{IsUnlisted};
ghost use Rattle.mm_find.specs.Mirror.Types.{HasAskedTypes, HasTypesOf, IsTyping};
ghost use Rattle.mm_find.specs.Mirror.Walk.{StopsListing};

use crate::query::Matching;
use crate::types::Types;
use mm_base::{File, Seed, Statement};
use mm_rules::{CheckFault, Progress, Stop};
use mm_text::Statements;
use mm_verdict::{beginning, load, take_next};
use std::alloc::Global;

/// Notes the types of the statements that are left.
fn note_rest<'a>(
    alloc: Global,
    files: &[File<'a>],
    statements: &mut Statements<'a>,
    progress: &mut Progress<'a>,
    types: &mut Types<'a>,
) -> Result<(), Stop<'a>>
    requires { IsTyping (map plain_file files.now) progress.old statements.old types.old }
    ensures typed { OnOk result (HasTypesOf (map plain_file files.now) types.new) }
    ensures stopped { IfErr result (StopsListing (map plain_file files.now)) }
{
    let mut statement = Statement::empty(alloc);
    while let Some(_taken) = take_next(files, statements, progress, &mut statement)? {
        types.note(&statement)?;
    }
    Ok(())
}

/// The types of the statements that a new reader has.
fn noted_types<'a>(
    alloc: Global,
    seed: Seed,
    files: &'a [File<'a>],
    statements: &mut Statements<'a>,
) -> Result<Types<'a>, CheckFault<'a>>
    requires unread { IsUnread (map plain_file files.now) statements.old }
    requires readable { CanBeRead (map plain_file files.now) }
    ensures typed { IfOk result (HasTypesOf (map plain_file files.now)) }
    ensures fault { IfErr result (IsUnlisted (map plain_file files.now)) }
{
    let mut progress: Progress<'a> = beginning(alloc, seed, files)?;
    let mut types = Types::new(alloc, seed);
    match note_rest(alloc, files, statements, &mut progress, &mut types) {
        Ok(()) => Ok(types),
        Err(stop) => {
            drop(types);
            Err(CheckFault::from(stop))
        }
    }
}

/// The types of the files.
fn read_types<'a>(
    alloc: Global,
    seed: Seed,
    files: &'a [File<'a>],
) -> Result<Types<'a>, CheckFault<'a>>
    ensures typed { IfOk result (HasTypesOf (map plain_file files.now)) }
    ensures fault { IfErr result (IsUnlisted (map plain_file files.now)) }
{
    let mut statements = load(alloc, seed, files)?;
    let outcome = noted_types(alloc, seed, files, &mut statements);
    drop(statements);
    outcome
}

/// The types of the files, where variants are asked for: a pattern may name a variable before its
/// `$f`, so they are read before anything is listed.
pub(crate) fn asked_types<'a>(
    alloc: Global,
    seed: Seed,
    files: &'a [File<'a>],
    matching: Matching,
) -> Result<Types<'a>, CheckFault<'a>>
    ensures typed { IfOk result (HasAskedTypes matching (map plain_file files.now)) }
    ensures fault { IfErr result (IsUnlisted (map plain_file files.now)) }
{
    match matching {
        Matching::Shapes => Ok(Types::new(alloc, seed)),
        Matching::Variants { .. } => read_types(alloc, seed, files),
    }
}
