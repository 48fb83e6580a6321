//! The variables of expressions. An expression may be long, but has few of them: what is asked of
//! each two of its symbols is asked of each two of these.

ghost use Rattle.std.specs.Prelude.{◌≤◌, length, drop, IfOk, OnOk};
ghost use Rattle.std.specs.List.{AllZip};
ghost use Rattle.mm_step.specs.Stores.{numbers_in};
ghost use Rattle.mm_step.specs.Mirror.CodeAsked.{IsVariableNumber, AreOnce};
ghost use Rattle.mm_step.specs.Mirror.CodeRun.{DoRise};
ghost use Rattle.mm_step.specs.Mirror.CodeVariables.{HaveSame, AddsVariable, HasItsVariables};

use crate::flat::Flat;
use crate::store::Store;
use mm_frame::{Book, Sym};
use std::alloc::{AllocError, Global};

// Puts the symbols in the order of their declarations, each once.
fn sort_once(symbols: &mut Vec<Sym>)
    ensures same { HaveSame (numbers_in symbols.old.items) (numbers_in symbols.new.items) }
    ensures rising { DoRise (numbers_in symbols.new.items) }
{
    symbols.sort_unstable();
    symbols.dedup();
}

// Makes room for a symbol more. Repeated symbols are dropped before the list grows, and it grows
// only where more than half of them were not: so it never takes far more memory than those that
// differ, and each symbol is sorted few times.
fn make_room(symbols: &mut Vec<Sym>) -> Result<(), AllocError>
    ensures { OnOk result (HaveSame (numbers_in symbols.old.items)
        (numbers_in symbols.new.items)) }
{
    if symbols.len() < symbols.capacity() {
        return Ok(());
    }
    sort_once(symbols);
    if symbols.len() > symbols.capacity() / 2 {
        symbols.reserve(symbols.len())?;
    }
    Ok(())
}

// Adds the symbol to the others where it is a variable.
fn add_variable(variables: &mut Vec<Sym>, book: &Book, symbol: Sym) -> Result<(), AllocError>
    ensures { OnOk result (AddsVariable book.now.statements symbol.0
        (numbers_in variables.old.items) (numbers_in variables.new.items)) }
{
    if !book.is_variable(symbol) {
        return Ok(());
    }
    make_room(variables)?;
    variables.push(symbol)?;
    Ok(())
}

/// The variables of the expression, each once.
pub fn variables_in(alloc: Global, book: &Book, e: &[Sym]) -> Result<Vec<Sym>, AllocError>
    ensures { IfOk result (λ variables. AreOnce (IsVariableNumber book.now.statements)
        (numbers_in e.now) (numbers_in variables.items)) }
{
    let mut variables = Vec::new(alloc);
    for symbol in e {
        add_variable(&mut variables, book, *symbol)?;
    }
    sort_once(&mut variables);
    Ok(variables)
}

// The first symbol of the entry, and behind it the variables of the others, each once.
fn entry_of_variables(alloc: Global, book: &Book, entry: &[Sym]) -> Result<Vec<Sym>, AllocError>
    ensures { IfOk result (λ row. HasItsVariables book.now.statements (numbers_in entry.now)
        (numbers_in row.items)) }
{
    let mut row = Vec::new(alloc);
    let [code, rest @ ..] = entry else {
        return Ok(row);
    };
    let variables = variables_in(alloc, book, rest)?;
    row.push(*code)?;
    row.extend_from_slice(&variables)?;
    Ok(row)
}

/// The entries from the base on, of each its first symbol alone and the variables of the others,
/// each once.
pub fn entries_of_variables<S: Store>(
    alloc: Global,
    store: &S,
    base: usize,
    book: &Book,
) -> Result<Flat, AllocError>
    requires { base ≤ length (S.stack store.now) }
    ensures { IfOk result (λ entries. AllZip (HasItsVariables book.now.statements)
        (drop base (S.stack store.now)) (⟦<Flat as Store>⟧.stack entries)) }
{
    let mut entries = Flat::new(alloc);
    for index in base..store.len() {
        let row = entry_of_variables(alloc, book, store.at(index))?;
        entries.push(&row)?;
    }
    Ok(entries)
}
