//! Symbols that are looked up once: what the statements before say of them by their numbers.

ghost use Rattle.std.specs.Prelude.{◌↔◌, IsTrue, OnOk, length, map};
ghost use Rattle.mm_frame.specs.Sentence.{sentence_in};
ghost use Rattle.mm_frame.specs.Active.{IsConstant, IsVariable, IsActiveSymbol, IsTyped};
ghost use Rattle.mm_frame.specs.Mirror.Layout.{AreTables, statements_of};
ghost use Rattle.mm_frame.specs.Mirror.Sought.{IsOfNumber, IsSought, AreSought, HasNumbers};

use crate::guesses::Guesses;
use crate::number::Sym;
use crate::said::is_use;
use crate::tables::Tables;
use mm_base::{Statement, Token};
use std::alloc::AllocError;

/// The number of a symbol. One that isn't declared has the next free number, which no symbol has.
#[tactic(auto, using(crate::proofs::Rules::SymbolLookups::sought_steps))]
pub(crate) fn number_of(tables: &Tables, symbol: &[u8]) -> Sym
    requires { AreTables tables.now }
    ensures { IsSought (statements_of tables.now) symbol.now result.0 }
{
    match tables.symbols.find(symbol) {
        Some(number) => Sym(number),
        None => Sym(tables.symbols.len() as u32),
    }
}

// The same number, for a symbol that was perhaps looked up lately.
#[inline(always)]
#[tactic(auto, using(crate::proofs::Rules::SymbolLookups::sought_steps))]
fn number_guessed(tables: &Tables, guesses: &mut Guesses, symbol: &[u8]) -> Sym
    requires { AreTables tables.now }
    ensures { IsSought (statements_of tables.now) symbol.now result.0 }
{
    match tables.symbols.find_guessed(guesses, symbol) {
        Some(number) => Sym(number),
        None => Sym(tables.symbols.len() as u32),
    }
}

// Looks symbols up.
fn look_up_each(
    tables: &Tables,
    guesses: &mut Guesses,
    symbols: &[Token],
    numbers: &mut Vec<Sym>,
) -> Result<(), AllocError>
    requires { AreTables tables.now }
    ensures { OnOk result (AreSought
        (statements_of tables.now)
        (map (λ n. n.0) numbers.new.items)
        (map (λ t. t.text.now) symbols.now)) }
{
    numbers.clear();
    for token in symbols {
        numbers.push(number_guessed(tables, guesses, token.text))?;
    }
    Ok(())
}

/// Looks the symbols of a statement up that uses symbols.
#[tactic(auto, using(std::proofs::lemmas::Result::on_ok_weaker, crate::proofs::Rules::RepeatedSymbols::texts))]
pub(crate) fn look_up(
    tables: &Tables,
    guesses: &mut Guesses,
    statement: &Statement,
    numbers: &mut Vec<Sym>,
) -> Result<(), AllocError>
    requires { AreTables tables.now }
    ensures { OnOk result (HasNumbers
        (statements_of tables.now)
        (map (λ n. n.0) numbers.new.items)
        (sentence_in statement.now)) }
{
    if is_use(statement.kind) {
        look_up_each(tables, guesses, &statement.symbols, numbers)
    } else {
        Ok(())
    }
}

// Whether some `$c` declares the symbol with a number.
pub(crate) fn is_constant_number(tables: &Tables, symbol: Sym) -> bool
    requires { AreTables tables.now }
    ensures { IsTrue result ↔ IsOfNumber
        (statements_of tables.now) symbol.0 (IsConstant (statements_of tables.now)) }
{
    match tables.info(symbol) {
        Some(info) => info.variable.is_none(),
        None => false,
    }
}

// Whether some `$v` declares the symbol with a number.
pub(crate) fn is_variable_number(tables: &Tables, symbol: Sym) -> bool
    requires { AreTables tables.now }
    ensures { IsTrue result ↔ IsOfNumber
        (statements_of tables.now) symbol.0 (IsVariable (statements_of tables.now)) }
{
    match tables.info(symbol) {
        Some(info) => info.variable.is_some(),
        None => false,
    }
}

// Whether an active `$c` or `$v` declares the symbol with a number. Each `$c` is active, since none
// stands in a block.
pub(crate) fn is_active_number(tables: &Tables, symbol: Sym) -> bool
    requires { AreTables tables.now }
    ensures { IsTrue result ↔ IsOfNumber
        (statements_of tables.now) symbol.0 (IsActiveSymbol (statements_of tables.now)) }
{
    match tables.info(symbol) {
        Some(info) => match info.variable {
            Some(index) => tables.is_active_now(index as usize),
            None => true,
        },
        None => false,
    }
}

// Whether the variable with a number has an active `$f`. No other than its latest can be active.
#[tactic(auto, using(crate::proofs::Rules::SymbolLookups::typed_steps))]
pub(crate) fn is_typed_number(tables: &Tables, variable: Sym) -> bool
    requires { AreTables tables.now }
    ensures { IsTrue result ↔ IsOfNumber
        (statements_of tables.now) variable.0 (IsTyped (statements_of tables.now)) }
{
    match tables.info(variable) {
        Some(info) => match info.floating {
            Some(index) => tables.is_active_now(index as usize),
            None => false,
        },
        None => false,
    }
}
