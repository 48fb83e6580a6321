//! What the statements before say of a name.

ghost use Rattle.std.specs.Prelude.{◌≢◌, ◌↔◌, ℕ, List, IsTrue, MatchOption};
ghost use Rattle.mm_base.specs.declared.statement.Kind.TheVariants.{Variables};
ghost use Rattle.mm_frame.specs.Sentence.{SomeSentence, IsLabelled, Declares, Types};
ghost use Rattle.mm_frame.specs.Active.{SomeActive, IsConstant, IsVariable, IsTyped};
ghost use Rattle.mm_frame.specs.Mirror.Layout.{AreTables, statements_of, IsDeclared, GivesType};

use crate::lists::at;
use crate::tables::Tables;

// Whether some statement has this label.
pub(crate) fn is_label(tables: &Tables, label: &[u8]) -> bool
    requires { AreTables tables.now }
    ensures { IsTrue result ↔ SomeSentence (statements_of tables.now) (IsLabelled label.now) }
{
    tables.labels.find(label).is_some()
}

// Whether some `$c` or `$v` declares the symbol.
pub(crate) fn is_declared(tables: &Tables, symbol: &[u8]) -> bool
    requires { AreTables tables.now }
    ensures { IsTrue result ↔ IsDeclared (statements_of tables.now) symbol.now }
{
    tables.symbol_info(symbol).is_some()
}

// Whether some `$c` declares the symbol.
pub(crate) fn is_constant(tables: &Tables, symbol: &[u8]) -> bool
    requires { AreTables tables.now }
    ensures { IsTrue result ↔ IsConstant (statements_of tables.now) symbol.now }
{
    match tables.symbol_info(symbol) {
        Some(info) => info.variable.is_none(),
        None => false,
    }
}

// Whether some `$v` declares the symbol.
pub(crate) fn is_variable(tables: &Tables, symbol: &[u8]) -> bool
    requires { AreTables tables.now }
    ensures { IsTrue result ↔ IsVariable (statements_of tables.now) symbol.now }
{
    match tables.symbol_info(symbol) {
        Some(info) => info.variable.is_some(),
        None => false,
    }
}

// Whether an active `$v` declares the symbol.
pub(crate) fn is_active_variable(tables: &Tables, symbol: &[u8]) -> bool
    requires { AreTables tables.now }
    ensures { IsTrue result
        ↔ SomeActive (statements_of tables.now) (Declares Variables symbol.now) }
{
    match tables.symbol_info(symbol) {
        Some(info) => match info.variable {
            Some(index) => tables.is_active_now(index as usize),
            None => false,
        },
        None => false,
    }
}

// Whether the variable has an active `$f`. No other than its latest can be active.
pub(crate) fn is_typed(tables: &Tables, variable: &[u8]) -> bool
    requires { AreTables tables.now }
    ensures { IsTrue result ↔ IsTyped (statements_of tables.now) variable.now }
{
    match tables.symbol_info(variable) {
        Some(info) => match info.floating {
            Some(index) => tables.is_active_now(index as usize),
            None => false,
        },
        None => false,
    }
}

// The type code that the variable's latest `$f` gives it. Each `$f` before gave the same.
#[tactic(auto, using(crate::proofs::Rules::SymbolLookups::code_steps))]
fn latest_code<'a>(tables: &Tables<'a>, variable: &[u8]) -> Option<&'a [u8]>
    requires { AreTables tables.now }
    ensures { MatchOption
        result
        (¬ (SomeSentence (statements_of tables.now) (GivesType variable.now)))
        (λ code. SomeSentence (statements_of tables.now) (Types code.now variable.now)) }
{
    match tables.symbol_info(variable) {
        Some(info) => match info.floating {
            Some(index) => match at(tables.symbols_at(index as usize), 0) {
                Some(code) => tables.symbols.name(code.0),
                None => None,
            },
            None => None,
        },
        None => None,
    }
}

// Whether an earlier `$f` gave the variable another type code than this one.
pub(crate) fn has_other_type(tables: &Tables, code: &[u8], variable: &[u8]) -> bool
    requires { AreTables tables.now }
    ensures { IsTrue result
        ↔ SomeSentence
        (statements_of tables.now)
        (λ f. (other : List ℕ) × Types other variable.now f × (other ≢ code.now)) }
{
    match latest_code(tables, variable) {
        Some(other) => other != code,
        None => false,
    }
}
