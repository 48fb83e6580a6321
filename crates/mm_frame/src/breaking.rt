//! Which symbol of a statement breaks a rule of meaning.

ghost use Rattle.std.specs.Prelude.{◌≡◌, ◌↔◌, ◌<◌, ℕ, List, IsTrue, IfOk, MatchOption};
ghost use Rattle.std.specs.Prelude.{vec_len, slice_get, Some};
ghost use Rattle.mm_frame.specs.Sentence.{Sentence, sentence_in};
ghost use Rattle.mm_frame.specs.Active.{IsActiveSymbol};
ghost use Rattle.mm_frame.specs.Rules.{FirstBroken};
ghost use Rattle.mm_frame.specs.Breaking.{StandsEarlier, SymbolBreaks, BreaksFirst, BreaksAt};
ghost use Rattle.mm_frame.specs.Mirror.Layout.{AreTables, statements_of};

use crate::lookups::{is_active_variable, is_constant, is_label, is_typed, is_variable};
use crate::name_table::Names;
use crate::rule::MeaningRule;
use crate::sought::{is_active_number, number_of};
use crate::tables::Tables;
use mm_base::{Seed, Statement};
use std::alloc::AllocError;

// Whether an active `$c` or `$v` declares the symbol.
#[tactic(auto, using(crate::proofs::Rules::SymbolLookups::active_by_number))]
fn is_active(tables: &Tables, symbol: &[u8]) -> bool
    requires { AreTables tables.now }
    ensures { IsTrue result ↔ IsActiveSymbol (statements_of tables.now) symbol.now }
{
    is_active_number(tables, number_of(tables, symbol))
}

// Whether the symbol at an index of a statement breaks the rule. It is known whether the symbol
// stands in the statement before that index.
fn symbol_breaks(
    tables: &Tables,
    rule: MeaningRule,
    index: usize,
    symbol: &[u8],
    repeats: bool,
) -> bool
    requires { AreTables tables.now }
    ensures { (s : Sentence) → (IsTrue repeats ↔ StandsEarlier s index symbol.now)
        → (IsTrue result ↔ SymbolBreaks rule (statements_of tables.now) s index symbol.now) }
{
    match rule {
        MeaningRule::M1 | MeaningRule::M5 | MeaningRule::M6 => false,
        MeaningRule::M2 => repeats || is_constant(tables, symbol) || is_variable(tables, symbol),
        MeaningRule::M3 => {
            repeats || is_active_variable(tables, symbol) || is_constant(tables, symbol)
        }
        MeaningRule::M4 => is_label(tables, symbol),
        MeaningRule::M7 => !is_active(tables, symbol),
        MeaningRule::M8 => is_constant(tables, symbol),
        MeaningRule::M9 => repeats,
        MeaningRule::M10 | MeaningRule::M14 => index == 0,
        MeaningRule::M11 | MeaningRule::M12 | MeaningRule::M13 => index == 1,
        MeaningRule::M15 => is_variable(tables, symbol) && !is_typed(tables, symbol),
    }
}

// The first symbol of the statement that breaks the rule.
fn first_breaking(
    tables: &Tables,
    seed: Seed,
    statement: &Statement,
    rule: MeaningRule,
) -> Result<Option<usize>, AllocError>
    requires tables { AreTables tables.now }
    requires few { vec_len statement.now.symbols < 2147483648 }
    ensures { IfOk result (λ first. MatchOption
        first
        ((index : ℕ) (x : List ℕ)
        → slice_get (sentence_in statement.now).symbols index ≡ Some x
        → ¬ (SymbolBreaks rule (statements_of tables.now) (sentence_in statement.now) index x))
        (λ index. BreaksFirst
        rule (statements_of tables.now) (sentence_in statement.now) index)) }
{
    let mut seen = Names::new(tables.alloc, seed);
    seen.reserve(statement.symbols.len())?;
    for (index, token) in statement.symbols.iter().enumerate() {
        let repeats = seen.find(token.text).is_some();
        if symbol_breaks(tables, rule, index, token.text, repeats) {
            return Ok(Some(index));
        }
        seen.add(token.text);
    }
    Ok(None)
}

/// The index of the first symbol that breaks the rule which the statement breaks, or `None` for a
/// rule that no symbol breaks: of a `$c` in a block, and of labels.
pub(crate) fn breaking_index(
    tables: &Tables,
    seed: Seed,
    statement: &Statement,
    rule: MeaningRule,
) -> Result<Option<usize>, AllocError>
    requires tables { AreTables tables.now }
    requires few { vec_len statement.now.symbols < 2147483648 }
    requires broken { FirstBroken rule (statements_of tables.now) (sentence_in statement.now) }
    ensures { IfOk result
        (BreaksAt rule (statements_of tables.now) (sentence_in statement.now)) }
{
    match rule {
        MeaningRule::M1 | MeaningRule::M5 | MeaningRule::M6 => Ok(None),
        _ => match first_breaking(tables, seed, statement, rule)? {
            Some(index) => Ok(Some(index)),
            // Each of the other rules is broken by a symbol.
            None => unreachable!(),
        },
    }
}
