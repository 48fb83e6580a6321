//! The rules of meaning: which a statement breaks after the statements before it.

ghost use Rattle.std.specs.Prelude.{◌≡◌, ◌↔◌, ◌<◌, ℕ, List, ◌∷◌, IsTrue, IfOk, OnOk, MatchOption};
ghost use Rattle.std.specs.Prelude.{length, map, vec_len, slice_get, Contains, Some};
ghost use Rattle.mm_frame.specs.declared.rule.MeaningRule.TheVariants.{M1, M2, M3, M4, M5, M6, M7};
ghost use Rattle.mm_frame.specs.declared.rule.MeaningRule.TheVariants.{M8, M9, M10, M11, M12, M13};
ghost use Rattle.mm_frame.specs.declared.rule.MeaningRule.TheVariants.{M14, M15};
ghost use Rattle.mm_frame.specs.Sentence.{Sentence, sentence_in, StandsTwice};
ghost use Rattle.mm_frame.specs.Active.{IsVariable};
ghost use Rattle.mm_frame.specs.Rules.{Breaks, IsMeant, FirstBroken};
ghost use Rattle.mm_frame.specs.Mirror.Layout.{AreTables, statements_of};
ghost use Rattle.mm_frame.specs.Mirror.Told.{IsTold, StatesOnce};
ghost use Rattle.mm_frame.specs.Mirror.Sought.{AreSought, HasNumbers};
ghost use Rattle.mm_frame.specs.Mirror.Asked.{rules_of};

use crate::guesses::Guesses;
use crate::lookups::{
    has_other_type, is_active_variable, is_constant, is_declared, is_label, is_typed, is_variable,
};
use crate::name_table::Names;
use crate::number::Sym;
use crate::rule::MeaningRule;
use crate::said::{is_stated, is_use, label_of, typing};
use crate::sought::{
    is_active_number, is_constant_number, is_typed_number, is_variable_number, look_up,
};
use crate::tables::Tables;
use mm_base::{Kind, Seed, Statement, Token};
use std::alloc::{AllocError, Global};

// A `$c` stands in a block.
fn breaks_m1(tables: &Tables, statement: &Statement) -> bool
    requires { AreTables tables.now }
    ensures { IsTrue result ↔ Breaks M1 (statements_of tables.now) (sentence_in statement.now) }
{
    statement.kind == Kind::Constants && tables.scopes.has_open()
}

// A symbol of a `$c` was declared before, or stands twice in it.
fn breaks_m2(tables: &Tables, statement: &Statement, repeats: bool) -> bool
    requires tables { AreTables tables.now }
    requires told { IsTold repeats (sentence_in statement.now) }
    ensures { IsTrue result ↔ Breaks M2 (statements_of tables.now) (sentence_in statement.now) }
{
    statement.kind == Kind::Constants
        && (repeats
            || statement.symbols.iter().any(|token| {
                is_constant(tables, token.text) || is_variable(tables, token.text)
            }))
}

// A symbol of a `$v` is an active variable, was declared a constant, or stands twice in it.
fn breaks_m3(tables: &Tables, statement: &Statement, repeats: bool) -> bool
    requires tables { AreTables tables.now }
    requires told { IsTold repeats (sentence_in statement.now) }
    ensures { IsTrue result ↔ Breaks M3 (statements_of tables.now) (sentence_in statement.now) }
{
    statement.kind == Kind::Variables
        && (repeats
            || statement.symbols.iter().any(|token| {
                is_active_variable(tables, token.text) || is_constant(tables, token.text)
            }))
}

// A symbol of a `$c` or `$v` equals an earlier label.
fn breaks_m4(tables: &Tables, statement: &Statement) -> bool
    requires { AreTables tables.now }
    ensures { IsTrue result ↔ Breaks M4 (statements_of tables.now) (sentence_in statement.now) }
{
    (statement.kind == Kind::Constants || statement.kind == Kind::Variables)
        && statement
            .symbols
            .iter()
            .any(|token| is_label(tables, token.text))
}

// The label equals an earlier label.
fn breaks_m5(tables: &Tables, statement: &Statement) -> bool
    requires { AreTables tables.now }
    ensures { IsTrue result ↔ Breaks M5 (statements_of tables.now) (sentence_in statement.now) }
{
    match label_of(statement) {
        Some(label) => is_label(tables, label),
        None => false,
    }
}

// The label equals a symbol declared before.
fn breaks_m6(tables: &Tables, statement: &Statement) -> bool
    requires { AreTables tables.now }
    ensures { IsTrue result ↔ Breaks M6 (statements_of tables.now) (sentence_in statement.now) }
{
    match label_of(statement) {
        Some(label) => is_declared(tables, label),
        None => false,
    }
}

// A symbol that is used isn't active.
fn breaks_m7(tables: &Tables, statement: &Statement, numbers: &[Sym]) -> bool
    requires tables { AreTables tables.now }
    requires numbers { HasNumbers
        (statements_of tables.now) (map (λ n. n.0) numbers.now) (sentence_in statement.now) }
    ensures { IsTrue result ↔ Breaks M7 (statements_of tables.now) (sentence_in statement.now) }
{
    is_use(statement.kind)
        && numbers
            .iter()
            .any(|number| !is_active_number(tables, *number))
}

// A member of a `$d` is a constant.
fn breaks_m8(tables: &Tables, statement: &Statement, numbers: &[Sym]) -> bool
    requires tables { AreTables tables.now }
    requires numbers { HasNumbers
        (statements_of tables.now) (map (λ n. n.0) numbers.now) (sentence_in statement.now) }
    ensures { IsTrue result ↔ Breaks M8 (statements_of tables.now) (sentence_in statement.now) }
{
    statement.kind == Kind::Distinct
        && numbers
            .iter()
            .any(|number| is_constant_number(tables, *number))
}

// A member stands twice in a `$d`.
fn breaks_m9(statement: &Statement, repeats: bool) -> bool
    requires { IsTold repeats (sentence_in statement.now) }
    ensures { (before : List Sentence)
        → (IsTrue result ↔ Breaks M9 before (sentence_in statement.now)) }
{
    statement.kind == Kind::Distinct && repeats
}

// The type code of a `$f` is a variable.
fn breaks_m10(tables: &Tables, statement: &Statement) -> bool
    requires { AreTables tables.now }
    ensures { IsTrue result ↔ Breaks M10 (statements_of tables.now) (sentence_in statement.now) }
{
    match typing(statement) {
        Some((code, _)) => is_variable(tables, code),
        None => false,
    }
}

// The second symbol of a `$f` is a constant.
fn breaks_m11(tables: &Tables, statement: &Statement) -> bool
    requires { AreTables tables.now }
    ensures { IsTrue result ↔ Breaks M11 (statements_of tables.now) (sentence_in statement.now) }
{
    match typing(statement) {
        Some((_, variable)) => is_constant(tables, variable),
        None => false,
    }
}

// The variable of a `$f` has an active `$f`.
fn breaks_m12(tables: &Tables, statement: &Statement) -> bool
    requires { AreTables tables.now }
    ensures { IsTrue result ↔ Breaks M12 (statements_of tables.now) (sentence_in statement.now) }
{
    match typing(statement) {
        Some((_, variable)) => is_typed(tables, variable),
        None => false,
    }
}

// An earlier `$f` gave the variable another type code.
fn breaks_m13(tables: &Tables, statement: &Statement) -> bool
    requires { AreTables tables.now }
    ensures { IsTrue result ↔ Breaks M13 (statements_of tables.now) (sentence_in statement.now) }
{
    match typing(statement) {
        Some((code, variable)) => has_other_type(tables, code, variable),
        None => false,
    }
}

// Whether the first of some symbols is a variable.
#[tactic(auto, using(crate::proofs::Rules::SymbolLookups::first_says, crate::proofs::Rules::SymbolLookups::no_first))]
fn is_first_variable(tables: &Tables, numbers: &[Sym]) -> bool
    requires { AreTables tables.now }
    ensures { (symbols : List (List ℕ))
        → AreSought (statements_of tables.now) (map (λ n. n.0) numbers.now) symbols
        → (IsTrue result ↔ ((first : List ℕ) × (others : List (List ℕ))
        × (symbols ≡ first ∷ others) × IsVariable (statements_of tables.now) first)) }
{
    match numbers.first() {
        Some(first) => is_variable_number(tables, *first),
        None => false,
    }
}

// The first symbol of an expression is a variable.
#[tactic(auto, using(crate::proofs::Rules::RepeatedSymbols::with_test))]
fn breaks_m14(tables: &Tables, statement: &Statement, numbers: &[Sym]) -> bool
    requires tables { AreTables tables.now }
    requires numbers { HasNumbers
        (statements_of tables.now) (map (λ n. n.0) numbers.now) (sentence_in statement.now) }
    ensures { IsTrue result ↔ Breaks M14 (statements_of tables.now) (sentence_in statement.now) }
{
    is_stated(statement.kind) && is_first_variable(tables, numbers)
}

// A variable in an expression has no active `$f`.
fn breaks_m15(tables: &Tables, statement: &Statement, numbers: &[Sym]) -> bool
    requires tables { AreTables tables.now }
    requires numbers { HasNumbers
        (statements_of tables.now) (map (λ n. n.0) numbers.now) (sentence_in statement.now) }
    ensures { IsTrue result ↔ Breaks M15 (statements_of tables.now) (sentence_in statement.now) }
{
    is_stated(statement.kind)
        && numbers.iter().any(|number| is_variable_number(tables, *number)
            && !is_typed_number(tables, *number))
}

// Whether the statement breaks the rule.
#[inline(always)]
fn breaks(
    rule: MeaningRule,
    tables: &Tables,
    statement: &Statement,
    numbers: &[Sym],
    repeats: bool,
) -> bool
    requires tables { AreTables tables.now }
    requires numbers { HasNumbers
        (statements_of tables.now) (map (λ n. n.0) numbers.now) (sentence_in statement.now) }
    requires told { IsTold repeats (sentence_in statement.now) }
    ensures { IsTrue result ↔ Breaks rule (statements_of tables.now) (sentence_in statement.now) }
{
    match rule {
        MeaningRule::M1 => breaks_m1(tables, statement),
        MeaningRule::M2 => breaks_m2(tables, statement, repeats),
        MeaningRule::M3 => breaks_m3(tables, statement, repeats),
        MeaningRule::M4 => breaks_m4(tables, statement),
        MeaningRule::M5 => breaks_m5(tables, statement),
        MeaningRule::M6 => breaks_m6(tables, statement),
        MeaningRule::M7 => breaks_m7(tables, statement, numbers),
        MeaningRule::M8 => breaks_m8(tables, statement, numbers),
        MeaningRule::M9 => breaks_m9(statement, repeats),
        MeaningRule::M10 => breaks_m10(tables, statement),
        MeaningRule::M11 => breaks_m11(tables, statement),
        MeaningRule::M12 => breaks_m12(tables, statement),
        MeaningRule::M13 => breaks_m13(tables, statement),
        MeaningRule::M14 => breaks_m14(tables, statement, numbers),
        MeaningRule::M15 => breaks_m15(tables, statement, numbers),
    }
}

// The rules that a `$c` may break, in the order in which they are judged.
const FOR_CONSTANTS: [MeaningRule; 5] = [
    MeaningRule::M1,
    MeaningRule::M2,
    MeaningRule::M4,
    MeaningRule::M5,
    MeaningRule::M6,
];

// The rules that a `$v` may break, in the order in which they are judged.
const FOR_VARIABLES: [MeaningRule; 4] = [
    MeaningRule::M3,
    MeaningRule::M4,
    MeaningRule::M5,
    MeaningRule::M6,
];

// The rules that a `$d` may break, in the order in which they are judged.
const FOR_DISTINCT: [MeaningRule; 5] = [
    MeaningRule::M5,
    MeaningRule::M6,
    MeaningRule::M7,
    MeaningRule::M8,
    MeaningRule::M9,
];

// The rules that a `$f` may break, in the order in which they are judged.
const FOR_FLOATING: [MeaningRule; 7] = [
    MeaningRule::M5,
    MeaningRule::M6,
    MeaningRule::M7,
    MeaningRule::M10,
    MeaningRule::M11,
    MeaningRule::M12,
    MeaningRule::M13,
];

// The rules that a `$e`, `$a` or `$p` may break, in the order in which they are judged.
const FOR_STATED: [MeaningRule; 5] = [
    MeaningRule::M5,
    MeaningRule::M6,
    MeaningRule::M7,
    MeaningRule::M14,
    MeaningRule::M15,
];

// The rules that a `${` or `$}` may break, in the order in which they are judged.
const FOR_BLOCKS: [MeaningRule; 2] = [MeaningRule::M5, MeaningRule::M6];

// Whether statements of this kind state each symbol once.
fn is_list(kind: Kind) -> bool
    ensures { IsTrue result ↔ StatesOnce kind }
{
    kind == Kind::Constants || kind == Kind::Variables || kind == Kind::Distinct
}

// The index of a text among those of some tokens.
fn index_among(tokens: &[Token], text: &[u8]) -> Option<usize>
    ensures { MatchOption
        result
        (¬ (Contains (map (λ token. token.text.now) tokens.now) text.now))
        (λ index. slice_get (map (λ token. token.text.now) tokens.now) index ≡ Some text.now) }
{
    for (index, token) in tokens.iter().enumerate() {
        if token.text == text {
            return Some(index);
        }
    }
    None
}

// Whether a symbol stands twice: each is compared with all before it.
fn has_repeats_among_few(symbols: &[Token]) -> bool
    ensures { IsTrue result
        ↔ ((symbol : List ℕ) × StandsTwice (map (λ token. token.text.now) symbols.now) symbol) }
{
    for (at, token) in symbols.iter().enumerate() {
        if index_among(&symbols[..at], token.text).is_some() {
            return true;
        }
    }
    false
}

// So many symbols are compared with each other sooner than they are put into a table.
const FEW: usize = 8;

// Whether a symbol stands twice.
fn has_repeats(alloc: Global, seed: Seed, symbols: &[Token]) -> Result<bool, AllocError>
    requires { length symbols.now < 2147483648 }
    ensures { IfOk result (λ repeats. IsTrue repeats
        ↔ ((symbol : List ℕ) × StandsTwice (map (λ token. token.text.now) symbols.now) symbol)) }
{
    if symbols.len() <= FEW {
        return Ok(has_repeats_among_few(symbols));
    }
    let mut seen = Names::new(alloc, seed);
    seen.reserve(symbols.len())?;
    for token in symbols {
        if seen.find(token.text).is_some() {
            return Ok(true);
        }
        seen.add(token.text);
    }
    Ok(false)
}

// Whether a symbol stands twice in a statement that states each symbol once.
fn repeats(alloc: Global, seed: Seed, statement: &Statement) -> Result<bool, AllocError>
    requires { vec_len statement.now.symbols < 2147483648 }
    ensures { IfOk result (λ repeats. IsTold repeats (sentence_in statement.now)) }
{
    if is_list(statement.kind) {
        has_repeats(alloc, seed, &statement.symbols)
    } else {
        Ok(false)
    }
}

// The first of the rules of the statement's kind that the statement breaks.
#[inline(always)]
fn first_among(
    rules: &[MeaningRule],
    tables: &Tables,
    statement: &Statement,
    numbers: &[Sym],
    repeats: bool,
) -> Option<MeaningRule>
    requires rules { rules.now ≡ rules_of statement.now.kind }
    requires tables { AreTables tables.now }
    requires numbers { HasNumbers
        (statements_of tables.now) (map (λ n. n.0) numbers.now) (sentence_in statement.now) }
    requires told { IsTold repeats (sentence_in statement.now) }
    ensures { MatchOption
        result
        (IsMeant (statements_of tables.now) (sentence_in statement.now))
        (λ rule. FirstBroken rule (statements_of tables.now) (sentence_in statement.now)) }
{
    for rule in rules {
        if breaks(*rule, tables, statement, numbers, repeats) {
            return Some(*rule);
        }
    }
    None
}

/// The first rule of meaning that the statement breaks after the statements before it, in the order
/// M1 to M15 (the Metamath book, sections 4.2.1 to 4.2.8), or `None` where it breaks none.
/// The numbers of the symbols that the statement uses are left in `numbers`.
pub(crate) fn first_broken(
    tables: &Tables,
    seed: Seed,
    statement: &Statement,
    guesses: &mut Guesses,
    numbers: &mut Vec<Sym>,
) -> Result<Option<MeaningRule>, AllocError>
    requires tables { AreTables tables.now }
    requires few { vec_len statement.now.symbols < 2147483648 }
    ensures first { IfOk result (λ first. MatchOption
        first
        (IsMeant (statements_of tables.now) (sentence_in statement.now))
        (λ rule. FirstBroken rule (statements_of tables.now) (sentence_in statement.now))) }
    ensures numbers { OnOk result (HasNumbers
        (statements_of tables.now) (map (λ n. n.0) numbers.new.items) (sentence_in statement.now)) }
{
    look_up(tables, guesses, statement, numbers)?;
    let repeats = repeats(tables.alloc, seed, statement)?;
    Ok(match statement.kind {
        Kind::Constants => first_among(&FOR_CONSTANTS, tables, statement, numbers, repeats),
        Kind::Variables => first_among(&FOR_VARIABLES, tables, statement, numbers, repeats),
        Kind::Distinct => first_among(&FOR_DISTINCT, tables, statement, numbers, repeats),
        Kind::Floating => first_among(&FOR_FLOATING, tables, statement, numbers, repeats),
        Kind::Essential | Kind::Axiom | Kind::Provable => {
            first_among(&FOR_STATED, tables, statement, numbers, repeats)
        }
        Kind::Opening | Kind::Closing => {
            first_among(&FOR_BLOCKS, tables, statement, numbers, repeats)
        }
    })
}
