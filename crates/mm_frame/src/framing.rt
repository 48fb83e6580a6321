//! The frame of an assertion, from the lists as they are before it.

ghost use Rattle.std.specs.Prelude.{◌≡◌, ℕ, ◌+◌, ◌++◌, ◌∷◌, List, Some, length, map, take};
ghost use Rattle.std.specs.Prelude.{slice_get, OnOk};
ghost use Rattle.std.specs.Option.{option_and_then};
ghost use Rattle.mm_frame.specs.Sentence.{Sentence, IsStated};
ghost use Rattle.mm_frame.specs.Rules.{IsMeant};
ghost use Rattle.mm_frame.specs.Numbers.{AreNumbers};
ghost use Rattle.mm_frame.specs.FrameIndex.{ArePairs};
ghost use Rattle.mm_frame.specs.declared.number.Sym.{Sym};
ghost use Rattle.mm_frame.specs.Mirror.Layout.{AreTables, statements_of};
ghost use Rattle.mm_frame.specs.Mirror.Gathered.{floating_of, floatings, AreGathered, AreIndices};
ghost use Rattle.mm_frame.specs.Mirror.Gathered.{AreVariables, AreFound, AreThoseAt};

use crate::distinct::DistinctPair;
use crate::hypothesis::Hypothesis;
use crate::lists::at;
use crate::noted::NotedIndices;
use crate::number::{LabelId, Sym};
use crate::part::NO_PART;
use crate::tables::Tables;
use std::alloc::{AllocError, Global};

/// The lists of which the frame of an assertion is made. Their room is used again for each
/// assertion, and nothing of what they held before is told of the next.
#[derive(Drop)]
pub(crate) struct FrameLists {
    /// The indices of the mandatory hypotheses, and the hypotheses that stand there.
    pub(crate) indices: Vec<usize>,
    pub(crate) hypotheses: Vec<Hypothesis>,
    /// Where the `$f` of each variable stands among them.
    pub(crate) noted: NotedIndices,
    /// The variables of those that are `$f`.
    pub(crate) variables: Vec<Sym>,
    /// The mandatory distinct pairs, and the same with the indices of their variables.
    pub(crate) pairs: Vec<(Sym, Sym)>,
    pub(crate) indexed: Vec<DistinctPair>,
}

impl FrameLists {
    /// Empty lists. They take no memory.
    pub(crate) fn new(alloc: Global) -> FrameLists {
        FrameLists {
            indices: Vec::new(alloc),
            hypotheses: Vec::new(alloc),
            noted: NotedIndices::new(alloc),
            variables: Vec::new(alloc),
            pairs: Vec::new(alloc),
            indexed: Vec::new(alloc),
        }
    }
}

// The index of the latest `$f` of a symbol, if it has one.
fn floating(tables: &Tables, symbol: Sym) -> Option<u32>
    ensures { result ≡ floating_of tables.now.infos.items symbol }
{
    match tables.info(symbol) {
        Some(info) => info.floating,
        None => None,
    }
}

// Notes the indices of the `$f` of the variables in an expression.
fn add_floating(
    tables: &Tables,
    expression: &[Sym],
    indices: &mut Vec<usize>,
) -> Result<(), AllocError>
    ensures { OnOk result
        (indices.new.items ≡ indices.old.items ++ floatings tables.now.infos.items expression.now) }
{
    for symbol in expression {
        match floating(tables, *symbol) {
            Some(index) => indices.push(index as usize)?,
            None => {}
        }
    }
    Ok(())
}

// Finds the indices of the mandatory hypotheses, in no order and with repetitions.
fn find_unsorted(
    tables: &Tables,
    expression: &[Sym],
    indices: &mut Vec<usize>,
) -> Result<(), AllocError>
    requires { AreTables tables.now }
    ensures { (s : Sentence)
        → AreNumbers (statements_of tables.now) (map (λ n. n.0) expression.now) s.symbols
        → OnOk result (AreGathered
        (statements_of tables.now) tables.now.essentials.items s indices.new.items) }
{
    indices.clear();
    add_floating(tables, expression, indices)?;
    for index in &tables.essentials {
        indices.push(*index)?;
        add_floating(tables, tables.symbols_at(*index), indices)?;
    }
    Ok(())
}

/// Finds the indices of the mandatory hypotheses of an assertion, in order.
pub(crate) fn find_mandatory(
    tables: &Tables,
    expression: &[Sym],
    indices: &mut Vec<usize>,
) -> Result<(), AllocError>
    requires { AreTables tables.now }
    ensures { (s : Sentence) → IsMeant (statements_of tables.now) s → IsStated s.kind
        → AreNumbers (statements_of tables.now) (map (λ n. n.0) expression.now) s.symbols
        → OnOk result (AreIndices (statements_of tables.now) s indices.new.items) }
{
    find_unsorted(tables, expression, indices)?;
    indices.sort_unstable();
    indices.dedup();
    Ok(())
}

// The number of the label of the statement at an index, if it has one.
fn label_at(tables: &Tables, index: usize) -> Option<LabelId>
    ensures { result ≡ option_and_then (λ e. e.label) (slice_get tables.now.log.items index) }
{
    match at(&tables.log, index) {
        Some(entry) => entry.label,
        None => None,
    }
}

/// Finds the mandatory hypotheses that stand at some indices.
pub(crate) fn find_hypotheses(
    tables: &Tables,
    indices: &[usize],
    hypotheses: &mut Vec<Hypothesis>,
) -> Result<(), AllocError>
    requires { AreTables tables.now }
    ensures { (s : Sentence) → AreIndices (statements_of tables.now) s indices.now
        → OnOk result (AreThoseAt (statements_of tables.now) indices.now hypotheses.new.items) }
{
    hypotheses.clear();
    for index in indices {
        match label_at(tables, *index) {
            Some(id) => hypotheses.push(Hypothesis {
                id,
                typing: tables.typing(*index),
                pattern: NO_PART,
            })?,
            None => {}
        }
    }
    Ok(())
}

// Finds the variables of the `$f` at some indices, and nothing of a `$e`.
fn find_variables(
    tables: &Tables,
    indices: &[usize],
    variables: &mut Vec<Sym>,
) -> Result<(), AllocError>
    requires { AreTables tables.now }
    ensures { (s : Sentence) → AreIndices (statements_of tables.now) s indices.now
        → OnOk result (AreVariables (statements_of tables.now) indices.now variables.new.items) }
{
    variables.clear();
    for index in indices {
        match tables.floating_variable(*index) {
            Some(variable) => variables.push(variable)?,
            None => {}
        }
    }
    Ok(())
}

// The distinct pairs of one variable with some others.
#[tactic(auto, using(crate::proofs::Frames::MandatoryPairs::pair_steps))]
fn add_pairs(
    tables: &Tables,
    variable: Sym,
    others: &[Sym],
    pairs: &mut Vec<(Sym, Sym)>,
) -> Result<(), AllocError>
    requires { AreTables tables.now }
    ensures { (indices : List ℕ) (variables : List Sym)
        → AreVariables (statements_of tables.now) indices variables
        → others.now ≡ take (length others.now) variables
        → slice_get variables (length others.now) ≡ Some variable
        → AreFound (statements_of tables.now) variables (length others.now) 0 pairs.old.items
        → OnOk result (AreFound
        (statements_of tables.now) variables (length others.now + 1) 0 pairs.new.items) }
{
    for other in others {
        if tables.is_distinct(*other, variable, tables.log.len()) {
            pairs.push((*other, variable))?;
        }
    }
    Ok(())
}

/// The mandatory distinct pairs of an assertion whose mandatory hypotheses stand at these indices.
/// The variables of the hypotheses are left in `variables`.
pub(crate) fn find_pairs(
    tables: &Tables,
    indices: &[usize],
    variables: &mut Vec<Sym>,
    pairs: &mut Vec<(Sym, Sym)>,
) -> Result<(), AllocError>
    requires { AreTables tables.now }
    ensures { (s : Sentence) (more : List Sentence) → IsMeant (statements_of tables.now) s
        → IsStated s.kind → AreIndices (statements_of tables.now) s indices.now
        → OnOk result (ArePairs
        (record {
          statements = statements_of tables.now ++ s ∷ more;
          index = length (statements_of tables.now);
        })
        (map (λ pair. (pair.0.0, pair.1.0)) pairs.new.items)) }
{
    find_variables(tables, indices, variables)?;
    pairs.clear();
    for i in 0..variables.len() {
        add_pairs(tables, variables[i], &variables[..i], pairs)?;
    }
    Ok(())
}
