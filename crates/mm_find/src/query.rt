//! Which assertions are asked for.

ghost use Rattle.std.specs.Prelude.{◌≡◌, ◌↔◌, IfOk, IsTrue, false};
ghost use Rattle.std.specs.List.{AllByRecursion};
ghost use Rattle.mm_code.specs.Layout.{texts};
ghost use Rattle.mm_find.specs.Found.{HasPattern, IsAskedFor, IsMet, SomeExpression};
ghost use Rattle.mm_find.specs.Mirror.Types.{type_in};
ghost use Rattle.mm_find.specs.Shape.{shape_of as shape_of_tokens};
ghost use Rattle.mm_find.specs.Plain.{expressions_in, plain_assertion, plain_query};

use crate::assertion::Assertion;
use crate::shape::{ANY, has_shape};
use crate::types::Types;
use crate::variant::has_variant;
use std::alloc::{AllocError, Global};

/// What an expression must have of a pattern.
#[derive(Clone, Copy, PartialEq, Eq, Debug)]
pub enum Matching {
    /// Its shape. Of the tokens `$?` stands for one symbol, `$*` for any number of them, none too,
    /// and another token for itself. A shape is that of a whole expression, with its type code or
    /// without.
    Shapes,
    /// A variant of it: `$?` stands for one symbol, and each variable for a variable of its type, one
    /// for one. If `whole`, it is one of a whole expression, with its type code or without, else of
    /// some symbols in a row.
    Variants { whole: bool },
}

/// What is asked for: assertions with each of these patterns.
#[derive(Drop)]
pub struct Query<'q> {
    /// Of each pattern its tokens.
    pub patterns: Vec<Vec<&'q [u8]>>,
    pub matching: Matching,
    /// Whether an essential hypothesis may have the pattern, in place of the assertion.
    pub hypotheses: bool,
}

/// The tokens of a pattern, as a shape of its own.
fn copied<'q>(alloc: Global, tokens: &[&'q [u8]]) -> Result<Vec<&'q [u8]>, AllocError>
    ensures { IfOk result (λ shape. texts shape.items ≡ texts tokens.now) }
{
    let mut shape = Vec::new(alloc);
    shape.extend_from_slice(tokens)?;
    Ok(shape)
}

/// The tokens of a pattern, before and behind which anything may stand.
fn anywhere<'q>(alloc: Global, tokens: &[&'q [u8]]) -> Result<Vec<&'q [u8]>, AllocError>
    ensures { IfOk result (λ shape. texts shape.items
        ≡ shape_of_tokens false (texts tokens.now)) }
{
    let mut shape = Vec::new(alloc);
    shape.push(ANY)?;
    shape.extend_from_slice(tokens)?;
    shape.push(ANY)?;
    Ok(shape)
}

/// The shape that a pattern of these tokens asks for: of a whole expression, or of any symbols in a
/// row.
pub fn shape_of<'q>(
    alloc: Global,
    whole: bool,
    tokens: &[&'q [u8]],
) -> Result<Vec<&'q [u8]>, AllocError>
    ensures { IfOk result (λ shape. texts shape.items
        ≡ shape_of_tokens whole (texts tokens.now)) }
{
    if whole {
        copied(alloc, tokens)
    } else {
        anywhere(alloc, tokens)
    }
}

/// Whether an expression has a pattern.
fn has_pattern(
    alloc: Global,
    matching: Matching,
    types: &Types,
    pattern: &[&[u8]],
    expression: &[&[u8]],
) -> Result<bool, AllocError>
    ensures { IfOk result (λ has. IsTrue has ↔ HasPattern matching (type_in types.now)
        (texts pattern.now) (texts expression.now)) }
{
    match matching {
        Matching::Shapes => has_shape(alloc, pattern, expression),
        Matching::Variants { whole } => Ok(has_variant(types, whole, pattern, expression)),
    }
}

/// Whether one of these expressions has a pattern.
fn one_has_pattern(
    alloc: Global,
    matching: Matching,
    types: &Types,
    pattern: &[&[u8]],
    expressions: &[Vec<&[u8]>],
) -> Result<bool, AllocError>
    ensures { IfOk result (λ one. IsTrue one
        ↔ SomeExpression (HasPattern matching (type_in types.now) (texts pattern.now))
        (expressions_in expressions.now)) }
{
    for expression in expressions {
        let met = has_pattern(alloc, matching, types, pattern, expression)?;
        if met {
            return Ok(true);
        }
    }
    Ok(false)
}

/// Whether one of the expressions that the query looks into has a pattern.
fn is_met(
    alloc: Global,
    query: &Query,
    types: &Types,
    pattern: &[&[u8]],
    assertion: &Assertion,
) -> Result<bool, AllocError>
    ensures { IfOk result (λ met. IsTrue met ↔ IsMet (plain_query query.now) (type_in types.now)
        (plain_assertion assertion.now) (texts pattern.now)) }
{
    let matching = query.matching;
    let met = has_pattern(alloc, matching, types, pattern, &assertion.expression)?;
    if met {
        return Ok(true);
    }
    if query.hypotheses {
        return one_has_pattern(alloc, matching, types, pattern, &assertion.hypotheses);
    }
    Ok(false)
}

/// Whether each of these patterns is met, as the query asks.
fn are_met(
    alloc: Global,
    query: &Query,
    types: &Types,
    patterns: &[Vec<&[u8]>],
    assertion: &Assertion,
) -> Result<bool, AllocError>
    ensures { IfOk result (λ met. IsTrue met
        ↔ AllByRecursion (IsMet (plain_query query.now) (type_in types.now)
        (plain_assertion assertion.now)) (expressions_in patterns.now)) }
{
    for pattern in patterns {
        let met = is_met(alloc, query, types, pattern, assertion)?;
        if !met {
            return Ok(false);
        }
    }
    Ok(true)
}

/// Whether an assertion is asked for.
pub(crate) fn is_asked_for(
    alloc: Global,
    query: &Query,
    types: &Types,
    assertion: &Assertion,
) -> Result<bool, AllocError>
    ensures { IfOk result (λ asked. IsTrue asked ↔ IsAskedFor (plain_query query.now)
        (type_in types.now) (plain_assertion assertion.now)) }
{
    are_met(alloc, query, types, &query.patterns, assertion)
}
