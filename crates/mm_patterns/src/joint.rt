//! Two assertions joined, so that one proves a `$e` of the other: by most general unification.

ghost use Rattle.std.specs.Prelude.{◌≤◌};

use crate::shape::Shape;
use mm_base::Seed;
use mm_frame::Sym;
use mm_terms::{Budget, Replacing, Terms, Unifier, Variable, next_number};
use std::alloc::{AllocError, Global};

/// The assertion whose `$e` is proved, which of its `$e` that is, and the assertion that proves it.
#[derive(Clone, Copy)]
pub(crate) struct Sides<'s> {
    pub(crate) upper: &'s Shape,
    pub(crate) place: u32,
    pub(crate) lower: &'s Shape,
}

/// Both assertions over what their variables stand for. The variables that are left are some of
/// theirs, where those of the lower one are numbered behind those of the upper one.
#[derive(Drop)]
pub(crate) struct Joint {
    /// What the variables of the upper assertion stand for.
    pub(crate) upper_arguments: Vec<u32>,
    /// What those of the lower one stand for.
    pub(crate) lower_arguments: Vec<u32>,
    /// The `$e` of the upper one.
    pub(crate) upper_essentials: Vec<u32>,
    /// The `$e` of the lower one.
    pub(crate) lower_essentials: Vec<u32>,
    /// What the upper one concludes.
    pub(crate) conclusion: u32,
}

// An assertion with other numbers for its variables.
#[derive(Drop)]
struct Moved {
    variables: Vec<u32>,
    essentials: Vec<u32>,
    conclusion: u32,
}

// The variables with these type codes as terms, numbered from a number on.
fn variables_from(
    alloc: Global,
    terms: &mut Terms,
    codes: &[Sym],
    first: u32,
) -> Result<Vec<u32>, AllocError> {
    let mut variables = Vec::with_capacity(alloc, codes.len())?;
    for (index, code) in codes.iter().enumerate() {
        let number = first.saturating_add(next_number(index));
        variables.push(terms.variable(Variable {
            number,
            code: *code,
        })?)?;
    }
    Ok(variables)
}

// Puts terms in place of others.
fn replace_each(replacing: &mut Replacing, terms: &[u32], by: &[u32]) -> Result<(), AllocError> {
    for (term, new) in terms.iter().zip(by) {
        replacing.replace(*term, *new)?;
    }
    Ok(())
}

// The assertion with variables that are numbered from a number on.
fn moved_behind(
    alloc: Global,
    seed: Seed,
    terms: &mut Terms,
    shape: &Shape,
    first: u32,
    budget: &mut Budget,
) -> Result<Option<Moved>, AllocError>
    ensures { budget.new ≤ budget.old }
{
    let own = variables_from(alloc, terms, &shape.variables, 0)?;
    let variables = variables_from(alloc, terms, &shape.variables, first)?;
    let mut replacing = Replacing::new(alloc, seed, &[]);
    replace_each(&mut replacing, &own, &variables)?;
    let Some(essentials) = replacing.of_each(terms, &shape.essentials, budget)? else {
        return Ok(None);
    };
    let Some(conclusion) = replacing.of(terms, shape.conclusion, budget)? else {
        return Ok(None);
    };
    Ok(Some(Moved {
        variables,
        essentials,
        conclusion,
    }))
}

// Both assertions over what their variables are bound to.
fn joint_over(
    alloc: Global,
    seed: Seed,
    terms: &mut Terms,
    upper: &Shape,
    lower: &Moved,
    bound: &[Option<u32>],
    budget: &mut Budget,
) -> Result<Option<Joint>, AllocError>
    ensures { budget.new ≤ budget.old }
{
    let own = variables_from(alloc, terms, &upper.variables, 0)?;
    let mut replacing = Replacing::new(alloc, seed, bound);
    let Some(upper_arguments) = replacing.of_each(terms, &own, budget)? else {
        return Ok(None);
    };
    let Some(lower_arguments) = replacing.of_each(terms, &lower.variables, budget)? else {
        return Ok(None);
    };
    let Some(upper_essentials) = replacing.of_each(terms, &upper.essentials, budget)? else {
        return Ok(None);
    };
    let Some(lower_essentials) = replacing.of_each(terms, &lower.essentials, budget)? else {
        return Ok(None);
    };
    let Some(conclusion) = replacing.of(terms, upper.conclusion, budget)? else {
        return Ok(None);
    };
    Ok(Some(Joint {
        upper_arguments,
        lower_arguments,
        upper_essentials,
        lower_essentials,
        conclusion,
    }))
}

/// The two assertions, joined; none where the one can't prove the `$e` of the other, or the budget
/// is used up.
pub(crate) fn join(
    alloc: Global,
    seed: Seed,
    terms: &mut Terms,
    sides: Sides,
    budget: &mut Budget,
) -> Result<Option<Joint>, AllocError>
    ensures { budget.new ≤ budget.old }
{
    let upper = sides.upper;
    let first = next_number(upper.variables.len());
    let Some(lower) = moved_behind(alloc, seed, terms, sides.lower, first, budget)? else {
        return Ok(None);
    };
    let Some(wanted) = upper.essentials.get(sides.place as usize).copied() else {
        return Ok(None);
    };
    let count = upper.variables.len().saturating_add(lower.variables.len());
    let mut unifier = Unifier::new(alloc, count)?;
    if !unifier.unify(terms, wanted, lower.conclusion, budget)? {
        return Ok(None);
    }
    joint_over(alloc, seed, terms, upper, &lower, &unifier.bound, budget)
}
