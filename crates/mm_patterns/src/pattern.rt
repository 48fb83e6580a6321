//! The lemma that a joint of two assertions is: its statement, and how a proof uses it.

ghost use Rattle.std.specs.Prelude.{◌≤◌};

use crate::joint::{Joint, Sides, join};
use mm_base::Seed;
use mm_frame::Sym;
use mm_terms::{Budget, Leaves, Replacing, Terms, Variable, next_number};
use std::alloc::{AllocError, Global};

/// Lemmas with more variables aren't made.
const MOST_VARIABLES: usize = 60;

/// Lemmas with more hypotheses aren't made.
const MOST_ESSENTIALS: usize = 31;

/// Which of the two steps has a hypothesis of the lemma among its own, and the index there among
/// those that aren't syntax.
#[derive(Clone, Copy, PartialEq, Eq, Debug)]
pub struct Hole {
    pub is_of_lower: bool,
    pub place: u32,
}

/// A lemma. Its variables are numbered in the order in which they first stand in its hypotheses, in
/// its conclusion, and then in its proof.
#[derive(Drop)]
pub struct Pattern {
    /// The type codes of its variables.
    pub variables: Vec<Sym>,
    /// How many of them stand in its statement: the first ones.
    pub mandatory: usize,
    /// For each variable which one it is of the upper assertion, or behind these of the lower one.
    pub sources: Vec<u32>,
    /// Its hypotheses.
    pub essentials: Vec<u32>,
    /// Where its hypotheses stand in the two steps.
    pub holes: Vec<Hole>,
    /// What it concludes.
    pub conclusion: u32,
    /// For each `$e` of the upper assertion which hypothesis of the lemma proves it; none where the
    /// lower step does.
    pub upper_children: Vec<Option<u32>>,
    /// For each `$e` of the lower assertion which hypothesis of the lemma proves it.
    pub lower_children: Vec<u32>,
    /// What the variables of the upper assertion stand for.
    pub upper_arguments: Vec<u32>,
    /// What those of the lower one stand for.
    pub lower_arguments: Vec<u32>,
    /// The distinct pairs of its variables that its proof asks for.
    pub pairs: Vec<(u32, u32)>,
}

impl Pattern {
    // A lemma of which nothing is known yet.
    fn new(alloc: Global) -> Pattern {
        Pattern {
            variables: Vec::new(alloc),
            mandatory: 0,
            sources: Vec::new(alloc),
            essentials: Vec::new(alloc),
            holes: Vec::new(alloc),
            conclusion: 0,
            upper_children: Vec::new(alloc),
            lower_children: Vec::new(alloc),
            upper_arguments: Vec::new(alloc),
            lower_arguments: Vec::new(alloc),
            pairs: Vec::new(alloc),
        }
    }

    // The hypothesis that is a term, which gets its place where it is new.
    fn number(&mut self, term: u32, hole: Hole) -> Result<u32, AllocError> {
        for (index, essential) in self.essentials.iter().enumerate() {
            if *essential == term {
                return Ok(next_number(index));
            }
        }
        let number = next_number(self.essentials.len());
        self.essentials.push(term)?;
        self.holes.push(hole)?;
        Ok(number)
    }

    // Takes the hypotheses of the lower assertion, over the variables of a joint.
    fn take_lower(&mut self, essentials: &[u32]) -> Result<(), AllocError> {
        for (index, term) in essentials.iter().enumerate() {
            let hole = Hole {
                is_of_lower: true,
                place: next_number(index),
            };
            let number = self.number(*term, hole)?;
            self.lower_children.push(number)?;
        }
        Ok(())
    }

    // Takes all hypotheses, each once, in the order of the proof.
    fn take(&mut self, joint: &Joint, place: u32) -> Result<(), AllocError> {
        for (index, term) in joint.upper_essentials.iter().enumerate() {
            let index = next_number(index);
            if index == place {
                self.take_lower(&joint.lower_essentials)?;
                self.upper_children.push(None)?;
            } else {
                let hole = Hole {
                    is_of_lower: false,
                    place: index,
                };
                let number = self.number(*term, hole)?;
                self.upper_children.push(Some(number))?;
            }
        }
        Ok(())
    }
}

// The terms of some variables with numbers from 0 on in place of them.
fn numbered_anew(
    replacing: &mut Replacing,
    terms: &mut Terms,
    variables: &[u32],
) -> Result<(), AllocError> {
    for (index, term) in variables.iter().enumerate() {
        if let Some(variable) = terms.as_variable(*term) {
            let number = next_number(index);
            let new = terms.variable(Variable {
                number,
                code: variable.code,
            })?;
            replacing.replace(*term, new)?;
        }
    }
    Ok(())
}

// Notes that each of these variables and each of the others are a distinct pair; answers whether
// none is its own partner.
fn note_pairs(
    terms: &Terms,
    ones: &[u32],
    others: &[u32],
    pairs: &mut Vec<(u32, u32)>,
) -> Result<bool, AllocError> {
    for one in ones {
        if !note_pairs_of(terms, *one, others, pairs)? {
            return Ok(false);
        }
    }
    Ok(true)
}

// The same of one variable.
fn note_pairs_of(
    terms: &Terms,
    one: u32,
    others: &[u32],
    pairs: &mut Vec<(u32, u32)>,
) -> Result<bool, AllocError> {
    for other in others {
        if one == *other {
            return Ok(false);
        }
        if let (Some(x), Some(y)) = (terms.as_variable(one), terms.as_variable(*other)) {
            pairs.push((x.number.min(y.number), x.number.max(y.number)))?;
        }
    }
    Ok(true)
}

// The variables of a term.
fn variables_in(
    alloc: Global,
    seed: Seed,
    terms: &Terms,
    term: Option<u32>,
    budget: &mut Budget,
) -> Result<Vec<u32>, AllocError>
    ensures { budget.new ≤ budget.old }
{
    let mut leaves = Leaves::new(alloc, seed);
    if let Some(term) = term {
        leaves.add(terms, term, budget)?;
    }
    Ok(leaves.variables)
}

// Notes the pairs that a step asks for, by the mandatory pairs of its assertion and what its
// variables stand for; answers whether a step may be so.
fn take_pairs(
    alloc: Global,
    seed: Seed,
    terms: &Terms,
    asked: &[(u32, u32)],
    arguments: &[u32],
    pairs: &mut Vec<(u32, u32)>,
    budget: &mut Budget,
) -> Result<bool, AllocError>
    ensures { budget.new ≤ budget.old }
{
    for pair in asked {
        let one = arguments.get(pair.0 as usize).copied();
        let other = arguments.get(pair.1 as usize).copied();
        let ones = variables_in(alloc, seed, terms, one, budget)?;
        let others = variables_in(alloc, seed, terms, other, budget)?;
        if !note_pairs(terms, &ones, &others, pairs)? {
            return Ok(false);
        }
    }
    Ok(true)
}

// Fills the distinct pairs of a lemma, and answers whether its steps may be so.
fn fill_pairs(
    alloc: Global,
    seed: Seed,
    terms: &Terms,
    sides: Sides,
    pattern: &mut Pattern,
    budget: &mut Budget,
) -> Result<bool, AllocError>
    ensures { budget.new ≤ budget.old }
{
    let mut pairs = Vec::new(alloc);
    let upper = &sides.upper.pairs;
    let may_be = take_pairs(
        alloc,
        seed,
        terms,
        upper,
        &pattern.upper_arguments,
        &mut pairs,
        budget,
    )?;
    let lower = &sides.lower.pairs;
    let may_be = may_be
        && take_pairs(
            alloc,
            seed,
            terms,
            lower,
            &pattern.lower_arguments,
            &mut pairs,
            budget,
        )?;
    pairs.sort_unstable();
    pairs.dedup();
    pattern.pairs = pairs;
    Ok(may_be)
}

// The terms of a lemma over its own variables.
#[derive(Drop)]
struct OwnTerms {
    essentials: Vec<u32>,
    conclusion: u32,
    upper_arguments: Vec<u32>,
    lower_arguments: Vec<u32>,
}

// The variables of a joint as terms, in the order of a lemma with these hypotheses, and how many
// stand in its statement.
fn variables_of(
    alloc: Global,
    seed: Seed,
    terms: &Terms,
    joint: &Joint,
    essentials: &[u32],
    budget: &mut Budget,
) -> Result<(Vec<u32>, usize), AllocError>
    ensures { budget.new ≤ budget.old }
{
    let mut leaves = Leaves::new(alloc, seed);
    leaves.add_each(terms, essentials, budget)?;
    leaves.add(terms, joint.conclusion, budget)?;
    let mandatory = leaves.variables.len();
    leaves.add_each(terms, &joint.upper_arguments, budget)?;
    leaves.add_each(terms, &joint.lower_arguments, budget)?;
    Ok((leaves.variables, mandatory))
}

// The terms of a joint with these variables numbered anew.
fn own_terms(
    alloc: Global,
    seed: Seed,
    terms: &mut Terms,
    joint: &Joint,
    essentials: &[u32],
    variables: &[u32],
    budget: &mut Budget,
) -> Result<Option<OwnTerms>, AllocError>
    ensures { budget.new ≤ budget.old }
{
    let mut replacing = Replacing::new(alloc, seed, &[]);
    numbered_anew(&mut replacing, terms, variables)?;
    let Some(conclusion) = replacing.of(terms, joint.conclusion, budget)? else {
        return Ok(None);
    };
    let Some(essentials) = replacing.of_each(terms, essentials, budget)? else {
        return Ok(None);
    };
    let Some(upper_arguments) = replacing.of_each(terms, &joint.upper_arguments, budget)? else {
        return Ok(None);
    };
    let Some(lower_arguments) = replacing.of_each(terms, &joint.lower_arguments, budget)? else {
        return Ok(None);
    };
    Ok(Some(OwnTerms {
        essentials,
        conclusion,
        upper_arguments,
        lower_arguments,
    }))
}

impl Pattern {
    // Makes the lemma of a joint of two assertions, and answers whether it is one.
    fn make(
        &mut self,
        alloc: Global,
        seed: Seed,
        terms: &mut Terms,
        sides: Sides,
        joint: &Joint,
        budget: &mut Budget,
    ) -> Result<bool, AllocError>
        ensures { budget.new ≤ budget.old }
    {
        self.take(joint, sides.place)?;
        if self.essentials.contains(&joint.conclusion) {
            return Ok(false);
        }
        if !self.fill(alloc, seed, terms, joint, budget)? || !self.is_small() {
            return Ok(false);
        }
        let may_be = fill_pairs(alloc, seed, terms, sides, self, budget)?;
        Ok(may_be && !budget.is_used_up())
    }

    // Fills all but the distinct pairs, where the hypotheses are those of the joint; answers
    // whether the budget was enough.
    fn fill(
        &mut self,
        alloc: Global,
        seed: Seed,
        terms: &mut Terms,
        joint: &Joint,
        budget: &mut Budget,
    ) -> Result<bool, AllocError>
        ensures { budget.new ≤ budget.old }
    {
        let (list, mandatory) = variables_of(alloc, seed, terms, joint, &self.essentials, budget)?;
        self.mandatory = mandatory;
        let is_filled = self.fill_over(alloc, seed, terms, joint, &list, budget);
        drop(list);
        is_filled
    }

    // The same, over these variables.
    fn fill_over(
        &mut self,
        alloc: Global,
        seed: Seed,
        terms: &mut Terms,
        joint: &Joint,
        list: &[u32],
        budget: &mut Budget,
    ) -> Result<bool, AllocError>
        ensures { budget.new ≤ budget.old }
    {
        let own = own_terms(alloc, seed, terms, joint, &self.essentials, list, budget)?;
        let Some(own) = own else {
            return Ok(false);
        };
        self.take_terms(own);
        self.take_variables(terms, list)?;
        Ok(true)
    }

    // Takes the terms.
    fn take_terms(&mut self, own: OwnTerms) {
        self.essentials = own.essentials;
        self.conclusion = own.conclusion;
        self.upper_arguments = own.upper_arguments;
        self.lower_arguments = own.lower_arguments;
    }

    // Takes the type codes of the variables, and their numbers in the joint.
    fn take_variables(&mut self, terms: &Terms, list: &[u32]) -> Result<(), AllocError> {
        for term in list {
            if let Some(variable) = terms.as_variable(*term) {
                self.variables.push(variable.code)?;
                self.sources.push(variable.number)?;
            }
        }
        Ok(())
    }

    // Whether the lemma is small enough that it is made.
    fn is_small(&self) -> bool {
        self.variables.len() <= MOST_VARIABLES && self.essentials.len() <= MOST_ESSENTIALS
    }
}

// The lemma that a joint of two assertions is; none as below.
fn pattern_from(
    alloc: Global,
    seed: Seed,
    terms: &mut Terms,
    sides: Sides,
    joint: &Joint,
    budget: &mut Budget,
) -> Result<Option<Pattern>, AllocError>
    ensures { budget.new ≤ budget.old }
{
    let mut pattern = Pattern::new(alloc);
    match pattern.make(alloc, seed, terms, sides, joint, budget) {
        Ok(true) => Ok(Some(pattern)),
        Ok(false) => {
            drop(pattern);
            Ok(None)
        }
        Err(error) => {
            drop(pattern);
            Err(error)
        }
    }
}

/// The lemma of two assertions; none where the one can't prove the `$e` of the other, where the
/// lemma would conclude one of its hypotheses, break a `$d` or be too large, or where the budget is
/// used up.
pub(crate) fn pattern_of(
    alloc: Global,
    seed: Seed,
    terms: &mut Terms,
    sides: Sides,
    budget: &mut Budget,
) -> Result<Option<Pattern>, AllocError>
    ensures { budget.new ≤ budget.old }
{
    let Some(joint) = join(alloc, seed, terms, sides, budget)? else {
        return Ok(None);
    };
    let pattern = pattern_from(alloc, seed, terms, sides, &joint, budget);
    drop(joint);
    pattern
}
