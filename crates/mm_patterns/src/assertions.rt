//! A library: the syntax of a database, and the assertions that lemmas can be made of.

ghost use Rattle.std.specs.Prelude.{◌≤◌};

use crate::digram::Digram;
use crate::joint::Sides;
use crate::pattern::{Pattern, pattern_of};
use crate::shape::{Shape, Standing};
use mm_base::Seed;
use mm_frame::{Book, Hypothesis, LabelId, LabelKind, ShortPiece, Signature, Sym};
use mm_step::{Call, call_of};
use mm_terms::{
    Budget, Grammar, Head, Listed, Rule, Terms, Token, Variable, all_of, code_of, next_number,
    parse, tokens_of, variables_of,
};
use std::alloc::{AllocError, Global};

/// How many steps it takes at most to make a lemma of two assertions.
pub(crate) const PATTERN_STEPS: u64 = 20_000;

/// Where there are so many terms, no further assertions are parsed and no lemmas are made: proofs
/// alone get more.
pub(crate) const MOST_TERMS: usize = 1 << 23;

/// What proofs can name: a labelled statement of the database by the number of its label, or a
/// lemma behind all of these.
#[derive(Clone, Copy)]
pub struct Named {
    /// How many bytes its label has, with the space before it.
    pub bytes: u32,
    /// The number of its shape, of an assertion of which lemmas may be made.
    pub shape: Option<u32>,
}

const UNNAMED: Named = Named {
    bytes: 1,
    shape: None,
};

/// The assertions of a database, as far as they were entered.
#[derive(Drop)]
pub struct Library {
    pub alloc: Global,
    pub seed: Seed,
    /// The type code of what is provable.
    pub provable: Sym,
    pub terms: Terms,
    pub grammar: Grammar,
    pub shapes: Vec<Shape>,
    /// For each label of syntax the names of those that conclude such a term.
    concluding: Listed,
    pub named: Vec<Named>,
    /// For each label the number of the rule of syntax that it is.
    pub rules: Vec<Option<u32>>,
}

impl Library {
    /// No assertions, whose hashes begin from the seed. Statements with this type code are
    /// provable, those with others are syntax.
    pub fn new(alloc: Global, seed: Seed, provable: Sym) -> Library {
        Library {
            alloc,
            seed,
            provable,
            terms: Terms::new(alloc, seed),
            grammar: Grammar::new(alloc, seed),
            shapes: Vec::new(alloc),
            concluding: Listed::new(alloc, seed),
            named: Vec::new(alloc),
            rules: Vec::new(alloc),
        }
    }

    /// Enters a labelled statement of the book. All are entered, in the order of the database. Of
    /// an assertion no lemma is made where it isn't usable, or an expression of it is no syntax.
    ///
    /// # Errors
    ///
    /// Where a growth was refused.
    pub fn enter(
        &mut self,
        book: &Book,
        id: LabelId,
        standing: Standing,
    ) -> Result<(), AllocError> {
        self.reserve(id.0)?;
        let bytes = next_number(book.label(id).len()).saturating_add(1);
        let shape = match call_of(book, id) {
            Call::Hypothesis(_) => None,
            Call::Assertion(signature) => { self.enter_assertion(book, id, &signature, standing)? }
        };
        if let Some(named) = self.named.get_mut(id.0 as usize) {
            *named = Named { bytes, shape };
        }
        self.list(id.0)
    }

    /// What a number names.
    pub fn named(&self, number: u32) -> Named {
        self.named.get(number as usize).copied().unwrap_or(UNNAMED)
    }

    /// The shape of what a number names, if lemmas may be made of it.
    pub fn shape(&self, number: u32) -> Option<&Shape> {
        shape_of(&self.named, &self.shapes, number)
    }

    /// Names a lemma by a number behind all others, which is answered, and whose label has so many
    /// bytes with the space before it.
    pub fn name(&mut self, bytes: u32) -> Result<u32, AllocError> {
        let number = next_number(self.named.len());
        self.named.push(Named { bytes, shape: None })?;
        Ok(number)
    }

    /// The last lemma that was named isn't any more.
    pub fn unname(&mut self) {
        self.named.pop();
    }

    /// The last lemma that was named has this shape.
    pub fn keep(&mut self, shape: Shape) -> Result<(), AllocError> {
        let number = next_number(self.shapes.len());
        self.shapes.push(shape)?;
        if let Some(named) = self.named.last_mut() {
            named.shape = Some(number);
        }
        let name = next_number(self.named.len().saturating_sub(1));
        self.list(name)
    }

    /// The names of those that conclude a term with the same root, where that is syntax.
    pub fn concluding(&self, term: u32) -> &[u32] {
        match self.terms.head(term) {
            Some(Head::Syntax(label)) => self.concluding.under(label.0),
            _ => &[],
        }
    }

    /// The lemma of a digram; none where it isn't one, or isn't found in `PATTERN_STEPS` steps.
    pub fn pattern(
        &mut self,
        digram: Digram,
        budget: &mut Budget,
    ) -> Result<Option<Pattern>, AllocError>
        ensures { budget.new ≤ budget.old }
    {
        if self.terms.len() >= MOST_TERMS {
            return Ok(None);
        }
        let Some(upper) = shape_of(&self.named, &self.shapes, digram.upper) else {
            return Ok(None);
        };
        let Some(lower) = shape_of(&self.named, &self.shapes, digram.lower) else {
            return Ok(None);
        };
        let sides = Sides {
            upper,
            place: digram.place,
            lower,
        };
        let mut own = Budget::new(PATTERN_STEPS);
        let pattern = pattern_of(self.alloc, self.seed, &mut self.terms, sides, &mut own);
        budget.take(PATTERN_STEPS.saturating_sub(own.left()) as usize);
        pattern
    }

    /// The rule of syntax with a label.
    pub fn rule(&self, label: LabelId) -> Option<&Rule> {
        let number = self.rules.get(label.0 as usize).copied().flatten()?;
        self.grammar.rule(number)
    }

    // Lists what has a name under what it concludes.
    fn list(&mut self, name: u32) -> Result<(), AllocError> {
        let Some(shape) = self.shape(name) else {
            return Ok(());
        };
        if let Some(Head::Syntax(label)) = self.terms.head(shape.conclusion) {
            self.concluding.add(label.0, name)?;
        }
        Ok(())
    }

    // Makes room for a label.
    fn reserve(&mut self, label: u32) -> Result<(), AllocError> {
        for _ in self.named.len()..=label as usize {
            self.named.push(UNNAMED)?;
        }
        for _ in self.rules.len()..=label as usize {
            self.rules.push(None)?;
        }
        Ok(())
    }

    // Enters an assertion with this signature, and answers the number of its shape.
    fn enter_assertion(
        &mut self,
        book: &Book,
        id: LabelId,
        signature: &Signature,
        standing: Standing,
    ) -> Result<Option<u32>, AllocError> {
        let Some(code) = code_of(signature.conclusion) else {
            return Ok(None);
        };
        if code == self.provable {
            if !standing.is_usable {
                return Ok(None);
            }
            return self.enter_provable(signature, standing);
        }
        if book.kind(id) == LabelKind::Axiom {
            self.enter_rule(id, code, signature)?;
        }
        Ok(None)
    }

    // Enters an assertion that builds syntax, unless it has a `$e`.
    fn enter_rule(
        &mut self,
        label: LabelId,
        code: Sym,
        signature: &Signature,
    ) -> Result<(), AllocError> {
        let variables = variables_of(self.alloc, signature.hypotheses)?;
        if variables.iter().any(|variable| variable.is_none()) {
            return Ok(());
        }
        let Some(tokens) = tokens_of(self.alloc, signature.conclusion, &variables)? else {
            return Ok(());
        };
        let number = self.grammar.add(Rule {
            label,
            code,
            tokens,
            variables: variables.len(),
        })?;
        if let Some(rule) = self.rules.get_mut(label.0 as usize) {
            *rule = number;
        }
        Ok(())
    }

    // Enters an assertion that is provable, and answers the number of its shape; none where an
    // expression is no syntax.
    fn enter_provable(
        &mut self,
        signature: &Signature,
        standing: Standing,
    ) -> Result<Option<u32>, AllocError> {
        let variables = variables_of(self.alloc, signature.hypotheses)?;
        let Some(conclusion) = self.term_of(signature.conclusion, &variables)? else {
            return Ok(None);
        };
        let Some(essentials) = self.essentials_of(signature, &variables)? else {
            return Ok(None);
        };
        let shape = Shape {
            variables: type_codes(self.alloc, &variables)?,
            essentials,
            conclusion,
            pairs: pairs_of(self.alloc, signature, &variables)?,
            from: standing.block.saturating_add(1),
            mathbox: standing.mathbox,
        };
        let number = next_number(self.shapes.len());
        self.shapes.push(shape)?;
        Ok(Some(number))
    }

    // The term that a pattern is behind its type code, which is that of what is provable; else
    // none.
    fn term_of(
        &mut self,
        pieces: &[ShortPiece],
        variables: &[Option<Variable>],
    ) -> Result<Option<u32>, AllocError> {
        if code_of(pieces) != Some(self.provable) || self.terms.len() >= MOST_TERMS {
            return Ok(None);
        }
        let Some(tokens) = tokens_of(self.alloc, pieces, variables)? else {
            return Ok(None);
        };
        parse(self.alloc, &self.grammar, &mut self.terms, &tokens)
    }

    // The terms of the `$e` of a signature, where all are syntax.
    fn essentials_of(
        &mut self,
        signature: &Signature,
        variables: &[Option<Variable>],
    ) -> Result<Option<Vec<u32>>, AllocError> {
        let mut terms = Vec::new(self.alloc);
        for hypothesis in signature.hypotheses {
            if is_essential(hypothesis) {
                let term = self.term_of(signature.pattern(hypothesis), variables)?;
                terms.push(term)?;
            }
        }
        all_of(self.alloc, &terms)
    }
}

// The shape of what a number names.
fn shape_of<'s>(named: &[Named], shapes: &'s [Shape], number: u32) -> Option<&'s Shape> {
    let named = named.get(number as usize)?;
    shapes.get(named.shape? as usize)
}

// Whether a hypothesis is a `$e`.
fn is_essential(hypothesis: &Hypothesis) -> bool {
    hypothesis.typing.is_none()
}

// The type codes of variables, in order.
fn type_codes(alloc: Global, variables: &[Option<Variable>]) -> Result<Vec<Sym>, AllocError> {
    let mut codes = Vec::with_capacity(alloc, variables.len())?;
    for variable in variables {
        if let Some(variable) = variable {
            codes.push(variable.code)?;
        }
    }
    Ok(codes)
}

// The mandatory distinct pairs of a signature whose hypotheses have these variables.
fn pairs_of(
    alloc: Global,
    signature: &Signature,
    variables: &[Option<Variable>],
) -> Result<Vec<(u32, u32)>, AllocError> {
    let mut pairs = Vec::with_capacity(alloc, signature.pairs.len())?;
    for pair in signature.pairs {
        let one = variables.get(pair.indices.0 as usize).copied().flatten();
        let other = variables.get(pair.indices.1 as usize).copied().flatten();
        if let (Some(one), Some(other)) = (one, other) {
            pairs.push((one.number, other.number))?;
        }
    }
    Ok(pairs)
}

/// The tokens of a rule of syntax; none where it is none.
pub fn tokens_by(library: &Library, label: LabelId) -> &[Token] {
    match library.rule(label) {
        Some(rule) => &rule.tokens,
        None => &[],
    }
}
