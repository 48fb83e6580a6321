//! The syntax that a proof builds, and where it stands in an expression.

ghost use Rattle.std.specs.Prelude.{◌≤◌};

use crate::budget::Budget;
use crate::graph::Graph;
use crate::room::has_room;
use crate::step_table::ROOT;
use crate::trie::{NOTHING, Trie, next_number};
use mm_base::Seed;
use mm_frame::Sym;
use std::alloc::{AllocError, Global};

/// Syntax: a conclusion without its type code.
#[derive(Clone, Copy)]
struct Built {
    code: Sym,
    conclusion: u32,
    /// The index of the next that ends at the same node; `NOTHING` where it is the last.
    next: u32,
}

/// Syntax that stands somewhere in an expression.
#[derive(Clone, Copy)]
pub(crate) struct Span {
    /// Its type code.
    pub(crate) code: Sym,
    /// The place behind it.
    pub(crate) end: usize,
    /// The node of the conclusion which says that it is syntax.
    pub(crate) conclusion: u32,
}

/// The syntax that a proof builds: its conclusions whose type codes aren't that of what it proves,
/// in a trie of what follows the type code.
#[derive(Drop)]
pub(crate) struct Syntax {
    /// Each node notes the index of the first syntax that ends there.
    trie: Trie,
    built: Vec<Built>,
}

/// The syntax in an expression, by where it begins.
#[derive(Drop)]
pub(crate) struct Spans {
    spans: Vec<Span>,
    /// For each place, how many spans begin before it.
    starts: Vec<usize>,
}

impl Spans {
    /// Those of no expression. It takes no memory.
    pub(crate) fn new(alloc: Global) -> Spans {
        Spans {
            spans: Vec::new(alloc),
            starts: Vec::new(alloc),
        }
    }

    /// Those that begin at a place, shorter ones first.
    pub(crate) fn at(&self, place: usize) -> &[Span] {
        let Some(start) = self.starts.get(place).copied() else {
            return &[];
        };
        let end = match self.starts.get(place.wrapping_add(1)) {
            Some(end) => *end,
            None => self.spans.len(),
        };
        if start <= end && end <= self.spans.len() {
            &self.spans[start..end]
        } else {
            &[]
        }
    }
}

impl Syntax {
    /// The syntax that a proof of a statement with this type code builds.
    pub(crate) fn of_graph(
        alloc: Global,
        seed: Seed,
        graph: &Graph,
        code: Sym,
        budget: &mut Budget,
    ) -> Result<Syntax, AllocError>
        ensures { budget.new ≤ budget.old }
    {
        let mut syntax = Syntax {
            trie: Trie::new(alloc, seed),
            built: Vec::new(alloc),
        };
        syntax.trie.add_node()?;
        for conclusion in 0..graph.expressions.len() {
            let conclusion = next_number(conclusion);
            if graph.is_known(conclusion) {
                syntax.enter(graph.expressions.get(conclusion), code, conclusion, budget)?;
            }
        }
        Ok(syntax)
    }

    /// Makes the spans those of the syntax in an expression behind its type code.
    pub(crate) fn put_spans(
        &self,
        expression: &[Sym],
        spans: &mut Spans,
        budget: &mut Budget,
    ) -> Result<(), AllocError>
        ensures { budget.new ≤ budget.old }
    {
        spans.spans.clear();
        spans.starts.clear();
        for start in 0..expression.len() {
            spans.starts.push(spans.spans.len())?;
            if start > 0 {
                self.add_spans(expression, start, &mut spans.spans, budget)?;
            }
        }
        Ok(())
    }

    // Enters a conclusion, unless it has the type code of what is proved, nothing is left of the
    // budget, or there is no room for more.
    fn enter(
        &mut self,
        expression: &[Sym],
        proved: Sym,
        conclusion: u32,
        budget: &mut Budget,
    ) -> Result<(), AllocError>
        ensures { budget.new ≤ budget.old }
    {
        let [code, symbols @ ..] = expression else {
            return Ok(());
        };
        if *code == proved || symbols.is_empty() || budget.is_used_up() {
            return Ok(());
        }
        if !has_room(self.trie.len().saturating_add(symbols.len())) {
            return Ok(());
        }
        budget.take(symbols.len());
        let mut node = ROOT;
        for symbol in symbols {
            node = self.trie.enter(node, *symbol)?;
        }
        self.end_at(node, *code, conclusion)
    }

    // Adds the syntax of a conclusion behind what ends at the same node.
    fn end_at(&mut self, node: u32, code: Sym, conclusion: u32) -> Result<(), AllocError> {
        let index = next_number(self.built.len());
        let last = self.last_at(node);
        self.built.push(Built {
            code,
            conclusion,
            next: NOTHING,
        })?;
        match self.built.get_mut(last as usize) {
            Some(built) if last != index => built.next = index,
            _ => self.trie.set_note(node, index),
        }
        Ok(())
    }

    // The index of the last syntax that ends at a node.
    fn last_at(&self, node: u32) -> u32 {
        let mut last = self.trie.note(node);
        for _ in 0..self.built.len() {
            match self.built.get(last as usize) {
                Some(built) if built.next != NOTHING => last = built.next,
                _ => break,
            }
        }
        last
    }

    // Adds the syntax that begins at a place of an expression.
    fn add_spans(
        &self,
        expression: &[Sym],
        start: usize,
        spans: &mut Vec<Span>,
        budget: &mut Budget,
    ) -> Result<(), AllocError>
        ensures { budget.new ≤ budget.old }
    {
        let mut node = ROOT;
        for place in start..expression.len() {
            if !budget.take(1) || !has_room(spans.len()) {
                return Ok(());
            }
            match self.trie.follow(node, expression[place]) {
                Some(to) => node = to,
                None => return Ok(()),
            }
            self.add_ends(node, place + 1, spans)?;
        }
        Ok(())
    }

    // Adds the syntax that ends at a node of the trie, and at a place.
    fn add_ends(&self, node: u32, end: usize, spans: &mut Vec<Span>) -> Result<(), AllocError> {
        let mut next = self.trie.note(node);
        for _ in 0..self.built.len() {
            let Some(built) = self.built.get(next as usize) else {
                break;
            };
            spans.push(Span {
                code: built.code,
                end,
                conclusion: built.conclusion,
            })?;
            next = built.next;
        }
        Ok(())
    }
}
