//! The proof that a choice is, fully shared: its labels and its codes, and their text.

ghost use Rattle.std.specs.Prelude.{All, IfOk, OnOk};
ghost use Rattle.mm_code.specs.Letters.{HasSpelling};

use crate::chosen::Chosen;
use crate::lists::{end_of, is_noted, note, unnoted};
use indexmap::IndexSet;
use mm_base::Seed;
use mm_code::{Code, lay_out_compressed, write_codes};
use mm_frame::{Book, Hypothesis, LabelId};
use std::alloc::{AllocError, Global};

// A node on the way down, and the index of the child that comes next.
#[derive(Clone, Copy)]
struct Visit {
    node: u32,
    child: usize,
}

// A step of the proof.
#[derive(Clone, Copy)]
enum Step {
    /// The node is proved by its label, over the steps before.
    Make(u32),
    /// The node, which has children, was proved before.
    Repeat(u32),
}

// How many looks an outline takes: one at each node and at each child of its edge.
fn looks(chosen: &Chosen) -> u64 {
    let mut looks = chosen.edges.len() as u64;
    for node in 0..end_of(chosen.edges.len()) {
        let children = chosen.children(node).len() as u64;
        looks = looks.saturating_add(children);
    }
    looks.saturating_add(1)
}

// The steps that prove the root, children first; each node is proved once.
fn steps_of(alloc: Global, chosen: &Chosen, root: u32) -> Result<Vec<Step>, AllocError> {
    let mut steps = Vec::new(alloc);
    let mut made = unnoted(alloc, chosen.edges.len())?;
    let mut path = Vec::new(alloc);
    path.push(Visit {
        node: root,
        child: 0,
    })?;
    for _ in 0..looks(chosen) {
        let Some(visit) = path.last_mut() else {
            break;
        };
        match chosen.children(visit.node).get(visit.child) {
            Some(child) => {
                visit.child = visit.child.saturating_add(1);
                let node = *child;
                if note(&mut made, node) {
                    path.push(Visit { node, child: 0 })?;
                } else {
                    steps.push(again(chosen, node))?;
                }
            }
            None => {
                steps.push(Step::Make(visit.node))?;
                path.pop();
            }
        }
    }
    Ok(steps)
}

// The step that puts a node there again: by its label, if it has no children.
fn again(chosen: &Chosen, node: u32) -> Step {
    if chosen.children(node).is_empty() {
        Step::Make(node)
    } else {
        Step::Repeat(node)
    }
}

// For each node, whether a step repeats it.
fn repeated_nodes(alloc: Global, count: usize, steps: &[Step]) -> Result<Vec<bool>, AllocError> {
    let mut repeated = unnoted(alloc, count)?;
    for step in steps {
        match step {
            Step::Make(_) => {}
            Step::Repeat(node) => {
                note(&mut repeated, *node);
            }
        }
    }
    Ok(repeated)
}

// The label of a node's edge, or of the hypothesis that it is.
fn label_of(chosen: &Chosen, node: u32) -> Option<u32> {
    match chosen.edge(node) {
        Some(edge) => Some(edge.label),
        None => chosen.graph.hypothesis_of(node),
    }
}

// Labels, each once: those of the mandatory hypotheses, and then by first use.
fn labels_of(
    alloc: Global,
    seed: Seed,
    chosen: &Chosen,
    hypotheses: &[Hypothesis],
    steps: &[Step],
) -> Result<IndexSet<u32, Seed>, AllocError> {
    let mut labels = IndexSet::with_hasher(alloc, seed);
    for hypothesis in hypotheses {
        labels.insert(hypothesis.id.0)?;
    }
    for step in steps {
        match step {
            Step::Make(node) => {
                if let Some(label) = label_of(chosen, *node) {
                    labels.insert(label)?;
                }
            }
            Step::Repeat(_) => {}
        }
    }
    Ok(labels)
}

// The code of the number that is one more than the index.
fn code_of(index: usize) -> Code
    ensures { HasSpelling result }
{
    match u32::try_from(index) {
        Ok(number) => Code::Number(number.saturating_add(1)),
        Err(_) => Code::Number(u32::MAX),
    }
}

// Appends a code that can be written in letters to others.
fn push_code(codes: &mut Vec<Code>, code: Code) -> Result<(), AllocError>
    requires { HasSpelling code }
    ensures { OnOk result (All HasSpelling codes.old.items → All HasSpelling codes.new.items) }
{
    codes.push(code)?;
    Ok(())
}

// The numbers of tags: for each node that is kept its index among labels and kept ones.
#[derive(Drop)]
struct Tags {
    indices: Vec<usize>,
    next: usize,
}

impl Tags {
    // Keeps a node.
    fn keep(&mut self, node: u32) {
        if let Some(index) = self.indices.get_mut(node as usize) {
            *index = self.next;
        }
        self.next = self.next.saturating_add(1);
    }

    // The index of a node that is kept.
    fn index(&self, node: u32) -> usize {
        self.indices.get(node as usize).copied().unwrap_or(0)
    }
}

// Appends the codes of a step that makes a node to those before it.
fn make(
    codes: &mut Vec<Code>,
    tags: &mut Tags,
    index: usize,
    node: u32,
    is_repeated: bool,
) -> Result<(), AllocError>
    ensures { OnOk result (All HasSpelling codes.old.items → All HasSpelling codes.new.items) }
{
    push_code(codes, code_of(index))?;
    if is_repeated {
        tags.keep(node);
        push_code(codes, Code::Tag)?;
        return Ok(());
    }
    Ok(())
}

// The codes of the steps.
fn codes_of(
    alloc: Global,
    chosen: &Chosen,
    labels: &IndexSet<u32, Seed>,
    repeated: &[bool],
    steps: &[Step],
) -> Result<Vec<Code>, AllocError>
    ensures { IfOk result (λ codes. All HasSpelling codes.items) }
{
    let mut codes = Vec::with_capacity(alloc, steps.len())?;
    let mut tags = Tags {
        indices: vec![in alloc; 0usize; repeated.len()]?,
        next: labels.len(),
    };
    for step in steps {
        match step {
            Step::Make(node) => {
                let index = label_index(labels, label_of(chosen, *node));
                make(
                    &mut codes,
                    &mut tags,
                    index,
                    *node,
                    is_noted(repeated, *node),
                )?;
            }
            Step::Repeat(node) => push_code(&mut codes, code_of(tags.index(*node)))?,
        }
    }
    Ok(codes)
}

// The index of the label, which is among them.
fn label_index(labels: &IndexSet<u32, Seed>, label: Option<u32>) -> usize {
    match label {
        Some(label) => labels.get_index_of(&label).unwrap_or(0),
        None => 0,
    }
}

// The labels behind the first ones.
fn listed<'a>(
    alloc: Global,
    book: &Book<'a>,
    labels: &IndexSet<u32, Seed>,
    own: usize,
) -> Result<Vec<&'a [u8]>, AllocError> {
    let mut listed = Vec::new(alloc);
    for index in own..labels.len() {
        if let Some(label) = labels.get_index(index) {
            listed.push(book.label(LabelId(*label)))?;
        }
    }
    Ok(listed)
}

/// The text of the proof of the root by the chosen edges, for a `$p` with these mandatory
/// hypotheses: each node is proved once, and tagged where it is used again.
pub(crate) fn outline_text(
    alloc: Global,
    book: &Book,
    hypotheses: &[Hypothesis],
    chosen: &Chosen,
    root: u32,
) -> Result<Vec<u8>, AllocError> {
    let steps = steps_of(alloc, chosen, root)?;
    let repeated = repeated_nodes(alloc, chosen.edges.len(), &steps)?;
    let labels = labels_of(alloc, book.seed(), chosen, hypotheses, &steps)?;
    let codes = codes_of(alloc, chosen, &labels, &repeated, &steps)?;
    let listed = listed(alloc, book, &labels, hypotheses.len())?;
    let letters = write_codes(alloc, &codes)?;
    lay_out_compressed(alloc, &listed, &letters)
}
