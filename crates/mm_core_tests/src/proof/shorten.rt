//! Shorter proofs by a library, and the parts of the search for them.

ghost use Rattle.std.specs.Prelude.{◌≤◌, ℕ, length};
ghost use Rattle.std.specs.List.{sum_by};
ghost use Rattle.mm_base.specs.MostBytes.{most_bytes};
ghost use Rattle.mm_frame.specs.Sentence.{Sentence};
ghost use Rattle.mm_step.specs.Steps.{IsProofNumber};
ghost use Rattle.mm_step.specs.Plain.{token_texts};

use crate::growths::once_more;
use crate::proof::{Theorem, first_theorem, uses_in};
use mm_base::{File, Seed};
use mm_frame::{Book, Found, LabelId, Sym};
use mm_listing::UsedSteps;
use mm_shorten::{
    Aim, BYTE, Budget, Edge, Entry, Expressions, Graph, Library, Origin, Reach, Rests, Shared,
    Size, choice_budget, choose_text, goals_of, search_budget, step_price,
};
use std::alloc::{AllocError, Global};
use std::test::Fail;

/// What is proved by `k` and `mp`, which `add` says in one step.
const ADDED: [File; 1] = [File {
    name: b"added.mm",
    bytes: b"\
$c wff |- ( -> ) $.
$v P Q $.
wp $f wff P $.
wq $f wff Q $.
wim $a wff ( P -> Q ) $.
${
  min $e |- P $.
  maj $e |- ( P -> Q ) $.
  mp $a |- Q $.
$}
${
  add.1 $e |- P $.
  add $a |- ( Q -> P ) $.
$}
k $a |- ( P -> ( Q -> P ) ) $.
${
  th.1 $e |- P $.
  th $p |- ( Q -> P ) $= wp wq wp wim th.1 wp wq k mp $.
$}
",
}];

/// The small proof that it has.
const OWN: &[u8] = b"      ( wim k mp )\n      ABADCABEF\n";

/// The one with `add`.
const SHORTER: &[u8] = b"      ( add )\n      ABCD\n";

/// The size of the small proof that it has.
const SIZE: Size = Size {
    letters: 9,
    steps: 9,
};

/// The number of an assertion.
fn number_of(book: &Book, label: &[u8]) -> Result<LabelId, Fail> {
    match book.find(label) {
        Found::Assertion(id) => Ok(id),
        _ => Err(Fail::from("no such assertion")),
    }
}

/// The numbers of the assertions that the proof uses.
fn used_numbers(book: &Book) -> Result<[LabelId; 3], Fail> {
    Ok([
        number_of(book, b"wim")?,
        number_of(book, b"k")?,
        number_of(book, b"mp")?,
    ])
}

/// Enters an assertion.
fn enter(
    library: &mut Library,
    book: &Book,
    label: &[u8],
    usable: bool,
    rests: Rests,
) -> Result<(), Fail> {
    match book.find(label) {
        Found::Assertion(id) => Ok(library.enter(
            book,
            id,
            Entry {
                usable,
                mathbox: 0,
                rests,
            },
        )?),
        _ => Err(Fail::from("no such assertion")),
    }
}

/// How `add` is entered: not at all, as what may not be used, as an axiom, or as what rests on the
/// axioms of the proof.
#[derive(Clone, Copy, PartialEq, Eq)]
enum Added {
    Marked,
    Axiom,
    Theorem,
}

/// Enters the assertions of the book.
fn enter_all(library: &mut Library, book: &Book, added: Added) -> Result<(), Fail> {
    for label in [b"wim".as_slice(), b"mp", b"k"] {
        enter(library, book, label, true, Rests::Itself)?;
    }
    let uses = used_numbers(book)?;
    match added {
        Added::Marked => enter(library, book, b"add", false, Rests::Uses(&uses)),
        Added::Axiom => enter(library, book, b"add", true, Rests::Itself),
        Added::Theorem => enter(library, book, b"add", true, Rests::Uses(&uses)),
    }
}

/// The text of the smallest proof that is found.
fn shortened(
    alloc: Global,
    book: &Book,
    used: &UsedSteps,
    library: &Library,
    reach: Reach,
) -> Result<Option<Vec<u8>>, Fail> {
    let uses = used_numbers(book)?;
    match book.find(b"th") {
        Found::Assertion(id) => {
            let theorem = mm_shorten::Theorem {
                book,
                frame: &book.frame(id),
                uses: &uses,
                mathbox: 0,
            };
            Ok(library.shorten(alloc, &theorem, used, SIZE, reach)?)
        }
        _ => Err(Fail::from("no theorem")),
    }
}

/// Whether this is the text that is found.
fn is_shortened(
    alloc: Global,
    book: &Book,
    used: &UsedSteps,
    added: Added,
    wanted: &[u8],
) -> Result<bool, Fail> {
    let mut library = Library::new(alloc, Seed::known());
    let answer = match enter_all(&mut library, book, added) {
        Ok(()) => shortened(alloc, book, used, &library, Reach::Present),
        Err(fail) => Err(fail),
    };
    let count = library.len();
    let is_full = !library.is_empty() && count == 3 + (added != Added::Marked) as usize;
    drop(library);
    let text = answer?;
    Ok(is_full && text.as_deref() == Some(wanted))
}

/// Whether the theorem's proof is its own where `add` may not be used or rests on more, and shorter
/// where it rests on the same.
fn are_shortened(alloc: Global, theorem: &Theorem) -> Result<bool, Fail>
    requires proof { (index : ℕ) × (s : Sentence)
        × IsProofNumber theorem.now.book.statements theorem.now.id.0 index s }
    requires room { sum_by length (token_texts theorem.now.tokens.items) ≤ most_bytes }
{
    let used = uses_in(alloc, theorem)?;
    let book = &theorem.book;
    Ok(
        is_shortened(alloc, book, &used, Added::Marked, OWN)?
            && is_shortened(alloc, book, &used, Added::Axiom, OWN)?
            && is_shortened(alloc, book, &used, Added::Theorem, SHORTER)?,
    )
}

#[test]
fn shorter_proofs(rt: HostRuntime) -> Result<(), Fail> {
    let theorem = first_theorem(rt.alloc(), &ADDED)?;
    let answer = are_shortened(rt.alloc(), &theorem);
    drop(theorem);
    assert!(rt; answer?);
    Ok(())
}

/// Adds the edges of the library, and answers whether the last step has one more then.
fn widens(
    alloc: Global,
    book: &Book,
    library: &Library,
    shared: &mut Shared,
) -> Result<bool, Fail> {
    let uses = used_numbers(book)?;
    let goals = goals_of(
        alloc,
        &shared.graph,
        shared.root,
        &mut choice_budget(&shared.graph),
    )?;
    let before = shared.graph.edges_of(shared.root).len();
    let mut budget = search_budget(&shared.graph);
    match book.find(b"th") {
        Found::Assertion(id) => library.add_edges(
            &mm_shorten::Theorem {
                book,
                frame: &book.frame(id),
                uses: &uses,
                mathbox: 0,
            },
            &mut shared.graph,
            &goals,
            Reach::OneMissing,
            &mut budget,
        )?,
        _ => return Err(Fail::from("no theorem")),
    }
    Ok(before == 1 && shared.graph.edges_of(shared.root).len() == 2 && !budget.is_used_up())
}

/// The text that is chosen in a graph.
fn chosen(alloc: Global, book: &Book, shared: &Shared) -> Result<Option<Vec<u8>>, Fail> {
    match book.find(b"th") {
        Found::Assertion(id) => {
            let aim = Aim {
                root: shared.root,
                step: step_price(SIZE.letters, SIZE.steps),
                most_steps: SIZE.steps as u64,
            };
            let hypotheses = book.frame(id).hypotheses();
            let mut budget = choice_budget(&shared.graph);
            Ok(choose_text(alloc, book, hypotheses, &shared.graph, aim, &mut budget)?)
        }
        _ => Err(Fail::from("no theorem")),
    }
}

/// Whether the graph of the proof gets an edge by the library, which is chosen.
fn is_chosen(
    alloc: Global,
    book: &Book,
    library: &Library,
    shared: &mut Shared,
) -> Result<bool, Fail> {
    let own = chosen(alloc, book, shared)?;
    let is_wider = widens(alloc, book, library, shared)?;
    let text = chosen(alloc, book, shared)?;
    Ok(is_wider && own.as_deref() == Some(OWN) && text.as_deref() == Some(SHORTER))
}

/// The same, of a library that is made here.
fn is_chosen_with(
    alloc: Global,
    book: &Book,
    library: &mut Library,
    used: &UsedSteps,
) -> Result<bool, Fail> {
    enter_all(library, book, Added::Theorem)?;
    let mut shared = Graph::of_proof(alloc, book, used)?;
    let answer = is_chosen(alloc, book, library, &mut shared);
    drop(shared);
    answer
}

/// The same, of the proof of a theorem.
fn takes_parts(alloc: Global, theorem: &Theorem) -> Result<bool, Fail>
    requires proof { (index : ℕ) × (s : Sentence)
        × IsProofNumber theorem.now.book.statements theorem.now.id.0 index s }
    requires room { sum_by length (token_texts theorem.now.tokens.items) ≤ most_bytes }
{
    let used = uses_in(alloc, theorem)?;
    let mut library = Library::new(alloc, Seed::known());
    let answer = is_chosen_with(alloc, &theorem.book, &mut library, &used);
    drop(library);
    answer
}

#[test]
fn parts_of_a_search(rt: HostRuntime) -> Result<(), Fail> {
    let theorem = first_theorem(rt.alloc(), &ADDED)?;
    let answer = takes_parts(rt.alloc(), &theorem);
    drop(theorem);
    assert!(rt; answer?);
    Ok(())
}

#[test]
fn budgets_are_taken(rt: HostRuntime) {
    let mut budget = Budget::new(3);
    assert!(rt; budget.take(2));
    assert_eq!(rt; budget.left(), 1);
    assert!(rt; !budget.take(1));
    assert!(rt; budget.is_used_up());
    assert_eq!(rt; step_price(0, 0), BYTE);
}

#[test]
fn expressions_have_numbers(rt: HostRuntime) -> Result<(), Fail> {
    let mut expressions = Expressions::new(rt.alloc(), Seed::known());
    assert!(rt; expressions.is_empty());
    assert_eq!(rt; expressions.number(&[Sym(5), Sym(6)])?, 0);
    assert_eq!(rt; expressions.number(&[])?, 1);
    assert_eq!(rt; expressions.number(&[Sym(5), Sym(6)])?, 0);
    assert_eq!(rt; expressions.find(&[]), Some(1u32));
    assert!(rt; expressions.find(&[Sym(5)]).is_none());
    assert_eq!(rt; expressions.get(0), [Sym(5), Sym(6)].as_slice());
    assert_eq!(rt; expressions.len(), 2);
    Ok(())
}

/// A node with one edge over another, which is a hypothesis.
fn small_graph(alloc: Global) -> Result<Graph, AllocError> {
    let mut graph = Graph::new(alloc, Seed::known());
    let below = graph.node(&[Sym(1)])?;
    let above = graph.node(&[Sym(2)])?;
    if let Some(hypothesis) = graph.hypotheses.get_mut(below as usize) {
        *hypothesis = Some(7);
    }
    let mut children = Vec::new(alloc);
    children.push(below)?;
    graph.add(
        above,
        Edge {
            label: 9,
            children,
            origin: Origin::Library,
        },
    )?;
    Ok(graph)
}

#[test]
fn graphs_have_nodes(rt: HostRuntime) -> Result<(), Fail> {
    let graph = small_graph(rt.alloc())?;
    assert_eq!(rt; graph.hypothesis_of(0), Some(7u32));
    assert!(rt; graph.is_known(0));
    assert!(rt; graph.is_known(1));
    assert!(rt; !graph.is_known(2));
    assert_eq!(rt; graph.edges_of(1).len(), 1);
    assert!(rt; graph.edges_of(0).is_empty());
    Ok(())
}

/// Enters an assertion, once more where memory ran out the first time.
fn enter_on(library: &mut Library, book: &Book, label: &[u8], rests: Rests) -> Result<(), Fail> {
    let entry = Entry {
        usable: true,
        mathbox: 0,
        rests,
    };
    match book.find(label) {
        Found::Assertion(id) => match library.enter(book, id, entry) {
            Ok(()) => Ok(()),
            Err(_) => once_more(library.enter(book, id, entry)),
        },
        _ => Err(Fail::from("no such assertion")),
    }
}

/// The text of the smallest proof that is found, asked for once more where memory ran out the first
/// time.
fn shorten_on(
    alloc: Global,
    book: &Book,
    used: &UsedSteps,
    library: &Library,
) -> Result<Option<Vec<u8>>, Fail> {
    let uses = used_numbers(book)?;
    match book.find(b"th") {
        Found::Assertion(id) => {
            let theorem = mm_shorten::Theorem {
                book,
                frame: &book.frame(id),
                uses: &uses,
                mathbox: 0,
            };
            match library.shorten(alloc, &theorem, used, SIZE, Reach::OneMissing) {
                Ok(text) => Ok(text),
                Err(_) => once_more(library.shorten(
                    alloc,
                    &theorem,
                    used,
                    SIZE,
                    Reach::OneMissing,
                )),
            }
        }
        _ => Err(Fail::from("no theorem")),
    }
}

/// Whether the shorter proof is found by a library whose entries may have been refused.
fn shortens_on(
    alloc: Global,
    book: &Book,
    library: &mut Library,
    used: &UsedSteps,
) -> Result<bool, Fail> {
    for label in [b"wim".as_slice(), b"mp", b"k"] {
        enter_on(library, book, label, Rests::Itself)?;
    }
    let uses = used_numbers(book)?;
    enter_on(library, book, b"add", Rests::Uses(&uses))?;
    Ok(shorten_on(alloc, book, used, library)?.as_deref() == Some(SHORTER))
}

/// The same, of the proof of a theorem.
fn goes_on(alloc: Global, theorem: &Theorem) -> Result<bool, Fail>
    requires proof { (index : ℕ) × (s : Sentence)
        × IsProofNumber theorem.now.book.statements theorem.now.id.0 index s }
    requires room { sum_by length (token_texts theorem.now.tokens.items) ≤ most_bytes }
{
    let used = uses_in(alloc, theorem)?;
    let mut library = Library::new(alloc, Seed::known());
    let answer = shortens_on(alloc, &theorem.book, &mut library, &used);
    drop(library);
    answer
}

#[test]
fn growths_of_shorten(rt: HostRuntime) -> Result<(), Fail> {
    let theorem = first_theorem(rt.alloc(), &ADDED)?;
    let answer = goes_on(rt.alloc(), &theorem);
    drop(theorem);
    if answer? {
        Ok(())
    } else {
        Err(Fail::from("another proof after want of memory"))
    }
}
