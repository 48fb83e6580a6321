//! Where the labelled statements of a database stand, what comments say of them, and how the
//! symbols are written.

ghost use Rattle.std.specs.Prelude.{◌≡◌, IfErr};
ghost use Rattle.mm_rules.specs.declared.ask.AskFault.TheVariants.{Memory};

use crate::names::Names;
use mm_base::{File, Kind, Seed, Statement};
use mm_frame::{Book, LabelId, Sym};
use mm_patterns::Standing;
use mm_rules::AskFault;
use mm_terms::next_number;
use mm_text::{Statements, headings_between, mathbox_at, says_before};
use mm_verdict::Checked;
use std::alloc::{AllocError, Global};

// Marks an assertion that no further proof should use.
const USAGE_MARK: &[u8] = b"(New usage is discouraged.)";

// Marks a theorem whose proof should stay as it is.
const PROOF_MARK: &[u8] = b"(Proof modification is discouraged.)";

/// What is said of a labelled statement where it stands.
#[derive(Clone, Copy)]
pub struct Remark {
    /// Where it stands.
    pub standing: Standing,
    /// Whether its proof should stay as it is.
    pub is_settled: bool,
}

/// What is said of the labelled statements of a database, by their numbers.
#[derive(Drop)]
pub struct Remarks<'a> {
    pub remarks: Vec<Remark>,
    /// The number of the first block of a mathbox.
    pub first_mathbox: Option<u32>,
    /// The names of symbols, by their numbers; none of a symbol that no such statement has.
    pub names: Vec<Option<&'a [u8]>>,
    /// The variables that lemmas may have.
    pub variables: Names,
}

// A position in a file, and the number of the mathbox in which it lies.
#[derive(Clone, Copy)]
struct Passed {
    at: usize,
    mathbox: usize,
}

// The way through the statements.
#[derive(Drop)]
struct Walk<'f, 'a> {
    files: &'f [File<'a>],
    /// How far each file was passed.
    passed: Vec<Passed>,
    /// How many blocks are open.
    depth: usize,
    /// The number of the statement outside of all blocks, or of the outermost block.
    block: u32,
    /// How many labelled statements were passed.
    labelled: u32,
    remarks: Remarks<'a>,
}

// No file has more mathboxes, as a rule.
const MATHBOXES: usize = 4096;

// A number for a mathbox of a file; 0 for none.
fn mathbox_number(file: usize, mathbox: usize) -> u32 {
    if mathbox == 0 {
        return 0;
    }
    next_number(file.saturating_mul(MATHBOXES).saturating_add(mathbox))
}

// The number of the mathbox in which a position of a file lies, where that of another is known.
fn mathbox_from(bytes: &[u8], passed: Passed, at: usize) -> usize {
    if at > bytes.len() {
        return 0;
    }
    if passed.at <= at {
        passed
            .mathbox
            .saturating_add(headings_between(bytes, passed.at, at))
    } else {
        mathbox_at(bytes, at)
    }
}

// Whether the comment before a position says a sentence.
fn is_said(bytes: &[u8], at: usize, sentence: &[u8]) -> bool {
    at <= bytes.len() && says_before(bytes, at, sentence)
}

impl<'f, 'a> Walk<'f, 'a> {
    // At the beginning of the files.
    fn new(alloc: Global, seed: Seed, files: &'f [File<'a>]) -> Result<Walk<'f, 'a>, AllocError> {
        Ok(Walk {
            files,
            passed: vec![in alloc; Passed { at: 0, mathbox: 0 }; files.len()]?,
            depth: 0,
            block: 0,
            labelled: 0,
            remarks: Remarks {
                remarks: Vec::new(alloc),
                first_mathbox: None,
                names: Vec::new(alloc),
                variables: Names::new(alloc, seed),
            },
        })
    }

    // Passes a statement.
    fn pass(&mut self, book: &Book, statement: &Statement<'a>) -> Result<(), AllocError> {
        if statement.kind == Kind::Closing {
            self.depth = self.depth.saturating_sub(1);
            return Ok(());
        }
        if self.depth == 0 {
            self.block = self.block.saturating_add(1);
        }
        if statement.kind == Kind::Opening {
            self.depth = self.depth.saturating_add(1);
            return Ok(());
        }
        if statement.label.is_none() {
            return Ok(());
        }
        let remark = self.remark(statement);
        if remark.standing.mathbox > 0 && self.remarks.first_mathbox.is_none() {
            self.remarks.first_mathbox = Some(self.block);
        }
        self.remarks.remarks.push(remark)?;
        let expression = book.expression(LabelId(self.labelled));
        self.name_each(expression, statement)?;
        self.labelled = self.labelled.saturating_add(1);
        if statement.kind == Kind::Floating && self.depth == 0 {
            self.remarks.variables.enter(book, expression, self.block)?;
        }
        Ok(())
    }

    // What is said of a labelled statement.
    fn remark(&mut self, statement: &Statement) -> Remark {
        let file = statement.first.file;
        let at = statement.first.at as usize;
        let bytes: &[u8] = match self.files.get(file) {
            Some(file) => file.bytes,
            None => &[],
        };
        let mathbox = self.mathbox(bytes, file, at);
        Remark {
            standing: Standing {
                is_usable: !is_said(bytes, at, USAGE_MARK),
                block: self.block,
                mathbox: mathbox_number(file, mathbox),
            },
            is_settled: is_said(bytes, at, PROOF_MARK),
        }
    }

    // The number of the mathbox in which a position of a file lies, which is passed.
    fn mathbox(&mut self, bytes: &[u8], file: usize, at: usize) -> usize {
        let Some(passed) = self.passed.get_mut(file) else {
            return 0;
        };
        let mathbox = mathbox_from(bytes, *passed, at);
        *passed = Passed { at, mathbox };
        mathbox
    }

    // Notes how these symbols of a statement are written.
    fn name_each(&mut self, symbols: &[Sym], statement: &Statement<'a>) -> Result<(), AllocError> {
        for (symbol, token) in symbols.iter().zip(&statement.symbols) {
            self.name(*symbol, token.text)?;
        }
        Ok(())
    }

    // Notes how a symbol is written.
    fn name(&mut self, symbol: Sym, text: &'a [u8]) -> Result<(), AllocError> {
        let names = &mut self.remarks.names;
        for _ in names.len()..=symbol.0 as usize {
            names.push(None)?;
        }
        if let Some(name) = names.get_mut(symbol.0 as usize) {
            *name = Some(text);
        }
        Ok(())
    }
}

// Passes the statements that are left.
fn pass_each<'a>(
    walk: &mut Walk<'_, 'a>,
    book: &Book,
    statements: &mut Statements<'a>,
    into: &mut Statement<'a>,
) -> Result<(), AskFault>
    ensures { IfErr result (λ fault. fault ≡ Memory) }
{
    while statements.more(into)? {
        walk.pass(book, into)?;
    }
    Ok(())
}

/// What is said of each labelled statement of a database.
pub fn remarks_of<'a>(alloc: Global, checked: &Checked<'a>) -> Result<Remarks<'a>, AskFault>
    ensures { IfErr result (λ fault. fault ≡ Memory) }
{
    let mut statements = checked.reader(alloc)?;
    let mut statement = Statement::empty(alloc);
    let mut way = Walk::new(alloc, checked.book.seed(), checked.files)?;
    let outcome = pass_each(&mut way, &checked.book, &mut statements, &mut statement);
    drop(statements);
    drop(statement);
    let Walk {
        passed,
        remarks,
        ..
    } = way;
    drop(passed);
    match outcome {
        Ok(()) => Ok(remarks),
        Err(fault) => {
            drop(remarks);
            Err(fault)
        }
    }
}
