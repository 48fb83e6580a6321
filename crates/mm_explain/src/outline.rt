//! The statements of the files in outline: what explanations ask of all of them.

ghost use Rattle.std.specs.Prelude.{◌≡◌, ◌↔◌, [], take, drop, map, IsTrue, OnOk, Some, option_map};
ghost use Rattle.mm_text.specs.Files.{plain_file};
ghost use Rattle.mm_base.specs.Token.{plain_token};
ghost use Rattle.mm_explain.specs.Mirror.Outlined.{IsKeptOutline, IsOutlineOf, OutlinesAll};

use mm_base::{File, Kind, Seed, Statement, Token};
use mm_text::{Passing, pass_all};
use std::alloc::{AllocError, Global};

/// A statement in brief.
#[derive(Clone, Copy)]
pub(crate) struct Brief<'a> {
    pub kind: Kind,
    /// The statement's first token.
    pub first: Token<'a>,
    /// Its label, if it has one.
    pub label: Option<Token<'a>>,
}

/// Whether the statement has the label.
pub(crate) fn is_labelled(brief: &Brief, label: &[u8]) -> bool
    ensures { IsTrue result
        ↔ (option_map (λ t. t.text) (option_map plain_token brief.now.label) ≡ Some label.now) }
{
    match &brief.label {
        Some(own) => own.text == label,
        None => false,
    }
}

/// The first so many of the statements; all of them where there are no more.
pub(crate) fn first_of<'t, 'a>(briefs: &'t [Brief<'a>], count: usize) -> &'t [Brief<'a>]
    ensures { result.now ≡ take count briefs.now }
{
    briefs.get(..count).unwrap_or(briefs)
}

/// The statements from an index on.
pub(crate) fn from_index<'t, 'a>(briefs: &'t [Brief<'a>], index: usize) -> &'t [Brief<'a>]
    ensures { result.now ≡ drop index briefs.now }
{
    briefs.get(index..).unwrap_or(&briefs[..0])
}

/// The statements of files in brief, up to the end or to the fault of the text, once they were
/// asked for.
#[derive(Drop)]
pub(crate) struct Outline<'a> {
    alloc: Global,
    seed: Seed,
    pub files: &'a [File<'a>],
    /// All statements; none before they are read.
    pub briefs: Vec<Brief<'a>>,
    /// The first tokens of those that have labels, by the numbers of the labels.
    pub firsts: Vec<Token<'a>>,
}

impl<'a> Passing<'a> for Outline<'a> {
    ghost use Rattle.mm_explain.specs.Mirror.Outlined.{HasOutlined};

    ghost has_passed = { HasOutlined };

    fn pass(&mut self, statement: &Statement<'a>) -> Result<(), AllocError> {
        self.briefs.push(Brief {
            kind: statement.kind,
            first: statement.first,
            label: statement.label,
        })?;
        match statement.label {
            Some(_) => {
                self.firsts.push(statement.first)?;
                Ok(())
            }
            None => Ok(()),
        }
    }
}

impl<'a> Outline<'a> {
    /// Of files that weren't read yet.
    pub(crate) fn new(alloc: Global, seed: Seed, files: &'a [File<'a>]) -> Outline<'a>
        ensures files { map plain_file result.files.now ≡ map plain_file files.now }
        ensures unread { IsOutlineOf [] result }
    {
        Outline {
            alloc,
            seed,
            files,
            briefs: Vec::new(alloc),
            firsts: Vec::new(alloc),
        }
    }

    /// Reads the statements, unless they were read.
    pub(crate) fn read(&mut self) -> Result<(), AllocError>
        requires { IsKeptOutline (map plain_file self.old.files.now) self.old }
        ensures kept { OnOk result
            (IsKeptOutline (map plain_file self.old.files.now) self.new) }
        ensures read { OnOk result (OutlinesAll (map plain_file self.old.files.now) self.new) }
    {
        if self.briefs.is_empty() {
            pass_all(self.alloc, self.seed, self.files, self)?;
        }
        Ok(())
    }
}
