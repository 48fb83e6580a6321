//! Explains M faults: the symbol at fault and the declaration it conflicts with.

ghost use Rattle.std.specs.Prelude.{◌≡◌, ◌++◌, List, ℕ, map, reverse, IfOk, OnOk};
ghost use Rattle.mm_base.specs.Blocks.{AreClosed, IsInnermost};
ghost use Rattle.mm_text.specs.Files.{plain_file};
ghost use Rattle.mm_base.specs.Statement.{PlainStatement};
ghost use Rattle.mm_rules.specs.Answer.{plain_refusal};
ghost use Rattle.mm_facts.specs.Explained.{Detail, details_text};
ghost use Rattle.mm_explain.specs.MeaningFacts.{AreEarlierFacts, AreMeaningFacts};
ghost use Rattle.mm_explain.specs.Mirror.SemanticErrors.{AreOpenBlocks, IsSemanticError};
ghost use Rattle.mm_explain.specs.Mirror.SemanticErrors.{IsStopped, Site};
ghost use Rattle.mm_explain.specs.Mirror.SemanticErrors.{position_of, positions_after};
ghost use Rattle.mm_rules.specs.Verdict.{CanBeRead};
ghost use Rattle.mm_rules.specs.declared.rule.Rule.TheVariants.{Meaning};

use crate::earlier_declaration::last_met_before;
use crate::semantic_error::{SemanticError, read_semantic_error};
use crate::source::push_open_block;
use mm_base::{File, Kind, Seed, Statement, Token};
use mm_facts::{push_met, push_token};
use mm_frame::MeaningRule;
use mm_rules::{Refusal, Rule};
use mm_text::{Passing, pass_first};
use std::alloc::{AllocError, Global};

/// The blocks that are open once a statement more is read, the innermost last.
fn pass_block<'a>(blocks: &mut Vec<Token<'a>>, statement: &Statement<'a>) -> Result<(), AllocError>
    ensures { OnOk result (map position_of (reverse blocks.new.items)
        ≡ positions_after statement.now.kind (position_of statement.now.first)
        (map position_of (reverse blocks.old.items))) }
{
    match statement.kind {
        Kind::Opening => {
            blocks.push(statement.first)?;
            Ok(())
        }
        Kind::Closing => {
            let _ = blocks.pop();
            Ok(())
        }
        _ => Ok(()),
    }
}

/// The tokens of the blocks that are open after some statements, the innermost last.
#[derive(Drop)]
pub(crate) struct OpenBlocks<'a> {
    pub blocks: Vec<Token<'a>>,
}

impl<'a> Passing<'a> for OpenBlocks<'a> {
    ghost has_passed = { λ first now passed. AreOpenBlocks passed now.blocks.items };

    fn pass(&mut self, statement: &Statement<'a>) -> Result<(), AllocError> {
        pass_block(&mut self.blocks, statement)
    }
}

/// Where the innermost of the blocks begins that are open after so many statements.
fn innermost_before<'a>(
    alloc: Global,
    seed: Seed,
    files: &'a [File<'a>],
    count: usize,
) -> Result<Token<'a>, AllocError>
    requires readable { CanBeRead (map plain_file files.now) }
    requires opened { (site : Site (map plain_file files.now) count) × ¬ (AreClosed site.before) }
    ensures { IfOk result (λ token. (site : Site (map plain_file files.now) count)
        → (outer : List PlainStatement) × (opening : PlainStatement)
        × IsInnermost site.before outer opening
        × (token.file ≡ opening.first.file) × (token.at ≡ opening.first.at)) }
{
    let mut open = OpenBlocks {
        blocks: Vec::new(alloc),
    };
    pass_first(alloc, seed, files, count, &mut open)?;
    match open.blocks.pop() {
        Some(token) => Ok(token),
        // A block is open.
        None => unreachable!(),
    }
}

/// The rule of meaning for which a statement is refused.
fn meaning_rule(refusal: &Refusal) -> MeaningRule
    requires { (rule : MeaningRule) × (refusal.now.rule ≡ Meaning rule) }
    ensures { refusal.now.rule ≡ Meaning result }
{
    match refusal.rule {
        Rule::Meaning(rule) => rule,
        _ => unreachable!(),
    }
}

/// Appends the declaration that the faulty token conflicts with.
fn push_earlier<'a>(
    out: &mut Vec<u8>,
    alloc: Global,
    seed: Seed,
    files: &'a [File<'a>],
    error: &SemanticError<'a>,
    source: bool,
) -> Result<(), AllocError>
    requires { IsSemanticError (map plain_file files.now) error.now }
    ensures { OnOk result ((details : List Detail)
        × ((site : Site (map plain_file files.now) error.now.before)
        → AreEarlierFacts source (map plain_file files.now) error.now.rule site.before site.s
        error.now.index details)
        × (out.new.items ≡ out.old.items ++ details_text details)) }
{
    match error.rule {
        MeaningRule::M1 => {
            let block = innermost_before(alloc, seed, files, error.before)?;
            push_open_block(out, files, block, source)
        }
        _ => match last_met_before(alloc, seed, files, error)? {
            Some(token) => push_met(out, files, error.rule, token),
            None => Ok(()),
        },
    }
}

/// The position where the statement breaks the rule of meaning for which the files are refused,
/// and the text of the facts that explain it. The files are read again up to that statement.
pub(crate) fn meaning_facts<'a>(
    alloc: Global,
    seed: Seed,
    files: &'a [File<'a>],
    refusal: &Refusal<'a>,
    source: bool,
) -> Result<(usize, Vec<u8>), AllocError>
    requires { IsStopped (map plain_file files.now) (plain_refusal refusal.now) }
    ensures { IfOk result (λ told. (details : List Detail)
        × AreMeaningFacts source (map plain_file files.now) (plain_refusal refusal.now) told.0
        details
        × (told.1.items ≡ details_text details)) }
{
    let rule = meaning_rule(refusal);
    let error = read_semantic_error(alloc, seed, files, refusal.statement - 1, rule)?;
    let token = error.token();
    let mut text = Vec::new(alloc);
    push_token(&mut text, token.text)?;
    push_earlier(&mut text, alloc, seed, files, &error, source)?;
    Ok((token.at as usize, text))
}
