//! The reply to `mm find`.

ghost use Rattle.std.specs.Prelude.{◌≡◌, ◌≤◌, length, map, IfOk};
ghost use Rattle.std.specs.List.{AllByRecursion};
ghost use Rattle.mm_base.specs.MostBytes.{most_bytes};
ghost use Rattle.mm_code.specs.Layout.{texts};
ghost use Rattle.mm_text.specs.Files.{plain_file};
ghost use Rattle.mm_rules.specs.Status.{number_of};
ghost use Rattle.mm_code.specs.Words.{tokens_in};
ghost use Rattle.mm_find.specs.Plain.{expressions_in, plain_query};
ghost use Rattle.mm_find.specs.Shape.{shape_of as shape_of_tokens};
ghost use Rattle.mm_find.specs.Reply.{IsFindReply, query_for as query_of_words};

use crate::found::find;
use crate::query::{Matching, Query, shape_of};
use mm_base::{File, Seed};
use mm_rules::Status;
use mm_verdict::{Reply, fault_reply, tokens_of};
use std::alloc::{AllocError, Global};

/// What is sought: assertions with each of these patterns, whose tokens stand between white space;
/// if `whole`, as whole expressions; if `shape`, up to the names of variables; if `hypotheses`, also
/// in essential hypotheses. Where there is no pattern, all assertions.
#[derive(Clone, Copy)]
pub struct Sought<'a> {
    pub patterns: &'a [&'a [u8]],
    pub whole: bool,
    pub shape: bool,
    pub hypotheses: bool,
}

/// The patterns for what is sought up to the names of variables: their tokens.
fn variants_for<'a>(alloc: Global, patterns: &[&'a [u8]]) -> Result<Vec<Vec<&'a [u8]>>, AllocError>
    requires { AllByRecursion (λ p. length p ≤ most_bytes) (texts patterns.now) }
    ensures { IfOk result (λ variants. expressions_in variants.items
        ≡ map tokens_in (texts patterns.now)) }
{
    let mut variants = Vec::new(alloc);
    for pattern in patterns {
        let tokens = tokens_of(alloc, pattern)?;
        variants.push(tokens)?;
    }
    Ok(variants)
}

/// The patterns for what is sought symbol by symbol: their shapes.
fn shapes_for<'a>(
    alloc: Global,
    patterns: &[&'a [u8]],
    whole: bool,
) -> Result<Vec<Vec<&'a [u8]>>, AllocError>
    requires { AllByRecursion (λ p. length p ≤ most_bytes) (texts patterns.now) }
    ensures { IfOk result (λ shapes. expressions_in shapes.items
        ≡ map (λ p. shape_of_tokens whole (tokens_in p)) (texts patterns.now)) }
{
    let mut shapes = Vec::new(alloc);
    for pattern in patterns {
        let tokens = tokens_of(alloc, pattern)?;
        let shape = shape_of(alloc, whole, &tokens)?;
        shapes.push(shape)?;
    }
    Ok(shapes)
}

/// The query for what is sought.
fn query_for<'a>(alloc: Global, sought: &Sought<'a>) -> Result<Query<'a>, AllocError>
    requires { AllByRecursion (λ p. length p ≤ most_bytes) (texts sought.now.patterns.now) }
    ensures { IfOk result (λ query. plain_query query ≡ query_of_words
        (texts sought.now.patterns.now) sought.now.whole sought.now.shape
        sought.now.hypotheses) }
{
    if sought.shape {
        return Ok(Query {
            patterns: variants_for(alloc, sought.patterns)?,
            matching: Matching::Variants {
                whole: sought.whole,
            },
            hypotheses: sought.hypotheses,
        });
    }
    Ok(Query {
        patterns: shapes_for(alloc, sought.patterns, sought.whole)?,
        matching: Matching::Shapes,
        hypotheses: sought.hypotheses,
    })
}

/// The reply to what is sought in the files: the lines, or the first fault of the text or of
/// meaning.
pub fn find_reply(
    alloc: Global,
    seed: Seed,
    files: &[File],
    sought: &Sought,
) -> Result<Reply, AllocError>
    requires { AllByRecursion (λ p. length p ≤ most_bytes) (texts sought.now.patterns.now) }
    ensures { IfOk result (λ reply. IsFindReply (query_of_words
        (texts sought.now.patterns.now) sought.now.whole sought.now.shape
        sought.now.hypotheses) (map plain_file files.now) reply.text.items (number_of reply.status)) }
{
    let query = query_for(alloc, sought)?;
    match find(alloc, seed, files, &query) {
        Ok(text) => Ok(Reply {
            text,
            status: Status::Done,
        }),
        Err(fault) => {
            let reply = fault_reply(alloc, files, &fault)?;
            Ok(reply)
        }
    }
}
