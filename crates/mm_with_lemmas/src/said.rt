//! Whether two statements say the same, wherever they stand, and have one proof.

ghost use Rattle.std.specs.Prelude.{◌≡◌, IsTrue, option_map};
ghost use Rattle.mm_base.specs.Statement.{plain_statement};
ghost use Rattle.mm_frame.specs.Sentence.{sentence_in};
ghost use Rattle.mm_rules.specs.Verdict.{proof_of};
ghost use Rattle.mm_with_lemmas.specs.WithLemmas.{said};
ghost use Rattle.mm_step.specs.Plain.{token_texts};

use mm_base::{Kind, Statement, Token};

/// Whether two tokens have the same text.
fn is_same_text(token: &Token, other: &Token) -> bool
    ensures { IsTrue result → token.now.text.now ≡ other.now.text.now }
{
    token.text == other.text
}

/// Whether two lists of tokens have the same texts.
fn have_same_texts(tokens: &[Token], others: &[Token]) -> bool
    ensures { IsTrue result → token_texts tokens.now ≡ token_texts others.now }
{
    if tokens.len() != others.len() {
        return false;
    }
    for at in 0..tokens.len() {
        if !is_same_text(&tokens[at], &others[at]) {
            return false;
        }
    }
    true
}

/// Whether two kinds are the same.
fn is_same_kind(kind: Kind, other: Kind) -> bool
    ensures { IsTrue result → kind ≡ other }
{
    kind == other
}

/// Whether two labels are the same, or both are wanting.
fn is_same_label(label: &Option<Token>, other: &Option<Token>) -> bool
    ensures { IsTrue result
        → option_map (λ t. t.text.now) label.now ≡ option_map (λ t. t.text.now) other.now }
{
    match label {
        Some(label) => match other {
            Some(other) => label.text == other.text,
            None => false,
        },
        None => other.is_none(),
    }
}

/// Whether two statements have the same kind, label and symbols.
pub(crate) fn say_the_same(statement: &Statement, other: &Statement) -> bool
    ensures { IsTrue result → sentence_in statement.now ≡ sentence_in other.now }
{
    if !is_same_kind(statement.kind, other.kind) {
        return false;
    }
    if !is_same_label(&statement.label, &other.label) {
        return false;
    }
    have_same_texts(&statement.symbols, &other.symbols)
}

/// Whether two statements have the same tokens in their proofs.
pub(crate) fn have_one_proof(statement: &Statement, other: &Statement) -> bool
    ensures { IsTrue result → proof_of (plain_statement statement.now)
        ≡ proof_of (plain_statement other.now) }
{
    have_same_texts(&statement.proof, &other.proof)
}

/// Whether two statements say the same and have the same tokens in their proofs.
pub(crate) fn are_the_same(statement: &Statement, other: &Statement) -> bool
    ensures { IsTrue result → said (plain_statement statement.now)
        ≡ said (plain_statement other.now) }
{
    if !say_the_same(statement, other) {
        return false;
    }
    have_one_proof(statement, other)
}
