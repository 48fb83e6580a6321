//! Finds the earlier declaration that an M fault conflicts with.

ghost use Rattle.std.specs.Prelude.{◌≡◌, ◌∷◌, [], map, take, drop, option_map, IfOk};
ghost use Rattle.std.specs.List.{flat_map};
ghost use Rattle.std.specs.Option.{option_to_list};
ghost use Rattle.mm_text.specs.Files.{plain_file};
ghost use Rattle.mm_base.specs.Statement.{plain_statement};
ghost use Rattle.mm_base.specs.Token.{plain_token};
ghost use Rattle.mm_explain.specs.MeaningFacts.{declared_by, last_met, looked_at, looked_at_within};
ghost use Rattle.mm_explain.specs.MeaningFacts.{last_looked_at, mentions, symbols_before};
ghost use Rattle.mm_explain.specs.MeaningFacts.{token_at, typed_by};
ghost use Rattle.mm_explain.specs.Mirror.SemanticErrors.{HasMet, IsSemanticError, Site};
ghost use Rattle.mm_rules.specs.Verdict.{CanBeRead};

use crate::semantic_error::SemanticError;
use mm_base::{File, Kind, Seed, Statement, Token};
use mm_frame::MeaningRule;
use mm_text::{Passing, pass_first};
use std::alloc::{AllocError, Global};

/// The token, where its text is the name.
fn with_name<'a>(token: Token<'a>, name: &[u8]) -> Option<Token<'a>>
    ensures { option_map plain_token result
        ≡ last_met name.now (mentions (plain_token token.entry ∷ [])) }
{
    if token.text == name {
        Some(token)
    } else {
        None
    }
}

/// The first so many tokens; all of them where there are no more.
fn first_of<'t, 'a>(tokens: &'t [Token<'a>], count: usize) -> &'t [Token<'a>]
    ensures { result.now ≡ take count tokens.now }
{
    tokens.get(..count).unwrap_or(tokens)
}

/// The tokens after the first one.
fn after_first<'t, 'a>(tokens: &'t [Token<'a>]) -> &'t [Token<'a>]
    ensures { result.now ≡ drop 1 tokens.now }
{
    tokens.get(1..).unwrap_or(tokens)
}

/// The last of the tokens whose text is the name.
fn last_among<'a>(tokens: &[Token<'a>], name: &[u8]) -> Option<Token<'a>>
    ensures { option_map plain_token result
        ≡ last_met name.now (mentions (map plain_token tokens.now)) }
{
    let mut last = None;
    for token in tokens {
        last = with_name(*token, name).or(last);
    }
    last
}

/// The last symbol with the name that a statement declares.
fn last_declared<'a>(statement: &Statement<'a>, name: &[u8]) -> Option<Token<'a>>
    ensures { option_map plain_token result ≡ last_met name.now
        (declared_by statement.now.kind (plain_statement statement.now).symbols) }
{
    match statement.kind {
        Kind::Constants | Kind::Variables => last_among(&statement.symbols, name),
        _ => None,
    }
}

/// The label of a statement, where it is the name.
fn label_with<'a>(statement: &Statement<'a>, name: &[u8]) -> Option<Token<'a>>
    ensures { option_map plain_token result ≡ last_met name.now
        (mentions (option_to_list (plain_statement statement.now).label)) }
{
    match &statement.label {
        Some(label) => with_name(*label, name),
        None => None,
    }
}

/// The first token of a `$f` that gives the variable with the name its type code.
fn typing_of<'a>(statement: &Statement<'a>, name: &[u8]) -> Option<Token<'a>>
    ensures { option_map plain_token result ≡ last_met name.now
        (typed_by statement.now.kind (plain_statement statement.now).first
        (plain_statement statement.now).symbols) }
{
    match statement.kind {
        Kind::Floating => match last_among(after_first(&statement.symbols), name) {
            Some(_) => Some(statement.first),
            None => None,
        },
        _ => None,
    }
}

/// Where the name was met last in an earlier statement, of what the rule looks at.
fn last_in<'a>(statement: &Statement<'a>, rule: MeaningRule, name: &[u8]) -> Option<Token<'a>>
    ensures { option_map plain_token result
        ≡ last_met name.now (looked_at rule (plain_statement statement.now)) }
{
    match rule {
        MeaningRule::M4 | MeaningRule::M5 => label_with(statement, name),
        MeaningRule::M9 => None,
        MeaningRule::M12 | MeaningRule::M13 => typing_of(statement, name),
        _ => last_declared(statement, name),
    }
}

/// The last symbol with the name before the one that breaks the rule.
fn last_symbol_before<'a>(error: &SemanticError<'a>, name: &[u8]) -> Option<Token<'a>>
    ensures { option_map plain_token result ≡ last_met name.now
        (symbols_before (plain_statement error.now.statement) error.now.index) }
{
    match error.index {
        Some(index) => last_among(first_of(&error.statement.symbols, index), name),
        None => None,
    }
}

/// Where the name was met last in the statement itself, of what the rule looks at.
fn last_within<'a>(error: &SemanticError<'a>, name: &[u8]) -> Option<Token<'a>>
    ensures { option_map plain_token result ≡ last_met name.now (looked_at_within
        error.now.rule (plain_statement error.now.statement) error.now.index) }
{
    match error.rule {
        MeaningRule::M2 | MeaningRule::M3 | MeaningRule::M9 => last_symbol_before(error, name),
        _ => None,
    }
}

/// Where a name was met last, of what a rule looks at.
#[derive(Drop)]
struct LastMet<'n, 'a> {
    rule: MeaningRule,
    name: &'n [u8],
    last: Option<Token<'a>>,
}

impl<'n, 'a> Passing<'a> for LastMet<'n, 'a> {
    ghost has_passed = { HasMet };

    fn pass(&mut self, statement: &Statement<'a>) -> Result<(), AllocError> {
        self.last = last_in(statement, self.rule, self.name).or(self.last);
        Ok(())
    }
}

/// Where the name was met last in so many statements of the files, of what the rule looks at.
fn last_before<'a>(
    alloc: Global,
    seed: Seed,
    files: &'a [File<'a>],
    count: usize,
    rule: MeaningRule,
    name: &[u8],
) -> Result<Option<Token<'a>>, AllocError>
    requires readable { CanBeRead (map plain_file files.now) }
    requires site { Site (map plain_file files.now) count }
    ensures { IfOk result (λ last. (site : Site (map plain_file files.now) count)
        → option_map plain_token last
        ≡ last_met name.now (flat_map (looked_at rule) site.before)) }
{
    let mut met = LastMet {
        rule,
        name,
        last: None,
    };
    pass_first(alloc, seed, files, count, &mut met)?;
    Ok(met.last)
}

/// Where the name of the token at fault was met last before, of what the rule looks at.
pub(crate) fn last_met_before<'a>(
    alloc: Global,
    seed: Seed,
    files: &'a [File<'a>],
    error: &SemanticError<'a>,
) -> Result<Option<Token<'a>>, AllocError>
    requires { IsSemanticError (map plain_file files.now) error.now }
    ensures { IfOk result (λ last. (site : Site (map plain_file files.now) error.now.before)
        → option_map plain_token last ≡ last_looked_at error.now.rule site.before site.s
        error.now.index (token_at site.s error.now.index).text) }
{
    let name = error.token().text;
    match last_within(error, name) {
        Some(token) => Ok(Some(token)),
        None => last_before(alloc, seed, files, error.before, error.rule, name),
    }
}
