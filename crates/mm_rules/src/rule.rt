//! The rules, by the codes that are printed.

ghost use Rattle.std.specs.Prelude.{◌≡◌};
ghost use Rattle.mm_rules.specs.RuleCodes.{ask_code, code_of};

use mm_frame::MeaningRule;
use mm_step::ProofRule;
use mm_text::{LoadRule, TextRule};
use std::fmt;
use std::fmt::Write;
use thiserror::Error;

/// Why a question about a theorem has no answer.
#[derive(Clone, Copy, PartialEq, Eq, Debug, Error)]
pub enum AskRule {
    /// No statement has the label.
    #[error("no statement has the label")]
    A1,
    /// The label isn't that of a `$p`.
    #[error("the label is not that of a theorem")]
    A2,
    /// The proof of the `$p` is incomplete.
    #[error("the proof is incomplete")]
    A3,
    /// The normal proof of the `$p` has over 16,777,216 labels.
    #[error("the normal proof has too many labels")]
    L2,
}

impl AskRule {
    /// The printed code.
    pub fn code(self) -> &'static [u8]
        ensures { result.now ≡ ask_code self }
    {
        match self {
            AskRule::A1 => b"A1",
            AskRule::A2 => b"A2",
            AskRule::A3 => b"A3",
            AskRule::L2 => b"L2",
        }
    }
}

/// Every rule that a reply may name, but A4, which is told by `axioms --to` alone (`ChainFault` of
/// mm_axioms). `docs/RULES.md` says of each where it is broken, with an example.
#[derive(Clone, Copy, PartialEq, Eq, Debug)]
pub enum Rule {
    /// A rule of the files as a whole.
    Load(LoadRule),
    /// A rule of the text, or of the form of a statement.
    Text(TextRule),
    /// A rule of meaning.
    Meaning(MeaningRule),
    /// A rule of proofs.
    Proof(ProofRule),
    /// A rule of questions.
    Ask(AskRule),
}

impl Rule {
    /// The printed code.
    pub fn code(self) -> &'static [u8]
        ensures { result.now ≡ code_of self }
    {
        match self {
            Rule::Load(rule) => rule.code(),
            Rule::Text(rule) => rule.code(),
            Rule::Meaning(rule) => rule.code(),
            Rule::Proof(rule) => rule.code(),
            Rule::Ask(rule) => rule.code(),
        }
    }
}

impl fmt::Display for Rule {
    fn fmt<W: Write>(&self, f: &mut fmt::Formatter<W>) -> fmt::Result {
        for byte in self.code() {
            f.write_char(char::from(*byte))?;
        }
        Ok(())
    }
}
