//! A few words for each rule: what is wrong where it is broken.

ghost use Rattle.std.specs.Prelude.{◌≡◌};
ghost use Rattle.mm_rules.specs.Meanings.{load_words, text_words, meaning_words, proof_words};
ghost use Rattle.mm_rules.specs.Meanings.{ask_words, meaning_of};

use crate::rule::{AskRule, Rule};
use mm_frame::MeaningRule;
use mm_step::ProofRule;
use mm_text::{LoadRule, TextRule};

/// The words for a rule of the files as a whole.
fn load_meaning(rule: LoadRule) -> &'static [u8]
    ensures { result.now ≡ load_words rule }
{
    match rule {
        LoadRule::F1 => b"no file was handed in",
        LoadRule::F2 => b"two handed names are equal",
        LoadRule::F3 => b"the files hold more than 1,073,741,824 bytes",
    }
}

/// The words for a rule of the text, or of the form of a statement.
fn text_meaning(rule: TextRule) -> &'static [u8]
    ensures { result.now ≡ text_words rule }
{
    match rule {
        TextRule::X1 => b"a token holds a byte outside 0x21 to 0x7E",
        TextRule::X2 => b"a comment isn't closed in its file",
        TextRule::X3 => b"a token in a comment holds $( or $)",
        TextRule::X4 => b"$) stands outside a comment, or $] outside an inclusion",
        TextRule::X5 => b"an inclusion isn't of the form $[ NAME $]",
        TextRule::X6 => b"$[ stands in a block or in a statement",
        TextRule::X7 => b"the included file wasn't handed in",
        TextRule::X8 => b"a statement isn't ended in its file",
        TextRule::X9 => b"a token with $ is no keyword",
        TextRule::S1 => b"the keyword begins no statement",
        TextRule::S2 => b"a label holds a byte that no label may hold",
        TextRule::S3 => b"no $f, $e, $a or $p follows the label",
        TextRule::S4 => b"the keyword can't stand in this place",
        TextRule::S5 => b"a statement has too few symbols, or a $f has a third one",
        TextRule::S6 => b"$} stands where no block is open",
        TextRule::S7 => b"a block isn't closed in the top file",
    }
}

/// The words for a rule of meaning.
fn statement_meaning(rule: MeaningRule) -> &'static [u8]
    ensures { result.now ≡ meaning_words rule }
{
    match rule {
        MeaningRule::M1 => b"a $c stands in a block",
        MeaningRule::M2 => b"a symbol of a $c was declared before, or stands twice in it",
        MeaningRule::M3 => b"a symbol of a $v is active or a constant, or stands twice in it",
        MeaningRule::M4 => b"a declared symbol is an earlier label",
        MeaningRule::M5 => b"the label is an earlier label",
        MeaningRule::M6 => b"the label is a declared symbol",
        MeaningRule::M7 => b"a symbol isn't active",
        MeaningRule::M8 => b"a member of a $d is a constant",
        MeaningRule::M9 => b"a member stands twice in a $d",
        MeaningRule::M10 => b"the type code of a $f is a variable",
        MeaningRule::M11 => b"the second symbol of a $f is a constant",
        MeaningRule::M12 => b"the variable of a $f has an active $f",
        MeaningRule::M13 => b"an earlier $f gave the variable another type code",
        MeaningRule::M14 => b"the first symbol is a variable",
        MeaningRule::M15 => b"a variable has no active $f",
    }
}

/// The words for a rule of proofs.
fn proof_meaning(rule: ProofRule) -> &'static [u8]
    ensures { result.now ≡ proof_words rule }
{
    match rule {
        ProofRule::P1 => b"the ( of a compressed proof isn't closed",
        ProofRule::P2 => b"no earlier statement has the label",
        ProofRule::P3 => b"a hypothesis isn't active",
        ProofRule::P4 => b"a byte of the letters isn't one of A to Z",
        ProofRule::P5 => b"a number in the letters isn't ended",
        ProofRule::P6 => b"a number exceeds those of hypotheses, listed labels and tags",
        ProofRule::P7 => b"a Z comes before any step",
        ProofRule::P8 => b"the stack has fewer entries than the step takes",
        ProofRule::P9 => b"an entry has another type than its hypothesis asks",
        ProofRule::P10 => b"an entry isn't what its hypothesis asks",
        ProofRule::P11 => b"what replaces distinct variables shares a variable",
        ProofRule::P12 => b"variables aren't stated to be distinct",
        ProofRule::P13 => b"the proof doesn't leave exactly one entry",
        ProofRule::P14 => b"the proof proves something else than is stated",
        ProofRule::P15 => b"the list or a Z isn't as the strict profile demands",
        ProofRule::L1 => b"an expression is too long",
    }
}

/// The words for a rule of questions.
fn ask_meaning(rule: AskRule) -> &'static [u8]
    ensures { result.now ≡ ask_words rule }
{
    match rule {
        AskRule::A1 => b"no statement has the label",
        AskRule::A2 => b"the label isn't that of a theorem",
        AskRule::A3 => b"the proof is incomplete",
        AskRule::L2 => b"the normal proof has too many labels",
    }
}

/// What is wrong where the rule is broken.
pub fn meaning(rule: Rule) -> &'static [u8]
    ensures { result.now ≡ meaning_of rule }
{
    match rule {
        Rule::Load(rule) => load_meaning(rule),
        Rule::Text(rule) => text_meaning(rule),
        Rule::Meaning(rule) => statement_meaning(rule),
        Rule::Proof(rule) => proof_meaning(rule),
        Rule::Ask(rule) => ask_meaning(rule),
    }
}
