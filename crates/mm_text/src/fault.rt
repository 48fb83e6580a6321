//! Why files could not be read.

ghost use Rattle.std.specs.Prelude.{◌≡◌};
ghost use Rattle.mm_text.specs.RuleCodes.{load_code, text_code};
ghost use Rattle.mm_text.specs.declared.fault.TextFault.TheVariants.{Memory};

use mm_base::Token;
use std::alloc::{AllocError, AllocFailed};
use std::fmt;
use std::fmt::Write;
use thiserror::Error;

/// What is wrong with the handed files as a whole.
#[derive(Clone, Copy, PartialEq, Eq, Debug)]
pub enum LoadRule {
    /// No file was handed in.
    F1,
    /// Two handed names are equal.
    F2,
    /// The files hold over 1,073,741,824 bytes in all.
    F3,
}

impl LoadRule {
    /// The printed code.
    pub fn code(self) -> &'static [u8]
        ensures { result.now ≡ load_code self }
    {
        match self {
            LoadRule::F1 => b"F1",
            LoadRule::F2 => b"F2",
            LoadRule::F3 => b"F3",
        }
    }
}

/// What is wrong with the text (X) or with the form of a statement (S).
#[derive(Clone, Copy, PartialEq, Eq, Debug)]
pub enum TextRule {
    /// A token holds a byte outside 0x21 to 0x7E.
    X1,
    /// A file ends in a comment.
    X2,
    /// In a comment a token other than `$)` holds `$(` or `$)`.
    X3,
    /// `$)` outside a comment, or `$]` outside an inclusion.
    X4,
    /// An inclusion that isn't `$[ name $]`.
    X5,
    /// `$[` in a block or in a statement.
    X6,
    /// The file that an inclusion names was not handed in.
    X7,
    /// A file ends in a statement.
    X8,
    /// A token outside comments and inclusions holds `$` and is no keyword.
    X9,
    /// A keyword that begins no statement stands where one should begin.
    S1,
    /// A label holds another byte than a label may.
    S2,
    /// After a label comes no `$f`, `$e`, `$a` or `$p`.
    S3,
    /// In a statement's body stands a keyword that can't stand there.
    S4,
    /// `$.` or `$=` after too few symbols, or a third symbol in a `$f`.
    S5,
    /// `$}` with no block open.
    S6,
    /// The top file ends with a block open.
    S7,
}

impl TextRule {
    /// The printed code.
    pub fn code(self) -> &'static [u8]
        ensures { result.now ≡ text_code self }
    {
        match self {
            TextRule::X1 => b"X1",
            TextRule::X2 => b"X2",
            TextRule::X3 => b"X3",
            TextRule::X4 => b"X4",
            TextRule::X5 => b"X5",
            TextRule::X6 => b"X6",
            TextRule::X7 => b"X7",
            TextRule::X8 => b"X8",
            TextRule::X9 => b"X9",
            TextRule::S1 => b"S1",
            TextRule::S2 => b"S2",
            TextRule::S3 => b"S3",
            TextRule::S4 => b"S4",
            TextRule::S5 => b"S5",
            TextRule::S6 => b"S6",
            TextRule::S7 => b"S7",
        }
    }
}

/// What a message says of a statement's label: a blank and the label, or nothing where there is
/// none.
#[derive(Drop)]
struct LabelWords<'b, 'a>(&'b Option<Token<'a>>);

impl fmt::Display for LabelWords<'_, '_> {
    fn fmt<W: Write>(&self, f: &mut fmt::Formatter<W>) -> fmt::Result {
        if let Some(label) = self.0 {
            f.write_char(' ')?;
            for byte in label.text {
                f.write_char(char::from(*byte))?;
            }
        }
        Ok(())
    }
}

/// Why no further statement can be read.
#[derive(Clone, Copy, Debug, Drop, Error)]
pub enum TextFault<'a> {
    /// The handed files break a rule as a whole.
    #[error("the files break {0:?}")]
    Load(LoadRule),
    /// The first fault met in the text.
    #[error("file {file}, byte {at}: statement {statement}{} breaks {rule:?}", LabelWords(.label))]
    Fault {
        rule: TextRule,
        /// The number of the handed file in which it stands, from 0.
        file: usize,
        /// The position of the faulty token in that file, from 0.
        at: u32,
        /// The number of the statement at fault, from 1: one more than the whole statements
        /// before its position.
        statement: usize,
        /// The label of the statement in which the fault stands, if it was read.
        label: Option<Token<'a>>,
    },
    /// A growth was refused.
    #[error("out of memory")]
    Memory,
}

impl<'a> From<AllocError> for TextFault<'a> {
    ghost from_gives = { λ _ e. e ≡ Memory };

    fn from(_e: AllocError) -> TextFault<'a> {
        TextFault::Memory
    }
}

impl<'a, T: Drop> From<AllocFailed<T>> for TextFault<'a> {
    ghost from_gives = { λ _ e. e ≡ Memory };

    fn from(_e: AllocFailed<T>) -> TextFault<'a> {
        TextFault::Memory
    }
}
