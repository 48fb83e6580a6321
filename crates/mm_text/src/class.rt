//! What a token is by its bytes alone: a keyword, another word, or a fault.

ghost use Rattle.std.specs.Prelude.{◌≡◌, true};
ghost use Rattle.std.specs.List.{list_all};
ghost use Rattle.mm_base.specs.Token.{is_label_byte, is_label};
ghost use Rattle.mm_text.specs.Items.{holds_dollar};
ghost use Rattle.mm_text.specs.Mirror.Class.{IsReadApart, ClassIs};

use crate::fault::TextRule;

/// The keywords that statements are made of: all but those of comments and inclusions, which are
/// read apart.
#[derive(Clone, Copy, PartialEq, Eq)]
pub enum Keyword {
    /// `$c`
    Constants,
    /// `$v`
    Variables,
    /// `$d`
    Distinct,
    /// `$f`
    Floating,
    /// `$e`
    Essential,
    /// `$a`
    Axiom,
    /// `$p`
    Provable,
    /// `$.`
    Stop,
    /// `$=`
    Equals,
    /// `${`
    Opening,
    /// `$}`
    Closing,
}

/// What a token is.
#[derive(Clone, Copy)]
pub enum Class {
    /// It breaks a rule whatever stands before it.
    Wrong(TextRule),
    Keyword(Keyword),
    /// A label, a math symbol or a token of a proof: it holds no `$`.
    Word,
}

/// Whether each byte may stand in a label.
fn are_label_bytes(text: &[u8]) -> bool
    ensures { result ≡ list_all is_label_byte text.now }
{
    text.iter().all(
        |byte| matches!(*byte, b'A'..=b'Z' | b'a'..=b'z' | b'0'..=b'9' | b'-' | b'_' | b'.'),
    )
}

/// Whether it may be a label: it has a byte, and each may stand in a label.
pub fn is_label(text: &[u8]) -> bool
    ensures { result ≡ is_label text.now }
{
    !text.is_empty() && are_label_bytes(text)
}

/// What a token that holds a `$` is, outside comments and inclusions and where it begins none.
pub fn class_of_dollar(text: &[u8]) -> Class
    requires unread { ¬ (IsReadApart text.now) }
    requires dollar { holds_dollar text.now ≡ true }
    ensures { ClassIs text.now result }
{
    match text {
        b"$c" => Class::Keyword(Keyword::Constants),
        b"$v" => Class::Keyword(Keyword::Variables),
        b"$d" => Class::Keyword(Keyword::Distinct),
        b"$f" => Class::Keyword(Keyword::Floating),
        b"$e" => Class::Keyword(Keyword::Essential),
        b"$a" => Class::Keyword(Keyword::Axiom),
        b"$p" => Class::Keyword(Keyword::Provable),
        b"$." => Class::Keyword(Keyword::Stop),
        b"$=" => Class::Keyword(Keyword::Equals),
        b"${" => Class::Keyword(Keyword::Opening),
        b"$}" => Class::Keyword(Keyword::Closing),
        b"$]" => Class::Wrong(TextRule::X4),
        _ => Class::Wrong(TextRule::X9),
    }
}
