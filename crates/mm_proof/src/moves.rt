//! The moves of a proof, with numbers for labels (the Metamath book, section 4.3 and appendix B).

ghost use Rattle.std.specs.Prelude.{◌≡◌, ◌≤◌, length};
ghost use Rattle.mm_base.specs.MostBytes.{most_bytes};

use mm_code::Code;
use mm_frame::LabelId;
use mm_step::Profile;
use std::marker::Model;

/// The moves of a proof, or of the known prefix of an incomplete one, read from its tokens, and the
/// profile under which they are judged. They are codes, whose first numbers stand for the entries
/// and those above for tags.
#[derive(Drop)]
pub struct Steps {
    pub profile: Profile,
    pub prefix: bool,
    pub entries: Vec<LabelId>,
    pub codes: Vec<Code>,
    /// As many as the tokens of a proof have bytes, at most.
    ghost few: { length codes.items ≤ most_bytes },
}

impl Model for Steps {
    ghost use Rattle.mm_proof.specs.ReadSteps.{ReadSteps};

    ghost Value = { ReadSteps };

    ghost use Rattle.std.specs.Prelude.{All};
    ghost use Rattle.mm_code.specs.Letters.{HasSpelling};
    ghost use Rattle.mm_proof.specs.Mirror.CodeSteps.{moves_of};

    ghost view = { λ s. record {
      profile = s.profile;
      prefix = s.prefix;
      moves = moves_of s.entries.items s.codes.items;
    } };

    // Each code has a spelling.
    ghost invariant = { λ s. All HasSpelling s.codes.items };
}

impl Steps {
    /// Whether these are the moves of the checked prefix of an incomplete proof: those before its
    /// first unknown step (the Metamath book, section 4.4.4).
    pub fn is_prefix(&self) -> bool
        ensures { result ≡ self.now.prefix }
    {
        self.prefix
    }
}

/// What the tokens of a proof are.
#[derive(Drop)]
pub enum Parsed {
    /// A token holds a `?`: a step is unknown. These are the moves of the checked prefix.
    Incomplete(Steps),
    /// The moves.
    Steps(Steps),
}
