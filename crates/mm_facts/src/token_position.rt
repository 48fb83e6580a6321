//! The position of a byte of a token in its file.

ghost use Rattle.std.specs.Prelude.{◌≡◌, ◌≤◌, ◌<◌, length, map};
ghost use Rattle.mm_base.specs.MostBytes.{most_bytes};
ghost use Rattle.mm_base.specs.Token.{plain_token};
ghost use Rattle.mm_facts.specs.Why.{IsPosition};

use mm_base::Token;

/// The position of a byte of one of the tokens.
pub(crate) fn position_of(placed: &[Token], place: (usize, usize)) -> usize
    requires token { place.0 < length placed.now }
    requires byte { place.1 ≤ most_bytes }
    ensures { IsPosition (map plain_token placed.now) place.0 place.1 result }
{
    placed[place.0].at as usize + place.1
}
