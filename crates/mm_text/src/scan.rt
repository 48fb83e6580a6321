//! Where tokens begin and end in the bytes of a file.

ghost use Rattle.std.specs.Prelude.{◌≡◌, ℕ, ◌<◌, ◌≤◌, ◌+◌, ◌∷◌, ◌⊎◌, true, false, length, drop};
ghost use Rattle.std.specs.Prelude.{slice_index, slice_range, IfSome};
ghost use Rattle.std.specs.List.{list_all};
ghost use Rattle.mm_base.specs.Token.{is_space, tokens_from};
ghost use Rattle.mm_text.specs.Items.{holds_dollar};
ghost use Rattle.mm_text.specs.Mirror.Position.{is_legal, is_quiet, IsLegalPrefix, IsLegalUpTo};
ghost use Rattle.mm_text.specs.Mirror.Position.{IsWordTo};

use crate::sought::{Low, Sought, first_sought};

/// Whether a byte is white space.
pub fn is_space(byte: u8) -> bool
    ensures { result ≡ is_space byte }
{
    // The first test alone turns away nearly every byte of a database.
    byte <= b' ' && matches!(byte, b' ' | b'\n' | b'\t' | b'\r' | 12)
}

/// Whether a comment goes on after a byte, which isn't at fault in one.
pub fn is_quiet(byte: u8) -> bool
    ensures { result ≡ is_quiet byte }
{
    byte != b'$' && (byte > b' ' && byte <= b'~' || is_space(byte))
}

/// The position of the first byte from a position on that isn't white space, or the file's end.
pub fn skip_space(bytes: &[u8], start: usize) -> usize
    requires { start ≤ length bytes.now }
    ensures not_before { start ≤ result }
    ensures within { result ≤ length bytes.now }
    ensures same_tokens { (file : ℕ) → tokens_from file start (drop start bytes.now)
        ≡ tokens_from file result (drop result bytes.now) }
    ensures space { (k : ℕ) → start ≤ k → k < result → is_space (slice_index bytes.now k) ≡ true }
    ensures stops { result < length bytes.now → is_space (slice_index bytes.now result) ≡ false }
{
    for at in start..bytes.len() {
        if !is_space(bytes[at]) {
            return at;
        }
    }
    bytes.len()
}

/// The end of the run of bytes that aren't white space and begin at a position.
///
/// It is a call of its own, so that the loop of `token_end` keeps nothing for it.
#[inline(never)]
fn ink_end(bytes: &[u8], start: usize) -> usize
    requires within { start < length bytes.now }
    requires begins { is_space (slice_index bytes.now start) ≡ false }
    ensures after { start < result }
    ensures within { result ≤ length bytes.now }
    ensures ink { (k : ℕ) → start ≤ k → k < result → is_space (slice_index bytes.now k) ≡ false }
    ensures stops { result < length bytes.now → is_space (slice_index bytes.now result) ≡ true }
{
    for at in start + 1..bytes.len() {
        if is_space(bytes[at]) {
            return at;
        }
    }
    bytes.len()
}

/// The end of the token that begins at a position, and whether it holds a `$`.
///
/// White space and `$` are less than nearly all other bytes, so that one test passes over a whole
/// word of up to 16 bytes. Where a `$` is met another loop goes on, so that this one needn't keep
/// whether one was.
pub fn token_end(bytes: &[u8], start: usize) -> (usize, bool)
    requires within { start < length bytes.now }
    requires begins { is_space (slice_index bytes.now start) ≡ false }
    ensures after { start < result.0 }
    ensures within { result.0 ≤ length bytes.now }
    ensures token { (file : ℕ) → tokens_from file start (drop start bytes.now)
        ≡ record { text = slice_range bytes.now start result.0; file = file; at = start }
        ∷ tokens_from file result.0 (drop result.0 bytes.now) }
    ensures ink { (k : ℕ) → start ≤ k → k < result.0 → is_space (slice_index bytes.now k) ≡ false }
    ensures dollar { result.1 ≡ holds_dollar (slice_range bytes.now start result.0) }
    ensures stops { result.0 < length bytes.now
        → is_space (slice_index bytes.now result.0) ≡ true }
{
    let mut from = start;
    'words: loop {
        let at = first_sought::<Low>(bytes, from);
        if at == bytes.len() {
            return (at, false);
        }
        let byte = bytes[at];
        if is_space(byte) {
            return (at, false);
        }
        if byte == b'$' {
            let end = ink_end(bytes, at);
            return (end, true);
        }
        from = at + 1;
    }
}

/// The end of the word that begins at a position, where one test tells it: a word without `$`, of
/// fewer bytes than are looked at at once, that white space comes after. Nearly all words are such.
#[inline(always)]
pub fn short_word_end(bytes: &[u8], start: usize) -> Option<usize>
    requires within { start < length bytes.now }
    requires begins { is_space (slice_index bytes.now start) ≡ false }
    ensures { IfSome result (IsWordTo bytes.now start) }
{
    if bytes.len() - start < Low::lanes() {
        return None;
    }
    let run = Low::passed_run(bytes, start);
    if run < Low::lanes() && is_space(bytes[start + run]) {
        Some(start + run)
    } else {
        None
    }
}

/// The beginning of the run of bytes that aren't white space and end with the one at a position, no
/// further back than `low`.
pub fn token_start(bytes: &[u8], low: usize, at: usize) -> usize
    requires from { low ≤ at }
    requires within { at < length bytes.now }
    requires ends { is_space (slice_index bytes.now at) ≡ false }
    ensures from { low ≤ result }
    ensures before { result ≤ at }
    ensures ink { (k : ℕ) → result ≤ k → k ≤ at → is_space (slice_index bytes.now k) ≡ false }
    ensures apart { (result ≡ low)
        ⊎ ((k : ℕ) → k + 1 ≡ result → is_space (slice_index bytes.now k) ≡ true) }
{
    let mut start = at;
    while start > low {
        if is_space(bytes[start - 1]) {
            return start;
        }
        start -= 1;
    }
    start
}

/// Whether a byte may stand in a file: white space, or a byte that a token may hold.
fn is_legal(byte: u8) -> bool
    ensures { result ≡ is_legal byte }
{
    (byte >= b' ' && byte <= b'~') || (byte >= b'\t' && byte <= b'\r' && byte != 11)
}

/// Whether all bytes may stand in a file. Each is looked at, whatever those before it are: without
/// a branch for each, many are judged by one instruction.
fn are_legal(bytes: &[u8]) -> bool
    ensures { result ≡ list_all is_legal bytes.now }
{
    let mut so_far = true;
    for at in 0..bytes.len() {
        so_far &= is_legal(bytes[at]);
    }
    so_far
}

/// Whether all bytes are printable ones, spaces and line feeds, as those of nearly every file are:
/// two bounds on them tell it, which is faster than to judge each.
#[tactic(auto, using(crate::proofs::Tokens::ManyBytes::plain_legal))]
fn are_plain(bytes: &[u8]) -> bool
    ensures { result ≡ true → list_all is_legal bytes.now ≡ true }
{
    let mut least = u8::MAX;
    let mut greatest = 0;
    for at in 0..bytes.len() {
        let byte = bytes[at];
        least = least.min(if byte == b'\n' { u8::MAX } else { byte });
        greatest = greatest.max(byte);
    }
    least >= b' ' && greatest <= b'~'
}

/// Whether all bytes of a block may stand in a file.
fn is_legal_block(block: &[u8]) -> bool
    ensures { result ≡ list_all is_legal block.now }
{
    are_plain(block) || are_legal(block)
}

/// So many bytes are judged at once.
const BLOCK: usize = 1024;

/// The end of the whole blocks from a position on in which all bytes may stand in a file, up to the
/// first that ends at a wanted position or after it.
fn legal_blocks(bytes: &[u8], start: usize, wanted: usize) -> usize
    requires { IsLegalPrefix bytes.now start }
    ensures from { start ≤ result }
    ensures prefix { IsLegalPrefix bytes.now result }
{
    let mut end = start;
    while end < wanted && bytes.len() - end >= BLOCK {
        if !is_legal_block(&bytes[end..end + BLOCK]) {
            return end;
        }
        end += BLOCK;
    }
    end
}

/// Judges the bytes from a position on, before which all may stand in a file, up to a wanted one at
/// least. Answers the position of the first that may not, or one that isn't before the wanted.
fn legal_up_to(bytes: &[u8], start: usize, wanted: usize) -> usize
    requires prefix { IsLegalPrefix bytes.now start }
    requires within { wanted ≤ length bytes.now }
    ensures from { start ≤ result }
    ensures judged { IsLegalUpTo bytes.now result wanted }
{
    let end = legal_blocks(bytes, start, wanted);
    for at in end..wanted {
        if !is_legal(bytes[at]) {
            return at;
        }
    }
    end.max(wanted)
}

/// So many bytes are judged beyond those that are wanted, so at least four whole blocks. Then they
/// are read, which finds them in the processor's cache, and the next ones come from memory
/// meanwhile.
const AHEAD: usize = 4 * BLOCK - 1;

/// As `legal_up_to`, and up to four blocks further.
#[inline(never)]
pub fn legal_end(bytes: &[u8], start: usize, wanted: usize) -> usize
    requires prefix { IsLegalPrefix bytes.now start }
    requires within { wanted ≤ length bytes.now }
    ensures from { start ≤ result }
    ensures judged { IsLegalUpTo bytes.now result wanted }
{
    let further = AHEAD.min(bytes.len() - wanted);
    legal_up_to(bytes, start, wanted + further)
}
