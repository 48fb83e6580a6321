//! Values of the letter code and lines of the layouts, by appendix B of the Metamath book.

ghost use Rattle.std.specs.Prelude.{◌≤◌};

use mm_code::{
    Code, CodeFault, CodeRule, MOST_INDENT, fill_codes, lay_out_compressed, lay_out_normal,
    lay_out_small, letter_count, letters_counted, letters_for, one_spelling, read_codes,
    write_codes,
};
use std::alloc::Global;
use std::test::Fail;

/// Some codes.
pub(crate) const CODES: [Code; 5] = [
    Code::Number(1),
    Code::Tag,
    Code::Number(20),
    Code::Number(21),
    Code::Number(4_294_967_295),
];

/// Their letters.
pub(crate) const LETTERS: &[u8] = b"AZTUAXUXXWWXVUXVXO";

/// Whether the tokens read as these codes.
fn reads_as(alloc: Global, tokens: &[&[u8]], codes: &[Code]) -> Result<bool, Fail> {
    Ok(read_codes(alloc, tokens)?.as_slice() == codes)
}

/// Whether the number alone is written as the token.
fn is_written_as(alloc: Global, number: u32, token: &[u8]) -> Result<bool, Fail>
    requires { 1 ≤ number }
{
    let text = write_codes(alloc, &[Code::Number(number)])?;
    Ok(text.as_slice() == token)
}

/// The token reads as this number alone, and the number is written as the token.
fn stands_for(alloc: Global, token: &[u8], number: u32) -> Result<(), Fail>
    requires { 1 ≤ number }
{
    if !reads_as(alloc, &[token], &[Code::Number(number)])?
        || !is_written_as(alloc, number, token)?
    {
        return Err(Fail::from("another value"));
    }
    Ok(())
}

#[test]
fn values_of_two_letters(rt: HostRuntime) -> Result<(), Fail> {
    stands_for(rt.alloc(), b"A", 1)?;
    stands_for(rt.alloc(), b"T", 20)?;
    stands_for(rt.alloc(), b"UA", 21)?;
    stands_for(rt.alloc(), b"UT", 40)?;
    stands_for(rt.alloc(), b"VA", 41)?;
    stands_for(rt.alloc(), b"YT", 120)
}

#[test]
fn values_of_more_letters(rt: HostRuntime) -> Result<(), Fail> {
    stands_for(rt.alloc(), b"UUA", 121)?;
    stands_for(rt.alloc(), b"YYT", 620)?;
    stands_for(rt.alloc(), b"UUUA", 621)
}

#[test]
fn white_space_cuts_numbers(rt: HostRuntime) -> Result<(), Fail> {
    let tokens = [b"U".as_slice(), b"A".as_slice()];
    assert!(rt; reads_as(rt.alloc(), &tokens, &[Code::Number(21)])?);
    Ok(())
}

#[test]
fn empty_tokens_are_nothing(rt: HostRuntime) -> Result<(), Fail> {
    let tokens = [b"AU".as_slice(), b"".as_slice(), b"UAZ".as_slice()];
    let codes = [Code::Number(1), Code::Number(121), Code::Tag];
    assert!(rt; reads_as(rt.alloc(), &tokens, &codes)?);
    Ok(())
}

#[test]
fn list_is_filled_anew(rt: HostRuntime) -> Result<(), Fail> {
    let mut codes = read_codes(rt.alloc(), &[b"ZZ".as_slice()])?;
    fill_codes(&mut codes, &[b"A".as_slice()])?;
    assert!(rt; codes.as_slice() == [Code::Number(1)].as_slice());
    Ok(())
}

#[test]
fn written_codes_read_back(rt: HostRuntime) -> Result<(), Fail> {
    let text = write_codes(rt.alloc(), &CODES)?;
    assert!(rt; text.as_slice() == LETTERS);
    assert!(rt; reads_as(rt.alloc(), &[text.as_slice()], &CODES)?);
    Ok(())
}

#[test]
fn large_numbers_read_as_the_largest(rt: HostRuntime) -> Result<(), Fail> {
    let largest = [Code::Number(4_294_967_295)];
    assert!(rt; reads_as(rt.alloc(), &[b"XUXXWWXVUXVXP".as_slice()], &largest)?);
    assert!(rt; reads_as(rt.alloc(), &[b"YYYYYYYYYYYYYYYYT".as_slice()], &largest)?);
    Ok(())
}

#[test]
fn no_letters_are_no_code(rt: HostRuntime) -> Result<(), Fail> {
    assert!(rt; reads_as(rt.alloc(), &[], &[])?);
    assert!(rt; reads_as(rt.alloc(), &[b"".as_slice(), b"".as_slice()], &[])?);
    assert!(rt; write_codes(rt.alloc(), &[])?.is_empty());
    Ok(())
}

/// Whether the tokens break the rule.
fn is_broken(alloc: Global, tokens: &[&[u8]], wanted: CodeRule) -> bool {
    match read_codes(alloc, tokens).err() {
        Some(CodeFault::Rule(rule)) => rule == wanted,
        _ => false,
    }
}

#[test]
fn other_bytes_are_no_letters(rt: HostRuntime) {
    let alloc = rt.alloc();
    assert!(rt; is_broken(alloc, &[b"Aa".as_slice()], CodeRule::P4));
    assert!(rt; is_broken(alloc, &[b"Ua".as_slice()], CodeRule::P4));
    assert!(rt; is_broken(alloc, &[b"UZ".as_slice(), b"a".as_slice()], CodeRule::P4));
    assert!(rt; is_broken(alloc, &[b"A@".as_slice()], CodeRule::P4));
}

#[test]
fn numbers_that_do_not_end(rt: HostRuntime) {
    let alloc = rt.alloc();
    assert!(rt; is_broken(alloc, &[b"U".as_slice()], CodeRule::P5));
    assert!(rt; is_broken(alloc, &[b"UZ".as_slice()], CodeRule::P5));
    assert!(rt; is_broken(alloc, &[b"U".as_slice(), b"Z".as_slice()], CodeRule::P5));
}

#[test]
fn normal_lines(rt: HostRuntime) -> Result<(), Fail> {
    let text = lay_out_normal(rt.alloc(), &[b"tt".as_slice(); 25])?;
    let wanted = b"\
      \x20     tt tt tt tt tt tt tt tt tt tt tt tt tt tt tt tt tt tt tt tt tt tt tt tt\n\
      \x20     tt\n";
    assert!(rt; text.as_slice() == wanted.as_slice());
    assert!(rt; lay_out_normal(rt.alloc(), &[])?.is_empty());
    Ok(())
}

/// Whether a label of 70 bytes and the other one are laid out in so many lines and bytes.
fn has_size(alloc: Global, other: &[u8], lines: usize, bytes: usize) -> Result<bool, Fail> {
    let text = lay_out_normal(alloc, &[[b'a'; 70].as_slice(), other])?;
    let ends = text.iter().filter(|byte| **byte == b'\n').count();
    Ok(ends == lines && text.len() == bytes)
}

#[test]
fn a_line_of_79_bytes(rt: HostRuntime) -> Result<(), Fail> {
    assert!(rt; has_size(rt.alloc(), b"bb", 1, 80)?);
    assert!(rt; has_size(rt.alloc(), b"bbb", 2, 87)?);
    Ok(())
}

#[test]
fn a_long_label_has_its_line(rt: HostRuntime) -> Result<(), Fail> {
    let long = [b'x'; 100];
    let text = lay_out_normal(
        rt.alloc(),
        &[b"a".as_slice(), long.as_slice(), b"b".as_slice()],
    )?;
    assert!(rt; text.len() == 8 + 107 + 8);
    assert!(rt; text.starts_with(b"      a\n      xxx") && text.ends_with(b"xxx\n      b\n"));
    Ok(())
}

/// A full line of letters after the list of no labels.
const FULL_LINE: &[u8] = b"\
      \x20     ( )\n\
      \x20     AAAAAAAAAAAAAAAAAAAAAAAAAAAAAAAAAAAAAAAAAAAAAAAAAAAAAAAAAAAAAAAAAAAAAAAAA\n";

#[test]
fn a_list_alone(rt: HostRuntime) -> Result<(), Fail> {
    let text = lay_out_compressed(rt.alloc(), &[], b"")?;
    assert!(rt; text.as_slice() == b"      ( )\n".as_slice());
    Ok(())
}

#[test]
fn a_full_line_of_letters(rt: HostRuntime) -> Result<(), Fail> {
    let text = lay_out_compressed(rt.alloc(), &[], &[b'A'; 73])?;
    assert!(rt; text.as_slice() == FULL_LINE);
    Ok(())
}

#[test]
fn one_letter_more(rt: HostRuntime) -> Result<(), Fail> {
    let text = lay_out_compressed(rt.alloc(), &[], &[b'A'; 74])?;
    assert!(rt; text.len() == FULL_LINE.len() + 8);
    assert!(rt; text.starts_with(FULL_LINE) && text.ends_with(b"\n      A\n"));
    Ok(())
}

#[test]
fn compressed_lines(rt: HostRuntime) -> Result<(), Fail> {
    let labels = [b"nil".as_slice(), b"cat".as_slice()];
    let text = lay_out_compressed(rt.alloc(), &labels, b"AABZCB")?;
    assert!(rt; text.as_slice() == b"      ( nil cat )\n      AABZCB\n".as_slice());
    Ok(())
}

#[test]
fn letters_of_numbers(rt: HostRuntime) {
    assert!(rt; letters_for(1) == 1 && letters_for(20) == 1);
    assert!(rt; letters_for(21) == 2 && letters_for(120) == 2);
    assert!(rt; letters_for(121) == 3 && letters_for(620) == 3);
    assert!(rt; letters_for(621) == 4 && letters_for(4_294_967_295) == 13);
    assert!(rt; letters_for(0) == 0);
}

#[test]
fn letters_of_codes(rt: HostRuntime) {
    assert!(rt; letter_count(&CODES) == LETTERS.len());
    assert!(rt; letter_count(&[Code::Tag, Code::Tag]) == 2);
    assert!(rt; letter_count(&[]) == 0);
}

/// Whether labels and letters are laid out as this text in the lines of real libraries.
fn is_small(
    alloc: Global,
    indent: usize,
    labels: &[&[u8]],
    letters: &[u8],
    wanted: &[u8],
) -> Result<bool, Fail>
    requires { indent ≤ 39 }
{
    let text = lay_out_small(alloc, indent, labels, letters)?;
    Ok(text.as_slice() == wanted)
}

#[test]
fn a_short_proof_is_one_line(rt: HostRuntime) -> Result<(), Fail> {
    let labels = [b"ax-1".as_slice(), b"mp2".as_slice()];
    let wanted = b"\n  ( ax-1 mp2 ) ABBCZDE ";
    assert!(rt; is_small(rt.alloc(), 2, &labels, b"ABBCZDE", wanted)?);
    assert!(rt; is_small(rt.alloc(), 0, &labels, b"A", b"\n( ax-1 mp2 ) A ")?);
    assert!(rt; is_small(rt.alloc(), 0, &labels, b"", b"\n( ax-1 mp2 ) ")?);
    Ok(())
}

#[test]
fn no_labels_have_two_spaces(rt: HostRuntime) -> Result<(), Fail> {
    assert!(rt; is_small(rt.alloc(), 6, &[], b"B", b"\n      (  ) B ")?);
    Ok(())
}

// `an12` of iset.mm, as it stands there: with ` $.` the line has 79 bytes.
#[test]
fn the_end_fits_exactly(rt: HostRuntime) -> Result<(), Fail> {
    let labels: [&[u8]; 5] = [b"wa", b"ancom", b"anbi1i", b"anass", b"3bitr3i"];
    let wanted = b"\n\
      \x20   ( wa ancom anbi1i anass 3bitr3i ) ABDZCDBADZCDABCDDBACDDIJCABEFABCGBACGH ";
    let letters = b"ABDZCDBADZCDABCDDBACDDIJCABEFABCGBACGH";
    assert!(rt; is_small(rt.alloc(), 4, &labels, letters, wanted)?);
    Ok(())
}

// `un12` of iset.mm: with ` $.` the line would have 80 bytes.
#[test]
fn the_end_has_a_line_of_its_own(rt: HostRuntime) -> Result<(), Fail> {
    let labels: [&[u8]; 5] = [b"cun", b"uncom", b"uneq1i", b"unass", b"3eqtr3i"];
    let wanted = b"\n\
      \x20   ( cun uncom uneq1i unass 3eqtr3i ) ABDZCDBADZCDABCDDBACDDIJCABEFABCGBACGH\n\
      \x20   ";
    let letters = b"ABDZCDBADZCDABCDDBACDDIJCABEFABCGBACGH";
    assert!(rt; is_small(rt.alloc(), 4, &labels, letters, wanted)?);
    Ok(())
}

// `ax0lt1` of iset.mm: the line of the list has 79 bytes.
#[test]
fn letters_begin_a_line(rt: HostRuntime) -> Result<(), Fail> {
    let labels: [&[u8]; 14] = [
        b"c0r", b"cop", b"c1r", b"cc0", b"c1", b"cltrr", b"wbr", b"cltr", b"0lt1sr", b"ltresr",
        b"mpbir", b"df-0", b"df-1", b"3brtr4i",
    ];
    let wanted = b"\n\
      \x20   ( c0r cop c1r cc0 c1 cltrr wbr cltr 0lt1sr ltresr mpbir df-0 df-1 3brtr4i )\n\
      \x20   AABZCABZDEFOPFGACHGIACJKLMN ";
    let letters = b"AABZCABZDEFOPFGACHGIACJKLMN";
    assert!(rt; is_small(rt.alloc(), 4, &labels, letters, wanted)?);
    Ok(())
}

// `gtso` of iset.mm: one letter stands on the line of the list.
#[test]
fn one_letter_fits(rt: HostRuntime) -> Result<(), Fail> {
    let labels: [&[u8]; 16] = [
        b"vx", b"cr", b"clt", b"wor", b"ccnv", b"ltso", b"cc0", b"wcel", b"cv", b"wex", b"wb",
        b"0re", b"elex2", b"cnvsom", b"mp2b", b"mpbi",
    ];
    let wanted = b"\n\
      \x20   ( vx cr clt wor ccnv ltso cc0 wcel cv wex wb 0re elex2 cnvsom mp2b mpbi ) B\n\
      \x20   CDZBCEDZFGBHAIBHAJQRKLAGBMABCNOP ";
    let letters = b"BCDZBCEDZFGBHAIBHAJQRKLAGBMABCNOP";
    assert!(rt; is_small(rt.alloc(), 4, &labels, letters, wanted)?);
    Ok(())
}

// A label that no line has room for, and the letters behind it.
#[test]
fn a_long_label_stands_alone(rt: HostRuntime) -> Result<(), Fail> {
    let labels: [&[u8]; 2] = [
        b"a",
        b"xxxxxxxxxxxxxxxxxxxxxxxxxxxxxxxxxxxxxxxxxxxxxxxxxxxxxxxxxxxxxxxxxxxxxxxxxxxxxxxxx",
    ];
    let wanted = b"\n\
      \x20 ( a\n\
      \x20 xxxxxxxxxxxxxxxxxxxxxxxxxxxxxxxxxxxxxxxxxxxxxxxxxxxxxxxxxxxxxxxxxxxxxxxxxxxxxxxxx\n\
      \x20 ) AB ";
    assert!(rt; is_small(rt.alloc(), 2, &labels, b"AB", wanted)?);
    Ok(())
}

// Lines of 40 bytes behind 39 spaces: `( ` and a label, a full line of letters, and `$.`.
#[test]
fn the_widest_indent(rt: HostRuntime) -> Result<(), Fail> {
    let labels: [&[u8]; 1] = [b"yyyyyyyyyyyyyyyyyyyyyyyyyyyyyyyyyyyyyy"];
    let wanted = b"\n\
      \x20                                      ( yyyyyyyyyyyyyyyyyyyyyyyyyyyyyyyyyyyyyy\n\
      \x20                                      ) AAAAAAAAAAAAAAAAAAAAAAAAAAAAAAAAAAAAAA\n\
      \x20                                      AAAAAAAAAAAAAAAAAAAAAAAAAAAAAAAAAAAAAAAA\n\
      \x20                                      A ";
    assert!(rt; is_small(rt.alloc(), MOST_INDENT, &labels, &[b'A'; 79], wanted)?);
    Ok(())
}

#[test]
fn laws_are_called() {
    one_spelling();
    letters_counted();
}
