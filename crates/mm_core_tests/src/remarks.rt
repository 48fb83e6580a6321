//! What stands in comments before statements: which comment that is, marks, and mathboxes.

use mm_text::{comment_before, headings_between, mathbox_at, says_before};
use std::test::Fail;

const USAGE: &[u8] = b"(New usage is discouraged.)";

/// A file, and whether its last token is marked by the comment before it.
#[derive(Clone, Copy)]
struct Marked(&'static [u8], bool);

#[test]
fn reads_marks(rt: HostRuntime) -> Result<(), Fail> {
    for Marked(bytes, wanted) in [
        Marked(b"$( (New usage is discouraged.) $) ax", true),
        Marked(
            b"$( A law.\n   (New\n   usage is\tdiscouraged.) $)\n\n  ax",
            true,
        ),
        Marked(b"$( (New usage is discouraged.) $) $( More. $) ax", false),
        Marked(b"$( More. $) $( (New usage is discouraged.) $) ax", true),
        Marked(b"$( (New usage is discouraged.) $) ${ ax", false),
        Marked(b"$( ( New usage is discouraged.) $) ax", false),
        Marked(b"$( (New usage is discouraged. ) $) ax", false),
        Marked(b"$( (new usage is discouraged.) $) ax", false),
        Marked(b"$( (Proof modification is discouraged.) $) ax", false),
        Marked(b"ax", false),
    ] {
        assert!(rt; bytes.len() >= 2);
        assert_eq!(rt;
            says_before(bytes, bytes.len() - 2, USAGE),
            wanted,
            "at {bytes:?}"
        );
    }
    Ok(())
}

#[test]
fn finds_comments(rt: HostRuntime) -> Result<(), Fail> {
    for (bytes, wanted) in [
        (b"$( A. $) ax".as_slice(), Some((0, 6))),
        (b"$( A. $) $( B.\r\n $)\r\n\tax".as_slice(), Some((9, 17))),
        (b"$( A. $) ax $a x $. ax".as_slice(), None),
        (b"$( A. $) ${ ax".as_slice(), None),
        (b" ax".as_slice(), None),
    ] {
        assert!(rt; bytes.len() >= 2);
        let found = comment_before(bytes, bytes.len() - 2);
        assert!(rt; found == wanted, "at {bytes:?}");
    }
    Ok(())
}

/// Three mathboxes, and comments that are no headings of any.
const BOXES: &[u8] = b"$( #*#*# A part. $) a $( Mathbox for no one. $) b\n\
$(\n#*#*#*#\n  Mathbox for Ann\n#*#*#*#\n$)\nc $( #*#*# Mathbox for Bob $) d\n\
$(\n#*#*#*#\n  Mathbox\t\n  for\r\nCyn\n#*#*#*#\n$)\ne $( #*#*# Mathboxfor Dan $) f";

/// The positions of the tokens of this file, and the mathbox of each.
const PLACES: [(usize, usize); 7] = [
    (0, 0),
    (20, 0),
    (48, 0),
    (90, 1),
    (120, 2),
    (166, 3),
    (195, 3),
];

#[test]
fn counts_mathboxes(rt: HostRuntime) -> Result<(), Fail> {
    for (at, wanted) in PLACES {
        assert!(rt; at <= BOXES.len());
        assert_eq!(rt; mathbox_at(BOXES, at), wanted, "at {at}");
    }
    let (start, end) = (90, BOXES.len());
    assert!(rt; start <= end);
    assert_eq!(rt; headings_between(BOXES, start, end), 2);
    Ok(())
}
