//! The labels that are nearest to another, and a reply before it is written.

use crate::tests::CHECK;
use mm_base::{File, Seed};
use mm_check::reply_to;
use mm_explain::nearest_labels;
use mm_rules::Status;
use mm_verdict::Unwatched;
use std::test::Fail;

// The last token is at fault.
const LABELS: &[u8] = b"$c a $. syl5 $a a $. syl $a a $. th $p a $= no $. th2 $a a $. TH $a a $.
s1 $a a $. s2 $a a $. s3 $a a $. s4 $a a $. $}";

#[test]
fn finds_the_nearest_labels(rt: HostRuntime) -> Result<(), Fail> {
    let files = [File {
        name: b"a.mm",
        bytes: LABELS,
    }];
    for (label, wanted) in [
        (b"slyl5".as_slice(), [b"syl5".as_slice()].as_slice()),
        (b"yssl".as_slice(), [b"syl".as_slice()].as_slice()),
        (b"syl".as_slice(), [b"syl5".as_slice()].as_slice()),
        (b"ht".as_slice(), [b"th".as_slice()].as_slice()),
        (
            b"th1".as_slice(),
            [b"th".as_slice(), b"th2".as_slice()].as_slice(),
        ),
        (
            b"Th".as_slice(),
            [b"th".as_slice(), b"TH".as_slice()].as_slice(),
        ),
        (
            b"s5".as_slice(),
            [b"s1".as_slice(), b"s2".as_slice(), b"s3".as_slice()].as_slice(),
        ),
        (b"a".as_slice(), [].as_slice()),
        (b"other".as_slice(), [].as_slice()),
    ] {
        let near = nearest_labels(rt.alloc(), Seed::known(), &files, label)?;
        assert!(rt; near.as_slice() == wanted, "at {label:?}");
    }
    Ok(())
}

#[test]
fn makes_a_reply(rt: HostRuntime) -> Result<(), Fail> {
    let files = [File {
        name: b"a.mm",
        bytes: b"$c a $.",
    }];
    let reply = reply_to(rt.alloc(), Seed::known(), &CHECK, &files, &mut Unwatched)?;
    assert!(rt; reply.text.as_slice() == b"yes 1 statements 0 proofs\n".as_slice());
    assert_eq!(rt; reply.status, Status::Done);
    Ok(())
}
