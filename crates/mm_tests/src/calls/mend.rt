//! The changes that mend a proof.

use mm_base::{File, Seed};
use mm_mend::mend_reply;
use mm_rules::Status;
use std::alloc::Global;
use std::test::Fail;

/// Whether this is told of what mends the proof of `th`, with this status and this note.
fn tells(
    alloc: Global,
    bytes: &[u8],
    text: &[u8],
    status: Status,
    note: &[u8],
) -> Result<bool, Fail> {
    let files = [File {
        name: b"f.mm",
        bytes,
    }];
    let mended = mend_reply(alloc, Seed::known(), &files, b"th")?;
    let said = mended.reply.text.as_slice() == text && mended.reply.status == status;
    Ok(said && mended.note.as_slice() == note)
}

// A letter that is another one, and one that is lost; two labels that are exchanged, and one that is
// mistyped.
#[test]
fn mends_a_slip(rt: HostRuntime) -> Result<(), Fail> {
    let alloc = rt.alloc();
    let one = b"$c a b $. one $a a $. two $a b $. th $p a $= ( one two ) B $.";
    let told = b"exchanged f.mm:1:48 one two\nreplaced f.mm:1:58 B A\n";
    assert!(rt; tells(alloc, one, told, Status::Done, b"")?);
    let lost = b"$c a $. one $a a $. th $p a $= ( one )  $.";
    let put = b"put f.mm:1:40 A\n";
    assert!(rt; tells(alloc, lost, put, Status::Done, b"")?);
    let beside = b"$c a $. one $a a $. th $p a $= $( a ) $) ( one ) Z $( A $) $.";
    let letter = b"replaced f.mm:1:50 Z A\nput f.mm:1:50 A\n";
    assert!(rt; tells(alloc, beside, letter, Status::Done, b"")?);
    let mistyped = b"$c a $. one $a a $. th $p a $= oen $.";
    assert!(rt;
        tells(
            alloc,
            mistyped,
            b"exchanged f.mm:1:33 e n\n",
            Status::Done,
            b""
        )?
    );
    Ok(())
}

// A proof that is right, and one that no change mends.
#[test]
fn tells_why_nothing_is_mended(rt: HostRuntime) -> Result<(), Fail> {
    let alloc = rt.alloc();
    let right = b"$c a $. one $a a $. th $p a $= ( one ) A $.";
    assert!(rt; tells(alloc, right, b"proof\n", Status::Done, b"")?);
    let hopeless = b"$c a b $. one $a b $. th $p a $= one $.";
    let none = b"mm: note: no change of one byte or of two neighbours makes it a proof\n";
    assert!(rt; tells(alloc, hopeless, b"", Status::Refused, none)?);
    Ok(())
}
