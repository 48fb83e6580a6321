//! The statement with a label, and what is told of it.

use mm_base::{File, Seed};
use mm_explain::read_statement;
use mm_render::statement_text;
use std::alloc::Global;
use std::test::Fail;

/// What is told of the statement with a label, where one has it and nothing before it is at fault.
fn told(alloc: Global, files: &[File], label: &[u8]) -> Result<Option<Vec<u8>>, Fail> {
    match read_statement(alloc, Seed::known(), files, label) {
        Ok(Some(stated)) => {
            let (book, statement) = (&stated.book, &stated.statement);
            Ok(Some(statement_text(alloc, files, book, stated.id, statement)?))
        }
        Ok(None) | Err(_) => Ok(None),
    }
}

#[test]
fn told_statement(rt: HostRuntime) -> Result<(), Fail> {
    // What stands behind the label is at fault.
    let files = [File {
        name: b"t.mm",
        bytes: b"$c a $. th $a a $. $}",
    }];
    let text = told(rt.alloc(), &files, b"th")?.ok_or("no statement")?;
    assert!(rt; text.as_slice() == b"t.mm:1:9\nth $a a\n".as_slice());
    assert!(rt; told(rt.alloc(), &files, b"a")?.is_none());
    Ok(())
}
