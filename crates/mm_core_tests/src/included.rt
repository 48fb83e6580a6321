//! Which of the handed files nothing includes.

use mm_base::{File, Seed};
use mm_text::{alike_files_leave_out_the_same, left_out};
use std::alloc::Global;
use std::test::Fail;

/// The names of the files of a test, in their order.
const NAMES: [&[u8]; 4] = [b"a", b"b", b"c", b"d"];

/// Whether, of files with these bytes, those with these numbers are left out.
fn leaves_out(alloc: Global, texts: &[&[u8]], numbers: &[usize]) -> Result<bool, Fail> {
    let mut files = Vec::new(alloc);
    for (name, bytes) in NAMES.iter().zip(texts) {
        files.push(File { name, bytes })?;
    }
    let left = left_out(alloc, Seed::known(), &files)?;
    Ok(left.as_slice() == numbers)
}

#[test]
fn lists_what_nothing_includes(rt: HostRuntime) -> Result<(), Fail> {
    let files: [&[u8]; 3] = [b"$[ b $]", b"$c x $.", b"$c y $."];
    assert!(rt; leaves_out(rt.alloc(), &files, &[2])?);
    Ok(())
}

#[test]
fn lists_all_but_the_top_file(rt: HostRuntime) -> Result<(), Fail> {
    let files: [&[u8]; 4] = [b"$c x $.", b"", b"$[ d $]", b"$[ a $]"];
    assert!(rt; leaves_out(rt.alloc(), &files, &[1, 2, 3])?);
    Ok(())
}

#[test]
fn goes_into_included_files(rt: HostRuntime) -> Result<(), Fail> {
    let files: [&[u8]; 4] = [
        b"$[ c $] $[ c $]",
        b"",
        b"$[ b $] $[ b $] $[ a $]",
        b"$[ a $]",
    ];
    assert!(rt; leaves_out(rt.alloc(), &files, &[3])?);
    Ok(())
}

// A file without a token is included too, and so is one that begins with a fault.
#[test]
fn counts_each_included_file(rt: HostRuntime) -> Result<(), Fail> {
    let files: [&[u8]; 3] = [b"$[ b $] $[ c $]", b"$( $)", b"$) $."];
    assert!(rt; leaves_out(rt.alloc(), &files, &[])?);
    Ok(())
}

#[test]
fn stops_at_a_fault_of_a_token(rt: HostRuntime) -> Result<(), Fail> {
    let files: [&[u8]; 3] = [b"$[ b $] $) $[ c $]", b"", b""];
    assert!(rt; leaves_out(rt.alloc(), &files, &[2])?);
    Ok(())
}

#[test]
fn stops_at_a_name_that_no_file_has(rt: HostRuntime) -> Result<(), Fail> {
    let files: [&[u8]; 2] = [b"$[ x $] $[ b $]", b""];
    assert!(rt; leaves_out(rt.alloc(), &files, &[1])?);
    Ok(())
}

// X6 and S4 are faults of statements.
#[test]
fn passes_over_faults_of_statements(rt: HostRuntime) -> Result<(), Fail> {
    let files: [&[u8]; 3] = [b"$c ${ $[ b $] x $[ c $]", b"", b""];
    assert!(rt; leaves_out(rt.alloc(), &files, &[])?);
    Ok(())
}

#[test]
fn passes_over_comments(rt: HostRuntime) -> Result<(), Fail> {
    let files: [&[u8]; 3] = [b"$( $[ b $] $) $[ $( b $) c $]", b"", b""];
    assert!(rt; leaves_out(rt.alloc(), &files, &[1])?);
    Ok(())
}

#[test]
fn leaves_out_nothing_of_one_file(rt: HostRuntime) -> Result<(), Fail> {
    assert!(rt; leaves_out(rt.alloc(), &[b"$[ b $]"], &[])?);
    assert!(rt; leaves_out(rt.alloc(), &[], &[])?);
    Ok(())
}

#[test]
fn lists_nothing_where_two_have_one_name(rt: HostRuntime) -> Result<(), Fail> {
    let file = File {
        name: b"a",
        bytes: b"$c x $.",
    };
    let left = left_out(rt.alloc(), Seed::known(), &[file, file, file])?;
    assert!(rt; left.is_empty());
    Ok(())
}

#[test]
fn laws_are_called() {
    alike_files_leave_out_the_same();
}
