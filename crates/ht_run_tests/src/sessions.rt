//! Refusals that come after something was fetched or made, each with the session as before.
use crate::outside::{FILE, library};
use ht_answer::print;
use ht_calc::Session;
use ht_out::MemLibrary;
use std::alloc::Global;
use std::test::Fail;

// Three lines that end a session of 256 names: the adding machine of depth 3 takes seven expansions.
const FIRST: [&str; 3] = [
    "group 2 1",
    "let b = x1.1>x1.11;x1.21>x1.12;x1.22>x1.2",
    "let o = x1.1>x1.2;x1.21>x1.12;x1.221>x1.112;x1.222>x1.111",
];

// Lines that would bind a name, and their refusals.
const REFUSED: [(&str, &str); 4] = [
    ("load b none.ht", "refused: file\n"),
    ("let b = b^1024", "refused: large 1026 1025\n"),
    ("let y = b", "refused: names\n"),
    ("conj b o o", "refused: budget o\n"),
];

// What shows that the group, the names and the elements are as before.
const AS_BEFORE: [(&str, &str); 4] = [
    ("group 2 1", "refused: group\n"),
    ("show b", "x1.1>x1.11;x1.21>x1.12;x1.22>x1.2\n"),
    ("show y", "refused: name y\n"),
    ("let o = o", "let o 4\n"),
];

// The text of the session's answer to a line.
fn answered(
    alloc: Global,
    session: &mut Session,
    files: &mut MemLibrary,
    line: &str,
) -> Result<Vec<u8>, Fail> {
    let line = line.as_bytes();
    let mut text = Vec::new(alloc);
    if line.len() <= 65_536 && line.iter().all(|b| *b != b'\n') {
        print(&session.answer(alloc, line, files)?, &mut text)?;
    }
    Ok(text)
}

#[test]
fn a_refusal_leaves_the_session_as_before(rt: HostRuntime) -> Result<(), Fail> {
    let alloc = rt.alloc();
    let mut session = Session::new(alloc, 6);
    let mut files = library(alloc, FILE, None)?;
    for line in FIRST {
        answered(alloc, &mut session, &mut files, line)?;
    }
    for k in 0..254u32 {
        let line = format!(in alloc; "let n{k} = x1>x1")?;
        answered(alloc, &mut session, &mut files, &line)?;
    }
    for (line, refusal) in REFUSED {
        let answer = answered(alloc, &mut session, &mut files, line)?;
        assert_eq!(rt; answer.as_slice(), refusal.as_bytes());
        for (line, wanted) in AS_BEFORE {
            let answer = answered(alloc, &mut session, &mut files, line)?;
            assert_eq!(rt; answer.as_slice(), wanted.as_bytes(), "after {refusal}");
        }
    }
    Ok(())
}
