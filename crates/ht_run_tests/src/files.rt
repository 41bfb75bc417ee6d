//! A file that is cut.
use crate::outside::{FILE, Outside, calm, run_over};
use std::test::Fail;

// What the load of this many bytes of the file is answered: the number of the line that isn't whole.
fn wanted(count: usize) -> &'static str {
    match count {
        0..13 => "refused: file form 1",
        13..23 => "refused: file form 2",
        23..30 => "refused: file form 3",
        30..41 => "refused: file form 4",
        41..53 => "refused: file form 5",
        53..64 => "refused: file form 6",
        64..67 => "refused: file form 7",
        _ => "load e 3",
    }
}

#[test]
fn a_file_is_cut_at_each_byte(rt: HostRuntime) -> Result<(), Fail> {
    let alloc = rt.alloc();
    for count in 0..=FILE.len() {
        let outside = Outside {
            file: &FILE[..count],
            ..calm(b"group 2 1\nload e b.ht\n")
        };
        let (_, written) = run_over(alloc, &[], outside)?;
        let answers = format!(in alloc; "group 2 1\n{}\n", wanted(count))?;
        assert_eq!(rt; written.as_slice(), answers.as_bytes(), "at {count}");
    }
    Ok(())
}
