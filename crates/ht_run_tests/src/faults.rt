//! Faults at each byte that is read or written, pieces of any size, and what else ends a run.
use crate::outside::{Outside, calm, run_over};
use ht_calc::Status;
use std::alloc::Global;
use std::test::Fail;

const SCRIPT: &[u8] = b"group 2 1\nreduce x1.11>x1.21;x1.12>x1.22;x1.2>x1.1\n";

const ANSWERS: &[u8] = b"group 2 1\nx1.1>x1.2;x1.2>x1.1\n";

const SUMMARY: &[u8] =
    b"sample 1\nrows 4750 4000 4750\nrefused: budget a\nrefused: budget a\nrefused: budget a\nrefused: budget a\n";

// The script is read byte by byte, and each read in turn fails, but for the last one: that isn't made.
#[test]
fn each_read_fails_in_turn(rt: HostRuntime) -> Result<(), Fail> {
    let alloc = rt.alloc();
    for k in 0..53u32 {
        let outside = Outside {
            pieces: (1, 100),
            failing_read: Some(k),
            ..calm(SCRIPT)
        };
        let (status, written) = run_over(alloc, &[], outside)?;
        let (ended, wanted) = match k {
            0..10 => (Status::ReadFault, 0),
            10..51 => (Status::ReadFault, 10),
            51 => (Status::ReadFault, ANSWERS.len()),
            _ => (Status::Done, ANSWERS.len()),
        };
        assert_eq!(rt; status, ended.number(), "at {k}");
        assert_eq!(rt; written.as_slice(), &ANSWERS[..wanted], "at {k}");
    }
    Ok(())
}

// The answers are written byte by byte, and each write in turn fails, but for the last one: that isn't made.
#[test]
fn each_write_fails_in_turn(rt: HostRuntime) -> Result<(), Fail> {
    let alloc = rt.alloc();
    for k in 0..31u32 {
        let outside = Outside {
            pieces: (100, 1),
            failing_write: Some(k),
            ..calm(SCRIPT)
        };
        let (status, written) = run_over(alloc, &[], outside)?;
        let ended = if k < 30 {
            Status::WriteFault
        } else {
            Status::Done
        };
        assert_eq!(rt; status, ended.number(), "at {k}");
        assert_eq!(rt; written.as_slice(), &ANSWERS[..k as usize], "at {k}");
    }
    Ok(())
}

// Each write in turn fails, a line of a summary each; no script is read, though the first read would fail.
#[test]
fn each_line_of_a_summary_fails_in_turn(rt: HostRuntime) -> Result<(), Fail> {
    let alloc = rt.alloc();
    let words = [
        String::from_str(alloc, "--budget=10")?,
        String::from_str(alloc, "--sample=1")?,
    ];
    for k in 0..7u32 {
        let outside = Outside {
            pieces: (100, 100),
            failing_read: Some(0),
            failing_write: Some(k),
            ..calm(SCRIPT)
        };
        let (status, written) = run_over(alloc, &words, outside)?;
        let (ended, wanted) = match k {
            0 => (Status::WriteFault, 0),
            1 => (Status::WriteFault, 9),
            2 => (Status::WriteFault, 29),
            3 => (Status::WriteFault, 47),
            4 => (Status::WriteFault, 65),
            5 => (Status::WriteFault, 83),
            _ => (Status::SomeRefused, SUMMARY.len()),
        };
        assert_eq!(rt; status, ended.number(), "at {k}");
        assert_eq!(rt; written.as_slice(), &SUMMARY[..wanted], "at {k}");
    }
    Ok(())
}

// A script of 10,000 lines, and its answers.
fn long_script(alloc: Global) -> Result<(Vec<u8>, Vec<u8>), Fail> {
    let mut script = Vec::from_slice(alloc, b"group 2 1\n")?;
    let mut answers = Vec::from_slice(alloc, b"group 2 1\n")?;
    for _ in 0..3_333 {
        script.extend_from_slice(b"let a = x1.1>x1.2;x1.2>x1.1\n# no answer\n show a \n")?;
        answers.extend_from_slice(b"let a 2\nx1.1>x1.2;x1.2>x1.1\n")?;
    }
    Ok((script, answers))
}

#[test]
fn pieces_do_not_matter(rt: HostRuntime) -> Result<(), Fail> {
    let alloc = rt.alloc();
    let (script, answers) = long_script(alloc)?;
    for piece in [1usize, 7, 4_096, 5_000] {
        let outside = Outside {
            pieces: (piece, 1_000),
            ..calm(script.as_slice())
        };
        let (status, written) = run_over(alloc, &[], outside)?;
        assert_eq!(rt; status, Status::Done.number());
        assert_eq!(rt; written.as_slice(), answers.as_slice());
    }
    Ok(())
}

// A sink with room for seven bytes ends the run; a library that fails once refuses one line.
#[test]
fn a_full_sink_and_a_failed_fetch(rt: HostRuntime) -> Result<(), Fail> {
    let alloc = rt.alloc();
    let outside = Outside {
        pieces: (100, 100),
        room: 7,
        ..calm(SCRIPT)
    };
    let (status, written) = run_over(alloc, &[], outside)?;
    assert_eq!(rt; status, Status::WriteFault.number());
    assert_eq!(rt; written.as_slice(), &ANSWERS[..7]);
    let outside = Outside {
        failing_fetch: Some(0),
        ..calm(b"group 2 1\nload e b.ht\nload e b.ht\n")
    };
    let (status, written) = run_over(alloc, &[], outside)?;
    assert_eq!(rt; status, Status::SomeRefused.number());
    assert_eq!(rt;
        written.as_slice(),
        &b"group 2 1\nrefused: file\nload e 3\n"[..]
    );
    Ok(())
}

#[test]
fn bad_words_end_the_run(rt: HostRuntime) -> Result<(), Fail> {
    let alloc = rt.alloc();
    let words = [String::from_str(alloc, "x")?];
    let (status, written) = run_over(alloc, &words, calm(SCRIPT))?;
    assert_eq!(rt; status, Status::BadWords.number());
    assert_eq!(rt; written.len(), 0);
    Ok(())
}
