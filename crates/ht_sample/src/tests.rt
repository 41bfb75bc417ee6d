//! The sizes of a sample.

use crate::sample;
use std::test::Fail;

#[test]
fn no_rows_of_the_first_sample_merge(rt: HostRuntime) -> Result<(), Fail> {
    let made = sample(rt.alloc(), 1)?;
    assert_eq!(rt; made.a.row_count(), 4_750);
    assert_eq!(rt; made.h.row_count(), 4_000);
    assert_eq!(rt; made.c.row_count(), 4_750);
    Ok(())
}
