//! Element files.
use crate::texts::element_of;
use ht_text::write_file;
use ht_word::Shape;
use std::alloc::Global;
use std::test::Fail;

fn written(alloc: Global, rows: &str) -> Result<Vec<u8>, Fail> {
    let element = element_of(alloc, Shape::new(2, 1)?, rows)?;
    Ok(write_file(alloc, &element)?)
}

// Rows in another order are written in ascending order.
#[test]
fn an_element_is_written(rt: HostRuntime) -> Result<(), Fail> {
    let file = written(rt.alloc(), "x1.22>x1.2;x1.1>x1.11;x1.21>x1.12")?;
    let wanted = b"ht-element 1\ngroup 2 1\nrows 3\nx1.1>x1.11\nx1.21>x1.12\nx1.22>x1.2\nend\n";
    assert_eq!(rt; file.as_slice(), &wanted[..]);
    Ok(())
}
