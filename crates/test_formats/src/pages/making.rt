//! Pages made piece by piece.
use super::{END_PAGE, HELLO_PAGE};
use ogg_page::{PageBuffer, PageHead};
use std::test::Fail;

#[test]
fn a_page_is_made_piece_by_piece(rt: HostRuntime) -> Result<(), Fail> {
    let mut buffer = PageBuffer::new(rt.alloc())?;
    buffer.start(&[5]);
    buffer.put(b"he");
    buffer.put(b"");
    buffer.put(b"llo");
    buffer.finish(&PageHead {
        flags: 0,
        position: 5,
        serial: 1,
        sequence: 1,
    });
    assert!(rt; buffer.bytes() == HELLO_PAGE.as_slice());
    assert!(rt; buffer.closed().split_last() == Some((&0, HELLO_PAGE.as_slice())));

    buffer.start(&[]);
    buffer.finish(&PageHead {
        flags: 4,
        position: 5,
        serial: 1,
        sequence: 2,
    });
    assert!(rt; buffer.bytes() == END_PAGE.as_slice());
    Ok(())
}
