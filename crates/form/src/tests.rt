// What is repeated, where each line is there and where one is missing.
use crate::reader::Reader;
use std::test::Fail;

// Four lines: three names and a keyword.
const FOUR_LINES: &[u8] = b"gate a\ngate b\n\nend\n";

#[test]
fn names_and_then_a_keyword(rt: HostRuntime) -> Result<(), Fail> {
    let mut tape = [0; 10];
    let mut reader = Reader::start(FOUR_LINES, &mut tape);
    assert_eq!(rt; reader.repeat(3, Reader::name), Ok(()));
    assert_eq!(rt; reader.keyword(b"end"), Ok(()));
    assert_eq!(rt; reader.line, 4);
    assert!(rt; reader.rest.is_empty());
    Ok(())
}

#[test]
fn a_line_too_few(rt: HostRuntime) -> Result<(), Fail> {
    let mut tape = [0; 10];
    let mut reader = Reader::start(FOUR_LINES, &mut tape);
    assert_eq!(rt; reader.repeat(5, Reader::name), Err(5));
    Ok(())
}
