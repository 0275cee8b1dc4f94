// An input is read up to its limit.
use crate::inputs::read_input;
use std::test::Fail;

#[test]
fn limit_is_kept(rt: HostRuntime) -> Result<(), Fail> {
    let heap = rt.alloc();
    let whole = read_input(heap, b"abc".as_slice(), 3)?;
    assert_eq!(rt; whole.as_ref().map(|text| text.as_str()), Some("abc"));
    let longer = read_input(heap, b"abcd".as_slice(), 3)?;
    assert!(rt; longer.is_none());
    Ok(())
}
