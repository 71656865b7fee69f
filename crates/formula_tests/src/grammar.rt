use rctl_grammar::Boxed;
use std::test::Fail;

/// A box keeps its value, and gives it back.
#[test]
fn a_box_keeps_its_value(rt: HostRuntime) -> Result<(), Fail> {
    let boxed = Boxed::new(rt.alloc(), 7u8)?;
    assert_eq!(rt; *boxed.get(), 7);
    assert_eq!(rt; boxed.into_inner(), 7);
    Ok(())
}
