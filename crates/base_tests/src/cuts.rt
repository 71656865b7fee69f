use cut_lattice::Cut;
use std::test::Fail;

#[test]
fn two_cuts_have_a_minimum_and_a_maximum(rt: HostRuntime) -> Result<(), Fail> {
    let mut one = Cut::new(rt.alloc(), 2)?;
    let mut other = Cut::new(rt.alloc(), 2)?;
    one.set(0, 3);
    other.set(1, 2);
    one.join_into(&mut other);
    assert_eq!(rt; other.as_slice(), [3, 2].as_slice());
    one.meet_into(&mut other);
    assert_eq!(rt; other.as_slice(), [3, 0].as_slice());
    assert!(rt; one.within(&other));
    Ok(())
}
