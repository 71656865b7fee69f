use pota_names::Name;
use std::test::Fail;
use watch::{Calm, Handed, Owing, Stable, Watch, feed_one};

#[test]
fn values_that_stay_are_stable(rt: HostRuntime) -> Result<(), Fail> {
    let mut stable = Stable::new();
    assert!(rt; stable.feed(&[0, 7]));
    assert!(rt; !stable.feed(&[1, 7]));
    assert!(rt; !stable.feed(&[1, 8]));
    assert!(rt; stable.feed(&[1, 8]));
    Ok(())
}

#[test]
fn what_is_borrowed_is_owed_until_paid(rt: HostRuntime) -> Result<(), Fail> {
    let mut owing = Owing::new();
    assert!(rt; !owing.feed(&[]));
    assert!(rt; owing.feed(&[-2, 5]));
    assert!(rt; owing.feed(&[0, 5]));
    assert!(rt; !owing.feed(&[1, -5]));
    assert!(rt; !owing.feed(&[0, -5]));
    Ok(())
}

#[test]
fn three_states_that_agree_are_calm(rt: HostRuntime) -> Result<(), Fail> {
    let mut calm = Calm::new();
    assert!(rt; !calm.feed(&[4]));
    assert!(rt; !calm.feed(&[4]));
    assert!(rt; calm.feed(&[4, 1]));
    assert!(rt; calm.feed(&[4, 2]));
    assert!(rt; !calm.feed(&[5]));
    Ok(())
}

#[test]
fn a_box_is_fed(rt: HostRuntime) -> Result<(), Fail> {
    let name = Name::new(rt.alloc(), b"owing")?.ok_or("a name")?;
    let mut handed = Handed {
        name,
        watch: Box::new(rt.alloc(), Owing::new())?,
    };
    assert!(rt; feed_one(&mut handed.watch, &[-1]));
    assert!(rt; feed_one(&mut handed.watch, &[0]));
    assert!(rt; !feed_one(&mut handed.watch, &[3]));
    Ok(())
}
