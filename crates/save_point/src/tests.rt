//! Savepoints, by worked rows.
use crate::Points;
use std::test::Fail;

#[test]
fn savepoints_are_numbered_and_dropped(rt: HostRuntime) -> Result<(), Fail> {
    let mut points = Points::new(rt.alloc());
    assert!(rt; points.live() == 0);
    let rows = [(1, 0), (3, 1), (3, 2)];
    for (writes, gives) in &rows {
        let number = points.live();
        match points.save(*writes, *gives) {
            Ok(saved) => assert!(rt; saved == number),
            Err(_) => return Err("memory".into()),
        }
    }
    assert!(rt; points.live() == 3);
    if points.live() > 1 {
        let (writes, gives) = points.back(1);
        assert!(rt; writes == 3 && gives == 1);
    }
    assert!(rt; points.live() == 2);
    if points.live() > 1 {
        let (writes, gives) = points.back(0);
        assert!(rt; writes == 1 && gives == 0);
    }
    assert!(rt; points.live() == 1);
    Ok(())
}
