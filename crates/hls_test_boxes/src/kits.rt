// Kits of boxes.
use hls_chron::Kind;
use hls_fp::Fp;
use hls_sched::{Kit, Scheduler};
use std::test::Fail;

#[test]
fn takes_each_box_of_a_kit_once(rt: HostRuntime) -> Result<(), Fail> {
    let alloc = rt.alloc();
    let first: Box<dyn Scheduler> = Box::new(alloc, Fp::blank(alloc))?;
    let second: Box<dyn Scheduler> = Box::new(alloc, Fp::blank(alloc))?;
    let mut kit = Kit {
        fp: vec![in alloc; first, second]?,
        edf: Vec::new(alloc),
        sfq: Vec::new(alloc),
        rr: Vec::new(alloc),
        wheel: Vec::new(alloc),
        join: Vec::new(alloc),
        used: [0; 6],
    };
    assert!(rt; kit.take(Kind::Fp).is_some());
    assert!(rt; kit.take(Kind::Edf).is_none());
    assert!(rt; kit.take(Kind::Fp).is_some());
    assert!(rt; kit.take(Kind::Fp).is_none());
    assert_eq!(rt; kit.used, [2, 0, 0, 0, 0, 0]);
    Ok(())
}
