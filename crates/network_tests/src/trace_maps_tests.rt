use handler_trait::Echo;
use std::test::Fail;
use trace_maps::once;
use vst_base::Step;

#[test]
fn repeats_are_left_out(rt: HostRuntime) -> Result<(), Fail> {
    let steps = [
        Step::In(1, 5),
        Step::Dup(0),
        Step::Deliver(0),
        Step::Tick(1),
        Step::Deliver(0),
    ];
    let left = once(rt.alloc(), &Echo::new(2), &steps)?;
    let wanted = [Step::In(1, 5), Step::Deliver(0), Step::Tick(1)];
    assert!(rt; left.as_slice() == wanted.as_slice());
    Ok(())
}
