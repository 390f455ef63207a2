use app_text::LockText;
use schedule_text::{Line, Why, line_says};
use std::alloc::{AllocError, Global};
use std::test::Fail;
use vst_base::{LockInput, Step};

// Whether a line after so many events is a step of the lock service, or refused so.
fn says(
    alloc: Global,
    events: u32,
    line: &[u8],
    wanted: Line<LockInput>,
) -> Result<bool, AllocError> {
    Ok(line_says::<LockText>(alloc, events, line)? == wanted)
}

#[test]
fn lines_of_steps_are_read(rt: HostRuntime) -> Result<(), Fail> {
    let alloc = rt.alloc();
    let lock = Line::IsStep(Step::In(1, LockInput::Lock));
    assert!(rt; says(alloc, 0, b"in 1 lock", lock)?);
    assert!(rt; says(alloc, 999_999, b"tick 0", Line::IsStep(Step::Tick(0)))?);
    assert!(rt; says(alloc, 0, b"# act 0", Line::Skipped)?);
    Ok(())
}

#[test]
fn lines_of_acts_are_of_no_network(rt: HostRuntime) -> Result<(), Fail> {
    for (events, line, why) in [
        (0, "act 0", Why::NotThisNet),
        (0, "act x", Why::Number),
        (0, "act", Why::UnknownWord),
        (1_000_000, "act 0", Why::TooManyEvents),
        (1_000_000, "act x", Why::Number),
    ] {
        assert!(rt; says(rt.alloc(), events, line.as_bytes(), Line::Refused(why))?);
    }
    Ok(())
}

#[test]
fn lines_of_stops_have_two_numbers(rt: HostRuntime) -> Result<(), Fail> {
    for (events, line, why) in [
        (0, "stop 0 1", Why::NotThisNet),
        (0, "stop 0", Why::UnknownWord),
        (0, "stop x 1", Why::Number),
        (0, "stop 0 x", Why::Number),
        (0, "stop 0 1 2", Why::Number),
        (1_000_000, "stop 0 1", Why::TooManyEvents),
    ] {
        assert!(rt; says(rt.alloc(), events, line.as_bytes(), Line::Refused(why))?);
    }
    Ok(())
}
