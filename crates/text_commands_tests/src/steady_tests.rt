ghost use Rattle.std.specs.Prelude.{◌≡◌, ◌⊎◌, Some};
ghost use Rattle.command_line.specs.CommandSet.{CanBeMade, IfMakes};
ghost use Rattle.commands.specs.Answers.{answer_by};

use app_text::KvText;
use command_line::Command;
use commands::run_command;
use kv_machine::KvCmd;
use outside_mem::{SteadySink, SteadySource};
use schedule_text::print_step;
use std::alloc::Global;
use std::test::Fail;
use vst_base::{Key, StackId, Step};

// A command over forms that never fail comes to its answer to the input, or to want of memory: no other status is left.
fn run_steadily(alloc: Global, command: Command, text: Vec<u8>) -> (u8, SteadySink)
    requires { IfMakes command CanBeMade }
    ensures { (result.0 ≡ (answer_by (Some command) text.items).status) ⊎ (result.0 ≡ 8) }
{
    let mut input = SteadySource::new(text);
    let mut out = SteadySink::new(alloc);
    let mut err = SteadySink::new(alloc);
    let status = run_command(alloc, command, &mut input, &mut out, &mut err);
    (status, out)
}

#[test]
fn what_cannot_fail_is_answered(rt: HostRuntime) -> Result<(), Fail> {
    let alloc = rt.alloc();
    let text = b"schedule 1 one kv 1\nin 0 get a\n";
    let replay: &[u8] = b"in 0 get a\nout 0 a - -\nbelow\nschedule 1 one kv 1\nin 0 get a\n";
    let (status, out) = run_steadily(alloc, Command::Replay, Vec::from_slice(alloc, text)?);
    assert!(rt; status == 0 && out.written() == replay);
    let check = Command::Check(StackId::Kv);
    let (status, out) = run_steadily(alloc, check, Vec::from_slice(alloc, text)?);
    assert!(rt; status == 3 && out.written().is_empty());
    Ok(())
}

#[test]
fn a_step_is_printed_as_its_line(rt: HostRuntime) -> Result<(), Fail> {
    let alloc = rt.alloc();
    let mut sink = SteadySink::new(alloc);
    let Some(key) = Key::new(alloc, b"a")? else {
        return Ok(());
    };
    for step in [
        Step::Deliver(7),
        Step::In(1, KvCmd::Get(key)),
        Step::Reboot(2),
    ] {
        assert!(rt; print_step::<KvText, SteadySink>(alloc, &mut sink, &step).is_ok());
    }
    assert!(rt; sink.written() == b"deliver 7\nin 1 get a\nreboot 2\n".as_slice());
    Ok(())
}
