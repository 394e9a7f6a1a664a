//! The list of sections that is being made.
ghost use Rattle.std.specs.Prelude.{◌≡◌, ◌≢◌, ◌<◌, ◌≤◌, ◌++◌, [], ◌∷◌, OnOk};
ghost use Rattle.std.specs.List.{All};
ghost use Rattle.section_form.specs.declared.fault.MakeFault.TheVariants.{TooLong};
ghost use Rattle.head_carousel.specs.Signals.{timed};
ghost use Rattle.head_carousel.specs.WellMade.{IsReady, IsWellMade};

use section_form::MakeFault;
use ssu_io::NoMemory;
use ts_packet::Pid;
use ts_section::Timed;

/// Adds a section.
pub(crate) fn add(
    list: &mut Vec<Timed>,
    pid: Pid,
    period: u32,
    bytes: Vec<u8>,
) -> Result<(), NoMemory>
    requires made { IsWellMade bytes.items }
    requires period { 1 ≤ period }
    ensures added { OnOk result (list.new.items ≡ list.old.items ++ timed pid period bytes.items ∷ []) }
    ensures ready { All IsReady list.old.items → OnOk result (All IsReady list.new.items) }
{
    prove!(pid.get() < 8192);
    list.push(Timed { pid, period, bytes })?;
    Ok(())
}

/// The PID of this number.
pub(crate) fn pid_of(number: u16) -> Pid
    requires { number < 8192 }
    ensures { result ≡ number }
{
    match Pid::new(number) {
        Some(pid) => pid,
        None => unreachable!(),
    }
}

/// Want of memory, which is the one fault that is left where a section has room.
pub(crate) fn wanting(fault: MakeFault) -> NoMemory
    requires { fault ≢ TooLong }
{
    match fault {
        MakeFault::Memory => NoMemory,
        MakeFault::TooLong => unreachable!(),
    }
}
