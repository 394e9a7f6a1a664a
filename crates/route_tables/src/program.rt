//! Level 2, the program: the service of the PAT that carries updates, and the PID of its PMT. ISO/IEC 13818-1, 2.4.4.3.

ghost use Rattle.std.specs.Prelude.{◌≡◌, ◌==◌, map};
ghost use Rattle.std.specs.List.{find};
ghost use Rattle.std.specs.Option.{option_map};
ghost use Rattle.wire.specs.Read.{Reads};
ghost use Rattle.si_table.specs.Views.{pat_view};
ghost use Rattle.route_tables.specs.Values.{same_program};
ghost use Rattle.route_tables.specs.Said.{pid_in_pat};
ghost use Rattle.route_tables.specs.Next.{first_listed, heard_on, listed_again, pat_in, program_after, program_by_pat};
ghost use Rattle.route_tables.specs.Standing.{program_view, service_view};

use crate::linkage::{Service, is_same};
use si_table::Pat;
use ts_packet::Pid;

/// the PID of the PAT
pub(crate) const PAT_PID: u16 = 0x0000;

/// A service, and the PID of the PMT of its program.
#[derive(Clone, Copy)]
pub(crate) struct Program {
    pub(crate) service: Service,
    pub(crate) pid: Pid,
}

/// Takes up what a section says of the program, and tells whether it stayed the same. Where the services changed,
/// there is none.
pub(crate) fn hear(
    program: &mut Option<Program>,
    is_same_below: bool,
    services: &[Service],
    pid: Pid,
    section: &[u8],
) -> bool
    ensures program { option_map program_view program.new
        ≡ program_after is_same_below (map service_view services.now) (heard_on pid section.now) (option_map program_view program.old) }
    ensures same { result ≡ same_program (option_map program_view program.new) (option_map program_view program.old) }
{
    let next = after(program, is_same_below, services, pid, section);
    let is_same = is_same_program(&next, program);
    *program = next;
    is_same
}

/// The program after a section.
fn after(
    before: &Option<Program>,
    is_same_below: bool,
    services: &[Service],
    pid: Pid,
    section: &[u8],
) -> Option<Program>
    ensures { option_map program_view result
        ≡ program_after is_same_below (map service_view services.now) (heard_on pid section.now) (option_map program_view before.now) }
{
    if !is_same_below {
        return None;
    }
    match pat_on(pid, section) {
        Some(pat) => by_pat(before, services, &pat),
        None => *before,
    }
}

/// The PAT in a section that was heard on its PID.
fn pat_on(pid: Pid, section: &[u8]) -> Option<Pat<'_>>
    ensures { Reads pat_view result (pat_in (heard_on pid section.now)) }
{
    if pid.get() != PAT_PID {
        return None;
    }
    Pat::read(section)
}

/// The first PAT that lists a service fixes it, and each one that lists it gives the PID.
fn by_pat(before: &Option<Program>, services: &[Service], pat: &Pat<'_>) -> Option<Program>
    ensures { option_map program_view result ≡ program_by_pat (map service_view services.now) (pat_view pat.now) (option_map program_view before.now) }
{
    match before {
        Some(program) => Some(again(program, pat)),
        None => first_in(services, pat),
    }
}

/// The program, with the PID that the PAT gives, if it lists the service.
fn again(program: &Program, pat: &Pat<'_>) -> Program
    ensures { program_view result ≡ listed_again (pat_view pat.now) (program_view program.now) }
{
    let pid = match pid_in(program.service, pat) {
        Some(pid) => pid,
        None => program.pid,
    };
    Program {
        service: program.service,
        pid,
    }
}

/// The first of the services that the PAT lists.
#[tactic(auto, unfolding(crate::specs::Next::first_listed))]
fn first_in(services: &[Service], pat: &Pat<'_>) -> Option<Program>
    ensures { option_map program_view result ≡ first_listed (map service_view services.now) (pat_view pat.now) }
{
    for service in services {
        if let Some(pid) = pid_in(*service, pat) {
            return Some(Program {
                service: *service,
                pid,
            });
        }
    }
    None
}

/// The PID that the PAT gives first for the service. Number 0 names the network PID and is no service.
fn pid_in(service: Service, pat: &Pat<'_>) -> Option<Pid>
    ensures { result ≡ pid_in_pat (service_view service) (pat_view pat.now) }
{
    if pat.ts == service.ts && service.service != 0 {
        pid_of_number(service.service, pat)
    } else {
        None
    }
}

fn pid_of_number(number: u16, pat: &Pat<'_>) -> Option<Pid>
    ensures { result ≡ option_map (λ e. e.pid) (find (λ e. e.number == number) (pat_view pat.now).programs) }
{
    for program in pat.programs() {
        if program.number == number {
            return Some(program.pid);
        }
    }
    None
}

#[tactic(auto, unfolding(crate::specs::Values::same_option))]
fn is_same_program(program: &Option<Program>, other: &Option<Program>) -> bool
    ensures { result ≡ same_program (option_map program_view program.now) (option_map program_view other.now) }
{
    match (program, other) {
        (Some(program), Some(other)) => {
            is_same(program.service, other.service) && program.pid.get() == other.pid.get()
        }
        (None, None) => true,
        _ => false,
    }
}
