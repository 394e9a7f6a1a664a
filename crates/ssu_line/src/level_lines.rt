//! The seven levels between a transport stream and the modules of an update, and what was found at each.
ghost use Rattle.std.specs.Prelude.{◌≡◌, ◌≤◌, length};
ghost use Rattle.ssu_line.specs.LevelLines.{services_line, program_line, component_line, notices_line, carousel_line};
ghost use Rattle.ssu_line.specs.LevelLines.{groups_line, modules_line, counted_line, none_line};

use crate::writing::{Line, put_number};
use ts_packet::Pid;

/// `1 services N`: how many services are kept. `1 none` for 0.
pub fn services(count: u8) -> Line
    ensures { result.bytes ≡ services_line count }
{
    counted("1 ", "services ", count)
}

/// `2 program S pid P`: the service and the PID of its PMT.
pub fn program(level: Option<(u16, Pid)>) -> Line
    ensures { result.bytes ≡ program_line level }
{
    let Some((service, pid)) = level else {
        return none("2 ");
    };
    let mut line = Line::new();
    line.push_str("2 program ");
    put_number(&mut line, service as u32);
    line.push_str(" pid ");
    put_number(&mut line, pid.get() as u32);
    line.push_str("\n");
    line
}

/// `3 component P type T`: the PID of the stream and its update type.
pub fn component(level: Option<(Pid, u8)>) -> Line
    ensures { result.bytes ≡ component_line level }
{
    let Some((pid, update_type)) = level else {
        return none("3 ");
    };
    let mut line = Line::new();
    line.push_str("3 component ");
    put_number(&mut line, pid.get() as u32);
    line.push_str(" type ");
    put_number(&mut line, update_type as u32);
    line.push_str("\n");
    line
}

/// `4 notices N`: how many targeted pairs are kept. `4 none` for 0 and where there is no component, and `4 direct` whatever
/// their number where the component has update type 1.
pub fn notices(component: Option<(Pid, u8)>, count: u8) -> Line
    ensures { result.bytes ≡ notices_line component count }
{
    match component {
        None => none("4 "),
        Some((_, 1)) => whole("4 direct\n"),
        Some(_) => counted("4 ", "notices ", count),
    }
}

/// `5 carousel P`: the PID of the carousel.
pub fn carousel(level: Option<Pid>) -> Line
    ensures { result.bytes ≡ carousel_line level }
{
    let Some(pid) = level else {
        return none("5 ");
    };
    let mut line = Line::new();
    line.push_str("5 carousel ");
    put_number(&mut line, pid.get() as u32);
    line.push_str("\n");
    line
}

/// `6 groups N`: how many groups are kept. `6 none` for 0.
pub fn groups(count: u8) -> Line
    ensures { result.bytes ≡ groups_line count }
{
    counted("6 ", "groups ", count)
}

/// `7 modules M bytes L`: how many modules the wanted group has, and the length of its image.
pub fn modules(level: Option<(u16, u32)>) -> Line
    ensures { result.bytes ≡ modules_line level }
{
    let Some((modules, bytes)) = level else {
        return none("7 ");
    };
    let mut line = Line::new();
    line.push_str("7 modules ");
    put_number(&mut line, modules as u32);
    line.push_str(" bytes ");
    put_number(&mut line, bytes);
    line.push_str("\n");
    line
}

fn counted(level: &str, name: &str, count: u8) -> Line
    requires level { length level.now ≤ 2 }
    requires name { length name.now ≤ 10 }
    ensures { result.bytes ≡ counted_line level.now name.now count }
{
    if count == 0 {
        return none(level);
    }
    let mut line = Line::new();
    line.push_str(level);
    line.push_str(name);
    put_number(&mut line, count as u32);
    line.push_str("\n");
    line
}

fn none(level: &str) -> Line
    requires { length level.now ≤ 2 }
    ensures { result.bytes ≡ none_line level.now }
{
    let mut line = Line::new();
    line.push_str(level);
    line.push_str("none\n");
    line
}

fn whole(text: &str) -> Line
    requires { length text.now ≤ 96 }
    ensures { result.bytes ≡ text.now }
{
    let mut line = Line::new();
    line.push_str(text);
    line
}
