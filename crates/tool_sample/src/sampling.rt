//! `sample N`: what comes of a broadcast that is made of a number.
ghost use Rattle.std.specs.Prelude.{◌≡◌, ◌+◌, ◌≤◌, ◌++◌, IfOk, length, map};
ghost use Rattle.std.specs.List.{All};
ghost use Rattle.broadcast.specs.Broadcasts.{Broadcasts};
ghost use Rattle.head_carousel.specs.Sections.{sections_of};
ghost use Rattle.head_mux.specs.Sent.{IsSendable};
ghost use Rattle.head_plan.specs.Plans.{mentions};
ghost use Rattle.ssu_io.specs.Bytes.{Gains, GainsPrefix};
ghost use Rattle.ssu_io.specs.Faults.{Rose};
ghost use Rattle.ssu_io.specs.Seen.{sink_seen};
ghost use Rattle.ssu_status.specs.Answers.{IsPrinted};
ghost use Rattle.ssu_status.specs.Status.{OnDone, OnWriteFault};
ghost use Rattle.tool_sample.specs.Does.{ForOutcome, SampleDoes, sure_seen, text_of};
ghost use Rattle.tool_sample.specs.Sample.{modules_of, plan_in, script_of, section_total, the_box as box_of};

use crate::flash::formatted;
use crate::modules::{byte_total, module_count, modules};
use crate::plan::{plan, script, section_count, the_box, turns};
use arrayvec::ArrayString;
use broadcast::{ChainFault, Outcome, broadcast_then_boot};
use flash_dev::SureFlash;
use head_plan::Plan;
use ssu_io::{Failed, NoMemory, Sink};
use ssu_line::{Line, booted, sampled, verdict};
use ssu_status::Status;
use std::alloc::Global;

/// Makes the plan, the modules, the script, the box and the flash of this number, 0 to 999,999; puts the packets of the plan
/// through the script to the box, boots, and prints three lines into `out`: `sample N modules M bytes L sections S`, that of the
/// verdict, and that of the record that boot takes then.
///
/// `Done` whatever the verdict is; `NoMemory`, before the first line; `WriteFault` where `out` failed.
// All of a broadcast lies in its frame, and of no other command's.
#[inline(never)]
pub fn sample<T: Sink>(alloc: Global, number: u32, out: &mut T) -> Status
    requires { number ≤ 999999 }
    ensures does { SampleDoes number result (sink_seen T.Sink out.old out.new) }
{
    match outcome_of(alloc, number) {
        Ok(findings) => print(number, &findings, out),
        Err(NoMemory) => Status::NoMemory,
    }
}

/// How many sections a sample has, and what came of it.
#[derive(Drop)]
struct Findings {
    sections: u32,
    outcome: Outcome,
}

/// What comes of the sample of this number.
fn outcome_of(alloc: Global, number: u32) -> Result<Findings, NoMemory>
    requires { number ≤ 999999 }
    ensures sections { IfOk result (λ findings. findings.sections ≡ section_total number) }
    ensures outcome { IfOk result (λ findings. ForOutcome number (λ outcome. outcome ≡ findings.outcome)) }
{
    let modules = modules(alloc, number)?;
    let sections = section_count(alloc, number, &modules)?;
    let outcome = outcome_of_sections(alloc, number, sections, &modules)?;
    Ok(Findings { sections, outcome })
}

/// What comes of the broadcast of these modules, whose plan makes so many sections.
fn outcome_of_sections(
    alloc: Global,
    number: u32,
    sections: u32,
    modules: &[Vec<u8>],
) -> Result<Outcome, NoMemory>
    requires number { number ≤ 999999 }
    requires count { sections ≡ section_total number }
    requires few { sections ≤ 297 }
    requires modules { map (λ m. m.items) modules.now ≡ modules_of number }
    requires sendable { All IsSendable (sections_of (plan_in number 1) (modules_of number)) }
    ensures { IfOk result (λ outcome. ForOutcome number (λ come. come ≡ outcome)) }
{
    let plan = plan(alloc, number, turns(sections))?;
    let mut flash = formatted(alloc)?;
    match broadcast_to(alloc, number, &plan, modules, &mut flash) {
        Ok(outcome) => Ok(outcome),
        Err(ChainFault::Memory) => Err(NoMemory),
        Err(ChainFault::Build(_)) => unreachable!(),
        Err(ChainFault::Load(_)) => unreachable!(),
        Err(ChainFault::Boot(_)) => unreachable!(),
    }
}

/// The broadcast of a plan, of which the sample's packets are lost, to the box and its flash.
fn broadcast_to(
    alloc: Global,
    number: u32,
    plan: &Plan,
    modules: &[Vec<u8>],
    flash: &mut SureFlash,
) -> Result<Outcome, ChainFault>
    requires { length modules.now ≡ length (mentions plan.now.group) }
    ensures broadcasts { Broadcasts (record { plan = plan.now; images = map (λ m. m.items) modules.now; script = script_of number })
        box_of result (sure_seen flash.old flash.new) }
{
    broadcast_then_boot(
        alloc,
        plan,
        modules,
        &script(alloc, number),
        &the_box(),
        flash,
    )
}

/// Prints the lines of a sample.
fn print<T: Sink>(number: u32, findings: &Findings, out: &mut T) -> Status
    requires number { number ≤ 999999 }
    requires sections { findings.now.sections ≡ section_total number }
    ensures done { OnDone result (Gains (T.contents out.old) (T.contents out.new) (text_of number findings.now.outcome)) }
    ensures write_fault { OnWriteFault result (GainsPrefix (T.contents out.old) (T.contents out.new) (text_of number findings.now.outcome)) }
    ensures write_cause { OnWriteFault result (Rose (T.faults out.old) (T.faults out.new)) }
    ensures answers { IsPrinted result }
    ensures out_later { T.faults out.old ≤ T.faults out.new }
{
    match out.put(text(number, findings).as_bytes()) {
        Ok(()) => Status::Done,
        Err(Failed) => Status::WriteFault,
    }
}

/// The lines of a sample.
fn text(number: u32, findings: &Findings) -> ArrayString<288>
    requires number { number ≤ 999999 }
    requires sections { findings.now.sections ≡ section_total number }
    ensures { result.bytes ≡ text_of number findings.now.outcome }
{
    let count = module_count(number);
    let head = findings.outcome.booted;
    let first = sampled(number, count, byte_total(number), findings.sections);
    let mut text = ArrayString::new();
    push_line(&mut text, &first, 0);
    push_line(&mut text, &verdict(findings.outcome.verdict), 96);
    push_line(
        &mut text,
        &booted(head.bank, head.number, head.software, head.length),
        192,
    );
    text
}

/// Pushes a line behind a text of at most so many bytes.
fn push_line(text: &mut ArrayString<288>, line: &Line, most: usize)
    requires room { most ≤ 192 }
    requires before { length text.old.bytes ≤ most }
    ensures bytes { text.new.bytes ≡ text.old.bytes ++ line.now.bytes }
    ensures after { length text.new.bytes ≤ most + 96 }
{
    text.push_str(line.as_str());
}
