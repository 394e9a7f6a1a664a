//! PAT: ISO/IEC 13818-1, 2.4.4.3. table_id 0x00, PID 0.

ghost use Rattle.std.specs.Prelude.{◌≡◌, IfSome, Some};
ghost use Rattle.std.specs.Option.{option_map};
ghost use Rattle.wire.specs.Items.{items_of};
ghost use Rattle.wire.specs.Read.{Reads};
ghost use Rattle.si_table.specs.Tables.{PatFields, pat, program};
ghost use Rattle.si_table.specs.Views.{pat_view};

use crate::fields::pid_at;
use section_form::long;
use ts_packet::Pid;
use wire::{Item, Items, u16_at};

/// The programs of a PAT, in its order.
pub type Programs<'a> = Items<'a, Program>;

/// A program and the PID of its PMT; program 0 names the PID of the network.
#[derive(Clone, Copy, Debug, PartialEq, Eq)]
pub struct Program {
    /// program_number.
    pub number: u16,
    /// program_map_PID, or network_PID for program 0.
    pub pid: Pid,
}

impl<'a> Item<'a> for Program {
    ghost use Rattle.si_table.specs.Exact.{program_exact};
    ghost use Rattle.si_table.specs.Tables.{ProgramFields, program};
    ghost use Rattle.si_table.specs.Views.{program_view};

    ghost Seen = { ProgramFields };

    ghost format = { program };

    ghost exact = { program_exact };

    ghost view = { program_view };

    #[tactic(auto, unfolding(crate::specs::Tables::program))]
    fn at(bytes: &'a [u8]) -> Option<(Self, &'a [u8])> {
        let (number, rest) = u16_at(bytes)?;
        let Some((pid, rest)) = pid_at(rest) else {
            return None;
        };
        Some((Program { number, pid }, rest))
    }
}

/// A program association table.
#[derive(Drop)]
pub struct Pat<'a> {
    /// transport_stream_id.
    pub ts: u16,
    programs: Programs<'a>,
}

impl<'a> Pat<'a> {
    /// `None` comes exactly where the section is no PAT.
    pub fn read(section: &'a [u8]) -> Option<Self>
        ensures reads { Reads pat_view result (pat.of section.now) }
        // What is answered is spelled so.
        ensures found { IfSome result (λ p. pat.Spells (pat_view p) section.now) }
        // What is spelled so is answered.
        ensures only { (p : PatFields) → pat.Spells p section.now → option_map pat_view result ≡ Some p }
    {
        pat_of(section)
    }

    /// The programs, in order.
    pub fn programs(&self) -> Programs<'a>
        ensures { items_of program result ≡ (pat_view self.now).programs }
    {
        self.programs.again()
    }
}

#[tactic(auto, unfolding(crate::specs::Tables::pat))]
fn pat_of<'a>(section: &'a [u8]) -> Option<Pat<'a>>
    ensures { Reads pat_view result (pat.of section.now) }
{
    if section.len() > 1024 {
        return None;
    }
    let form = long(section)?;
    if form.table != 0x00 {
        return None;
    }
    let programs = Items::to_end(form.body)?;
    Some(Pat {
        ts: form.extension,
        programs,
    })
}
