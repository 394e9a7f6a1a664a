//! The audit of one carousel.

ghost use Rattle.std.specs.Prelude.{◌≡◌, ◌≤◌, ◌∷◌, [], List, None, IfOk, OnErr, false};
ghost use Rattle.std.specs.HashMap.{hash_map_len};
ghost use Rattle.std.specs.Option.{option_map};
ghost use Rattle.dsmcc_msg.specs.Block.{ddb as ddb_format};
ghost use Rattle.dsmcc_msg.specs.View.{ddb_view};
ghost use Rattle.section_form.specs.Section.{IsRight};
ghost use Rattle.ssu_audit.specs.Calls.{Call};
ghost use Rattle.ssu_audit.specs.Hearing.{answer_in_carousel, answer_to};
ghost use Rattle.ssu_audit.specs.Standing.{IsUsable, Stands, StandsOnceCounted};

use crate::blocks::hear_block;
use crate::control::{hear_dii, hear_dsi};
use crate::kept::Kept;
use crate::key::BlockKey;
use crate::notices::hear_notice;
use crate::reading::{ddb_of, ddb_of_right, dii_of, dsi_of};
use audit_answer::AuditNo;
use dsmcc_msg::Ddb;
use ssu_io::NoMemory;
use std::alloc::Global;
use std::collections::HashMap;

/// What was heard of a carousel: its first DSI, the first DII of each transaction id, each block once, and the sections of
/// its notices.
///
/// Memory is taken for the first section that says something, and none for one that says the same again.
#[derive(Drop)]
pub struct Audit {
    alloc: Global,
    /// How many sections were heard.
    heard: u64,
    /// The section of the first DSI.
    pub(crate) dsi: Option<Kept>,
    /// The message of the first DII of each transaction id.
    pub(crate) diis: HashMap<u32, Kept>,
    /// The bytes of the first block of each key.
    pub(crate) blocks: HashMap<BlockKey, Kept>,
    /// The sections of Update Notification Tables, each once, in the order of hearing.
    pub(crate) notices: Vec<Kept>,
}

impl Audit {
    /// An audit that has heard nothing. `NoMemory` is the one refusal.
    pub fn new(alloc: Global) -> Result<Audit, NoMemory>
        ensures none { IfOk result (Stands []) }
        ensures usable { IfOk result IsUsable }
    {
        Ok(Audit {
            alloc,
            heard: 0,
            dsi: None,
            diis: HashMap::new(alloc),
            blocks: HashMap::new(alloc),
            notices: Vec::new(alloc),
        })
    }

    /// Hears a section, of the carousel or of its notice. Sections are counted from 0 over all calls that were not refused.
    ///
    /// Of the carousel, the answer is a fact exactly where the section is a DDB whose key (downloadId, moduleId,
    /// moduleVersion, blockNumber) an earlier one has with other bytes, a DSI whose message is not that of the first DSI, a
    /// DII whose message is not that of the first with its transaction id, or a DDB whose key is the 65,537th. Of a notice
    /// it is none. After a fact nothing more may be heard.
    ///
    /// # Errors
    ///
    /// `NoMemory` where memory ran out. The audit is then as it was.
    pub fn hear(&mut self, notice: bool, section: &[u8]) -> Result<Option<AuditNo>, NoMemory>
        requires usable { IsUsable self.old }
        // The answer is the fact against the section, or none.
        ensures answer { (calls : List Call) → Stands calls self.old
            → IfOk result (λ answer. answer ≡ answer_to calls (record { notice = notice; section = section.now })) }
        // Where it is none, the section was heard.
        ensures stands { (calls : List Call) → Stands calls self.old
            → IfOk result (λ answer. answer ≡ None → Stands (record { notice = notice; section = section.now } ∷ calls) self.new) }
        ensures usable { IfOk result (λ answer. answer ≡ None → IsUsable self.new) }
        // After a refusal nothing was heard.
        ensures unchanged { (calls : List Call) → Stands calls self.old → OnErr result (Stands calls self.new) }
        ensures usable_still { OnErr result (IsUsable self.new) }
    {
        self.hear_one(notice, section, ddb_of(section))
    }

    /// Hears a right section: what `hear` does, without the time of a CRC where the section is a DDB.
    ///
    /// A section that a hearer gives out is right.
    ///
    /// # Errors
    ///
    /// `NoMemory` where memory ran out. The audit is then as it was.
    pub fn hear_right(&mut self, notice: bool, section: &[u8]) -> Result<Option<AuditNo>, NoMemory>
        requires usable { IsUsable self.old }
        requires right { IsRight section.now }
        ensures answer { (calls : List Call) → Stands calls self.old
            → IfOk result (λ answer. answer ≡ answer_to calls (record { notice = notice; section = section.now })) }
        ensures stands { (calls : List Call) → Stands calls self.old
            → IfOk result (λ answer. answer ≡ None → Stands (record { notice = notice; section = section.now } ∷ calls) self.new) }
        ensures usable { IfOk result (λ answer. answer ≡ None → IsUsable self.new) }
        ensures unchanged { (calls : List Call) → Stands calls self.old → OnErr result (Stands calls self.new) }
        ensures usable_still { OnErr result (IsUsable self.new) }
    {
        self.hear_one(notice, section, ddb_of_right(section))
    }

    /// Hears a section, with the block that it is.
    fn hear_one(
        &mut self,
        notice: bool,
        section: &[u8],
        block: Option<Ddb<'_>>,
    ) -> Result<Option<AuditNo>, NoMemory>
        requires usable { IsUsable self.old }
        requires block { option_map ddb_view block ≡ ddb_format.of section.now }
        ensures answer { (calls : List Call) → Stands calls self.old
            → IfOk result (λ answer. answer ≡ answer_to calls (record { notice = notice; section = section.now })) }
        ensures stands { (calls : List Call) → Stands calls self.old
            → IfOk result (λ answer. answer ≡ None → Stands (record { notice = notice; section = section.now } ∷ calls) self.new) }
        ensures unchanged { (calls : List Call) → Stands calls self.old → OnErr result (Stands calls self.new) }
    {
        if notice {
            hear_notice(&mut self.notices, self.alloc, self.heard, section)?;
            self.heard = self.heard.saturating_add(1);
            return Ok(None);
        }
        let answer = self.hear_in_carousel(section, block)?;
        self.heard = self.heard.saturating_add(1);
        Ok(answer)
    }

    /// Keeps what a section of the carousel says first. It is not counted.
    fn hear_in_carousel(
        &mut self,
        section: &[u8],
        block: Option<Ddb<'_>>,
    ) -> Result<Option<AuditNo>, NoMemory>
        requires few { hash_map_len self.old.blocks ≤ 65536 }
        requires block { option_map ddb_view block ≡ ddb_format.of section.now }
        ensures answer { (calls : List Call) → Stands calls self.old
            → IfOk result (λ answer. answer ≡ answer_in_carousel calls section.now) }
        ensures stands { (calls : List Call) → Stands calls self.old
            → IfOk result (λ answer. answer ≡ None → StandsOnceCounted (record { notice = false; section = section.now } ∷ calls) self.new) }
        ensures unchanged { (calls : List Call) → Stands calls self.old → OnErr result (Stands calls self.new) }
        ensures heard { self.new.heard ≡ self.old.heard }
    {
        if let Some(ddb) = block {
            return hear_block(&mut self.blocks, self.alloc, self.heard, &ddb);
        }
        if let Some(dii) = dii_of(section) {
            return hear_dii(&mut self.diis, self.alloc, self.heard, &dii);
        }
        if dsi_of(section).is_some() {
            return hear_dsi(&mut self.dsi, self.alloc, self.heard, section);
        }
        Ok(None)
    }
}
