//! The answer of an audit.

ghost use Rattle.std.specs.Prelude.{◌≡◌, ◌<◌, ◌^◌, List, Result, IfOk, length, map, is_some};
ghost use Rattle.audit_answer.specs.declared.answers.AuditNo.{AuditNo};
ghost use Rattle.audit_answer.specs.declared.answers.AuditYes.{AuditYes};
ghost use Rattle.ssu_audit.specs.Calls.{Call, carousel};
ghost use Rattle.ssu_audit.specs.OneImage.{HasOneImagePerGroup};
ghost use Rattle.ssu_audit.specs.Ending.{AgainstGroups, Ends, is_apart as apart_from};
ghost use Rattle.ssu_audit.specs.Kept.{block_at, dii_at, first_kept, kept_of};
ghost use Rattle.ssu_audit.specs.Said.{notice_with};
ghost use Rattle.ssu_audit.specs.Standing.{HoldsGroups, IsUsable, Stands};

use crate::against::against_group;
use crate::audit::Audit;
use crate::hardware::is_apart;
use crate::kept::Kept;
use crate::key::BlockKey;
use crate::reading::dsi_of;
use audit_answer::{AuditNo, AuditYes};
use dsmcc_msg::Dsi;
use ssu_unt::Unt;
use std::collections::HashMap;

/// The first fact against the groups of a DSI, in their order.
fn against_groups(
    diis: &HashMap<u32, Kept>,
    blocks: &HashMap<BlockKey, Kept>,
    dsi: &Dsi<'_>,
) -> Option<AuditNo>
    ensures { (calls : List Call) → HoldsGroups calls (dii_at diis.now) (block_at blocks.now) → AgainstGroups calls dsi.now.groups result }
{
    for group in dsi.groups() {
        if let Some(no) = against_group(diis, blocks, group.id, group.size) {
            return Some(no);
        }
    }
    None
}

/// How many groups the DSI has.
fn count(dsi: &Dsi<'_>) -> u16
    requires { length dsi.now.groups < 2 ^ 16 }
    ensures { result ≡ length dsi.now.groups }
{
    let mut groups = 0;
    for _ in dsi.groups() {
        groups += 1;
    }
    groups
}

/// The number of the first notice with an entry for hardware that no group of the DSI is for.
fn first_apart(notices: &[Kept], dsi: &Dsi<'_>) -> Option<u64>
    ensures { result ≡ first_kept (apart_from dsi.now.groups) (map kept_of notices.now) }
{
    for kept in notices {
        if is_notice_apart(kept.bytes.as_slice(), dsi) {
            return Some(kept.number);
        }
    }
    None
}

/// Is the section a notice with such an entry?
#[tactic(auto, unfolding(crate::specs::Said::notice_with))]
fn is_notice_apart(section: &[u8], dsi: &Dsi<'_>) -> bool
    ensures { result ≡ is_some (notice_with (apart_from dsi.now.groups) section.now) }
{
    match Unt::read(section) {
        Some(unt) => is_apart(dsi, &unt),
        None => false,
    }
}

impl Audit {
    /// Whether all receivers of some of what was heard that have a group whole have one image of it, or the first fact for
    /// which that is refused. It takes no memory.
    ///
    /// # Errors
    ///
    /// The first of these that stands: `NoDsi`, where no DSI was heard; then for each group of the DSI, in its order,
    /// `NoDii` where no DII of it was heard, `Unusable` where its DII cannot be used for a bank of 128 MiB, `SizeDiffers`
    /// where the DSI lists another size than the total of its modules, `PlaceMissing` where no block fills a place, the
    /// first such place, and `BadModule` where a module has not the CRC of its descriptor, the first such module; then
    /// `NoticeApart` where a notice has a platform for hardware that no group of the DSI is for, the first such notice.
    pub fn end(&self) -> Result<AuditYes, AuditNo>
        requires usable { IsUsable self.now }
        // The answer is that of the calls, and no other is.
        ensures ends { (calls : List Call) → Stands calls self.now → Ends calls result }
        ensures only { (calls : List Call) (other : Result AuditYes AuditNo) → Stands calls self.now → Ends calls other → result ≡ other }
        // At a yes all that was heard of the carousel carries each group whole, and each part of it that carries a group whole
        // carries the same image.
        ensures one_image { (calls : List Call) → Stands calls self.now → IfOk result (λ _. HasOneImagePerGroup (carousel calls)) }
    {
        self.answer()
    }

    /// The answer, by what is kept.
    fn answer(&self) -> Result<AuditYes, AuditNo>
        requires usable { IsUsable self.now }
        ensures { (calls : List Call) → Stands calls self.now → Ends calls result }
    {
        let Some(first) = &self.dsi else {
            return Err(AuditNo::NoDsi);
        };
        let Some(dsi) = dsi_of(first.bytes.as_slice()) else {
            return Err(AuditNo::NoDsi);
        };
        if let Some(no) = against_groups(&self.diis, &self.blocks, &dsi) {
            return Err(no);
        }
        if let Some(number) = first_apart(self.notices.as_slice(), &dsi) {
            return Err(AuditNo::NoticeApart(number));
        }
        Ok(AuditYes {
            groups: count(&dsi),
            blocks: self.blocks.len() as u32,
        })
    }
}
