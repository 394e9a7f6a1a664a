//! Writes an Update Notification Table of one section: ETSI TS 102 006, 9.4.

ghost use Rattle.std.specs.Prelude.{◌≡◌, ◌↔◌, ◌^◌, ℕ, ◌+◌, ◌<◌, ◌≤◌, ◌++◌, [], ◌∷◌, List, length, IsTrue, IfOk, IfErr, OnOk, OnErr, Err, true};
ghost use Rattle.section_form.specs.Long.{long_form};
ghost use Rattle.section_form.specs.Written.{long_bytes};
ghost use Rattle.si_desc.specs.Descriptors.{IsRow};
ghost use Rattle.ssu_compat.specs.Compat.{EntryFields, compat as compat_format};
ghost use Rattle.ssu_unt.specs.Table.{PlatformFields, unt};
ghost use Rattle.ssu_unt.specs.Written.{IsDraftOf, body_bytes, head_bytes, head_of, last_bytes, new_draft, no_pairs};
ghost use Rattle.ssu_unt.specs.Written.{oui_hash, section_length, unt_of, with_last, with_pair, with_platform};

use section_form::{MakeFault, table_section};
use si_desc::put_row;
use ssu_compat::Oui;
use ssu_io::NoMemory;
use std::alloc::{AllocError, Global};
use std::marker::Model;
use wire::{put_u8, put_u16, put_u24};

/// The greatest section_length.
const GREATEST_LENGTH: usize = 4093;

/// What section_length counts beside the body.
const BESIDE_BODY: usize = 9;

/// A table on the way: platform by platform, each with its pairs.
#[derive(Drop)]
pub struct UntWriter {
    alloc: Global,
    oui: Oui,
    version: u8,
    /// What stands before the length of the last platform's pairs.
    front: Vec<u8>,
    /// The pairs of the last platform.
    pairs: Vec<u8>,
    /// Whether a platform was begun.
    begun: bool,
}

impl Model for UntWriter {
    ghost use Rattle.std.specs.Prelude.{◌≤◌, ◌<◌, length};
    ghost use Rattle.ssu_unt.specs.Written.{Draft, body_bytes, section_length};

    ghost Value = { Draft };

    ghost view = { λ w. record { oui = w.oui; version = w.version; front = w.front.items; pairs = w.pairs.items; begun = w.begun } };

    ghost invariant = { λ w. (w.version < 32)
        × (section_length (body_bytes (record { oui = w.oui; version = w.version; front = w.front.items; pairs = w.pairs.items; begun = w.begun })) ≤ 4093)
        × (length w.pairs.items ≤ 4093) };
}

impl UntWriter {
    /// A table of system software updates for the OUI, of a version below 32, with processing_order 0 and no platform
    /// yet. `common` is a row of whole descriptors. `TooLong` comes exactly where section_length would pass 4,093,
    /// `Memory` where memory runs out.
    pub fn new(alloc: Global, oui: Oui, version: u8, common: &[u8]) -> Result<UntWriter, MakeFault>
        requires version { version < 32 }
        requires row { IsRow common.now }
        ensures made { IfOk result (λ w. w ≡ new_draft oui version common.now) }
        ensures table { IfOk result (λ w. IsDraftOf w common.now []) }
        ensures too_long { (result ≡ Err MakeFault.TooLong)
            ↔ (4093 < section_length (head_bytes oui common.now)) }
    {
        UntWriter::empty(alloc, oui, version, common)
    }

    fn empty(alloc: Global, oui: Oui, version: u8, common: &[u8]) -> Result<UntWriter, MakeFault>
        requires { version < 32 }
        ensures made { IfOk result (λ w. w ≡ new_draft oui version common.now) }
        ensures short { OnOk result (length common.now < 2 ^ 12) }
        ensures too_long { (result ≡ Err MakeFault.TooLong)
            ↔ (4093 < section_length (head_bytes oui common.now)) }
    {
        if common.len() > GREATEST_LENGTH - BESIDE_BODY - 6 {
            return Err(MakeFault::TooLong);
        }
        let front = head_of_table(alloc, oui, common)?;
        Ok(UntWriter {
            alloc,
            oui,
            version,
            front,
            pairs: Vec::new(alloc),
            begun: false,
        })
    }

    /// Begins a platform for the boxes of this compatibility descriptor, which has no pair yet. `TooLong` comes exactly
    /// where section_length would pass 4,093, `Memory` where memory runs out; the writer is then unchanged.
    pub fn platform(&mut self, compat: &[u8]) -> Result<(), MakeFault>
        requires { (entries : List EntryFields) × compat_format.Spells entries compat.now }
        ensures begun { OnOk result (self.new ≡ with_platform compat.now self.old) }
        ensures table { (common : List ℕ) (platforms : List PlatformFields) (entries : List EntryFields)
            → IsDraftOf self.old common platforms → compat_format.Spells entries compat.now
            → OnOk result (IsDraftOf self.new common (platforms ++ no_pairs entries ∷ [])) }
        ensures unchanged { OnErr result (self.new ≡ self.old) }
        ensures too_long { (result ≡ Err MakeFault.TooLong)
            ↔ (4093 < section_length (body_bytes self.old) + (length compat.now + 2)) }
    {
        self.begin(compat)
    }

    fn begin(&mut self, compat: &[u8]) -> Result<(), MakeFault>
        ensures begun { OnOk result (self.new ≡ with_platform compat.now self.old) }
        ensures unchanged { OnErr result (self.new ≡ self.old) }
        ensures too_long { (result ≡ Err MakeFault.TooLong)
            ↔ (4093 < section_length (body_bytes self.old) + (length compat.now + 2)) }
        ensures small { OnOk result (length self.old.pairs < 2 ^ 16) }
    {
        if compat.len() + 2 > GREATEST_LENGTH - self.section_length() {
            return Err(MakeFault::TooLong);
        }
        let mut piece = self.last_pairs()?;
        piece.extend_from_slice(compat)?;
        self.front.extend_from_slice(&piece)?;
        self.pairs.clear();
        self.begun = true;
        Ok(())
    }

    /// Adds a pair of rows of whole descriptors to the platform that was begun last. `TooLong` comes exactly where
    /// section_length would pass 4,093, `Memory` where memory runs out; the writer is then unchanged.
    pub fn pair(&mut self, target: &[u8], operational: &[u8]) -> Result<(), MakeFault>
        requires begun { IsTrue self.old.begun }
        requires target { IsRow target.now }
        requires operational { IsRow operational.now }
        ensures added { OnOk result (self.new ≡ with_pair target.now operational.now self.old) }
        ensures table { (common : List ℕ) (platforms : List PlatformFields)
            → IsDraftOf self.old common platforms
            → OnOk result (IsDraftOf self.new common
            (with_last (record { target = target.now; operational = operational.now }) platforms)) }
        ensures unchanged { OnErr result (self.new ≡ self.old) }
        ensures too_long { (result ≡ Err MakeFault.TooLong)
            ↔ (4093 < section_length (body_bytes self.old) + (length target.now + length operational.now + 4)) }
    {
        self.add(target, operational)
    }

    fn add(&mut self, target: &[u8], operational: &[u8]) -> Result<(), MakeFault>
        requires { IsTrue self.old.begun }
        ensures added { OnOk result (self.new ≡ with_pair target.now operational.now self.old) }
        ensures short { OnOk result ((length target.now < 2 ^ 12) × (length operational.now < 2 ^ 12)) }
        ensures unchanged { OnErr result (self.new ≡ self.old) }
        ensures too_long { (result ≡ Err MakeFault.TooLong)
            ↔ (4093 < section_length (body_bytes self.old) + (length target.now + length operational.now + 4)) }
    {
        let room = GREATEST_LENGTH - self.section_length();
        if target.len() > room || operational.len() > room {
            return Err(MakeFault::TooLong);
        }
        if target.len() + operational.len() + 4 > room {
            return Err(MakeFault::TooLong);
        }
        let mut piece = Vec::new(self.alloc);
        put_row(&mut piece, target)?;
        put_row(&mut piece, operational)?;
        self.pairs.extend_from_slice(&piece)?;
        Ok(())
    }

    /// The section. `NoMemory` is the one refusal, and hands the writer back as it was.
    pub fn finish(self) -> Result<Vec<u8>, (UntWriter, NoMemory)>
        ensures bytes { IfOk result (λ s. s.items ≡ long_bytes true (head_of self)) }
        ensures read_back { (common : List ℕ) (platforms : List PlatformFields)
            → IsDraftOf self common platforms
            → IfOk result (λ s. unt.Spells (unt_of self.oui common platforms) s.items) }
        ensures unchanged { IfErr result (λ e. e.0 ≡ self) }
    {
        match self.section() {
            Ok(section) => Ok(section),
            Err(fault) => Err((self, fault)),
        }
    }

    fn section(&self) -> Result<Vec<u8>, NoMemory>
        ensures bytes { IfOk result (λ s. s.items ≡ long_bytes true (head_of self.now)) }
        ensures spelled { IfOk result (λ s. long_form.Spells (head_of self.now) s.items) }
        ensures oui { OnOk result (self.now.oui < 2 ^ 24) }
        ensures hash { OnOk result (oui_hash self.now.oui < 2 ^ 8) }
        ensures small { OnOk result (length self.now.pairs < 2 ^ 16) }
    {
        let body = self.body()?;
        let extension = 0x100 + hash_of(self.oui);
        table_section(self.alloc, 0x4B, extension, self.version, &body, true)
    }

    fn body(&self) -> Result<Vec<u8>, NoMemory>
        ensures { IfOk result (λ v. v.items ≡ body_bytes self.now) }
    {
        let last = self.last_pairs()?;
        let mut body = Vec::from_slice(self.alloc, &self.front)?;
        body.extend_from_slice(&last)?;
        Ok(body)
    }

    // The length of the last platform's pairs and the pairs; nothing before the first platform.
    fn last_pairs(&self) -> Result<Vec<u8>, AllocError>
        ensures { IfOk result (λ v. v.items ≡ last_bytes self.now) }
    {
        let mut last = Vec::new(self.alloc);
        if self.begun {
            put_u16(&mut last, self.pairs.len() as u16)?;
            last.extend_from_slice(&self.pairs)?;
        }
        Ok(last)
    }

    fn section_length(&self) -> usize
        ensures length { result ≡ section_length (body_bytes self.now) }
        ensures in_range { result ≤ 4093 }
    {
        if self.begun {
            return BESIDE_BODY + self.front.len() + 2 + self.pairs.len();
        }
        BESIDE_BODY + self.front.len()
    }
}

fn head_of_table(alloc: Global, oui: Oui, common: &[u8]) -> Result<Vec<u8>, NoMemory>
    requires { length common.now < 4096 }
    ensures { IfOk result (λ v. v.items ≡ head_bytes oui common.now) }
{
    let mut head = Vec::new(alloc);
    put_u24(&mut head, oui.get())?;
    put_u8(&mut head, 0)?;
    put_row(&mut head, common)?;
    Ok(head)
}

// OUI_hash: the exclusive or of the three bytes.
fn hash_of(oui: Oui) -> u16
    ensures value { result ≡ oui_hash oui }
    ensures in_range { result < 256 }
    ensures oui { oui < 2 ^ 24 }
{
    let [_, first, second, third] = oui.get().to_be_bytes();
    u16::from(first ^ second ^ third)
}
