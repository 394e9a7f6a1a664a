//! The blocks of a carousel, each under its key.

ghost use Rattle.std.specs.Prelude.{◌≡◌, ◌≤◌, None, IfOk, OnErr, ℕ};
ghost use Rattle.std.specs.HashMap.{hash_map_len};
ghost use Rattle.dsmcc_msg.specs.View.{ddb_view};
ghost use Rattle.ssu_audit.specs.Kept.{KeepsFirst, block_answer, block_at, one_more};
ghost use Rattle.ssu_audit.specs.Said.{key_of as key_of_block, same_key};
ghost use Rattle.ssu_audit.specs.declared.key.BlockKey.{BlockKey};

use crate::kept::Kept;
use crate::key::{BlockKey, key_of};
use audit_answer::AuditNo;
use dsmcc_msg::Ddb;
use ssu_io::NoMemory;
use std::alloc::Global;
use std::collections::HashMap;

/// The most keys of blocks that are kept.
const MOST_KEYS: usize = 65536;

/// Keeps a block, unless another stands under its key or there are too many.
pub(crate) fn hear_block(
    blocks: &mut HashMap<BlockKey, Kept>,
    alloc: Global,
    number: u64,
    ddb: &Ddb<'_>,
) -> Result<Option<AuditNo>, NoMemory>
    requires few { hash_map_len blocks.old ≤ 65536 }
    ensures answer { IfOk result (λ answer. answer ≡ block_answer (block_at blocks.old (key_of_block (ddb_view ddb.now)))
        (hash_map_len blocks.old) number ddb.now.bytes.now) }
    ensures kept { IfOk result (λ answer. answer ≡ None
        → KeepsFirst same_key (block_at blocks.old) (block_at blocks.new) (key_of_block (ddb_view ddb.now)) (number, ddb.now.bytes.now)) }
    ensures keys { IfOk result (λ answer. answer ≡ None → hash_map_len blocks.new
        ≡ one_more (block_at blocks.old (key_of_block (ddb_view ddb.now))) (hash_map_len blocks.old)) }
    ensures unchanged { OnErr result ((key : BlockKey) → block_at blocks.new key ≡ block_at blocks.old key) }
    ensures same_keys { OnErr result (hash_map_len blocks.new ≡ hash_map_len blocks.old) }
{
    let key = key_of(ddb);
    if let Some(kept) = blocks.get(&key) {
        if kept.bytes.as_slice() == ddb.bytes {
            return Ok(None);
        }
        return Ok(Some(AuditNo::BlockDiffers(kept.number, number)));
    }
    if blocks.len() == MOST_KEYS {
        return Ok(Some(AuditNo::TooManyBlocks(65537)));
    }
    let kept = Kept::new(alloc, number, ddb.bytes)?;
    blocks.insert(key, kept)?;
    Ok(None)
}
