//! What a block is known by.

ghost use Rattle.std.specs.Prelude.{◌≡◌};
ghost use Rattle.dsmcc_msg.specs.View.{ddb_view};
ghost use Rattle.ssu_audit.specs.Said.{key_of as key_of_block};

use dsmcc_msg::Ddb;

/// downloadId, moduleId, moduleVersion and blockNumber.
#[derive(Clone, Copy, PartialEq, Eq, Hash)]
pub struct BlockKey {
    pub download: u32,
    pub module_id: u16,
    pub version: u8,
    pub block: u16,
}

/// The key of a block.
pub(crate) fn key_of(ddb: &Ddb<'_>) -> BlockKey
    ensures { result ≡ key_of_block (ddb_view ddb.now) }
{
    BlockKey {
        download: ddb.download,
        module_id: ddb.module,
        version: ddb.version,
        block: ddb.block,
    }
}
