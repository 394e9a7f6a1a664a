//! A flash with spares since it was opened.
ghost use Rattle.std.specs.Prelude.{true, false, ◌≡◌, ◌<◌, ◌≤◌, ◌+◌, ◌^◌, ℕ};
ghost use Rattle.flash_remap.specs.Layout.{Geometry, geometry_in};
ghost use Rattle.flash_remap.specs.Seen.{faults_of, geometry_of, inner_of, left_of, worn_of};
ghost use Rattle.ssu_io.specs.Faults.{Rose};

use flash_dev::Flash;
use flash_remap::Remap;
use ssu_io::Failed;
use std::marker::{Brand, PhantomData};

/// The flash with spares as it was opened: how it is parted, how often that beneath had failed, and how many replacements were left.
pub trait Opening {
    ghost geometry: { Geometry };

    ghost count: { ℕ };

    ghost left: { ℕ };
}

impl Opening for Brand {
    ghost geometry = { geometry_in 0 0 0 };

    ghost count = { 0 };

    ghost left = { 0 };
}

/// A flash with spares since it was opened. It is parted as then, and its failures are failures of the flash beneath since then. No
/// more replacements were used since then than the count of that rose by, and where it is worn, none is left.
#[derive(Drop)]
pub struct Opened<F: Flash, K: Opening> {
    remap: Remap<F>,
    of: PhantomData<K>,
    ghost geometry: { geometry_of remap ≡ K.geometry },
    ghost later: { K.count ≤ F.faults (inner_of remap) },
    ghost failed: { 1 ≤ faults_of remap → Rose K.count (F.faults (inner_of remap)) },
    ghost worn: { worn_of remap ≡ true → Rose K.count (F.faults (inner_of remap)) },
    ghost fewer: { left_of remap ≤ K.left },
    ghost uses: { F.faults (inner_of remap) + 1 < 2 ^ 64 → K.left + K.count ≤ left_of remap + F.faults (inner_of remap) },
    ghost used_up: { worn_of remap ≡ true → left_of remap ≡ 0 },
}

impl<F: Flash, K: Opening> Opened<F, K> {
    pub(crate) fn of(remap: Remap<F>) -> Opened<F, K>
        requires geometry { geometry_of remap ≡ K.geometry }
        requires count { F.faults (inner_of remap) ≡ K.count }
        requires left { left_of remap ≡ K.left }
        requires fresh { faults_of remap ≡ 0 }
        requires goes { worn_of remap ≡ false }
        ensures { result.remap ≡ remap }
    {
        Opened {
            remap,
            of: PhantomData,
        }
    }

    /// The flash beneath.
    pub(crate) fn into_inner(self) -> F
        ensures { result ≡ inner_of self.remap }
    {
        let Opened { remap, of: _ } = self;
        remap.into_inner()
    }
}

impl<F: Flash, K: Opening> Flash for Opened<F, K> {
    ghost use Rattle.flash_remap.specs.SeenLaws.{byte_seen, only_seen, seen_now};
    ghost use Rattle.flash_remap.specs.Seen.{block_count_of, block_len_of, contents_of, faults_of, geometry_of, halted_of, inner_of, left_since_of};

    ghost tells = { F.tells };

    ghost tells_moments = { F.tells × F.tells_moments };

    ghost contents = { λ it. contents_of it.remap };

    ghost block_count = { λ it. block_count_of it.remap };

    ghost block_len = { λ it. block_len_of it.remap };

    ghost moment = { λ it. F.moment (inner_of it.remap) };

    ghost left_since = { λ it. left_since_of it.remap };

    ghost halted = { λ it. halted_of it.remap };

    ghost faults = { λ it. faults_of it.remap };

    ghost are_bytes = { λ tells it k. byte_seen (geometry_of it.remap) (F.contents (inner_of it.remap)) (F.are_bytes tells (inner_of it.remap)) k };

    ghost counts_now = { λ both it t le. seen_now (geometry_of it.remap) (inner_of it.remap) t both.0 (F.counts_now both.1 (inner_of it.remap) t le) };

    ghost only_now = { λ it c left. only_seen (geometry_of it.remap) (inner_of it.remap) c (F.only_now (inner_of it.remap)) left };

    fn blocks(&self) -> u32 {
        self.remap.blocks()
    }

    fn block_size(&self) -> u32 {
        self.remap.block_size()
    }

    fn read(&mut self, at: u32, buf: &mut [u8]) -> Result<(), Failed> {
        self.remap.read(at, buf)
    }

    fn erase(&mut self, block: u32) -> Result<(), Failed> {
        self.remap.erase(block)
    }

    fn program(&mut self, at: u32, bytes: &[u8]) -> Result<(), Failed> {
        self.remap.program(at, bytes)
    }
}
