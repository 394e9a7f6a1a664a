//! Level 5, the window: the carousel of an update that the box may take now. ETSI TS 102 006, 9.6.

ghost use Rattle.std.specs.Prelude.{◌≡◌, ◌==◌, map};
ghost use Rattle.std.specs.List.{filter, find};
ghost use Rattle.std.specs.Option.{option_map};
ghost use Rattle.ssu_unt.specs.Views.{entry_view};
ghost use Rattle.route_tables.specs.Said.{first_some};
ghost use Rattle.route_tables.specs.Levels.{carousel_at, entries_of, entry_open, carousel_from, carousel_if};
ghost use Rattle.route_tables.specs.Standing.{carousel_view, component_view, notice_view, tagged_view};

use crate::component::{Component, Tagged};
use crate::notice::Notice;
use ssu_unt::UntEntry;
use ts_packet::Pid;

/// Where the groups of an update are sent.
#[derive(Clone, Copy, Debug, PartialEq, Eq)]
pub struct Carousel {
    /// The PID of the carousel.
    pub pid: Pid,
    /// The subgroup to which its groups must belong, of 40 bits, if one is asked for.
    pub subgroup: Option<u64>,
}

/// The carousel of the component, or of the first entry that is open and leads to one.
#[tactic(auto, unfolding(crate::specs::Said::first_some))]
pub(crate) fn carousel_now(
    manual: bool,
    time: Option<u64>,
    component: &Option<Component>,
    notice: &Option<Notice>,
) -> Option<Carousel>
    ensures { option_map carousel_view result
        ≡ carousel_from manual time (option_map component_view component.now) (entries_of (option_map notice_view notice.now)) }
{
    let Some(component) = component else {
        return None;
    };
    if !component.has_notice() {
        return Some(Carousel {
            pid: component.pid,
            subgroup: None,
        });
    }
    let Some(notice) = notice else {
        return None;
    };
    first_open(
        manual,
        time,
        component.tagged.as_slice(),
        notice.entries.as_slice(),
    )
}

#[tactic(auto, unfolding(crate::specs::Said::first_some))]
fn first_open(
    manual: bool,
    time: Option<u64>,
    tagged: &[Tagged],
    entries: &[UntEntry],
) -> Option<Carousel>
    ensures { option_map carousel_view result
        ≡ first_some (carousel_at (map tagged_view tagged.now)) (filter (entry_open manual time) (map entry_view entries.now)) }
{
    for entry in entries {
        if let Some(carousel) = carousel_of(manual, time, tagged, entry) {
            return Some(carousel);
        }
    }
    None
}

/// The carousel of an entry, if it is open and leads to one.
fn carousel_of(
    manual: bool,
    time: Option<u64>,
    tagged: &[Tagged],
    entry: &UntEntry,
) -> Option<Carousel>
    ensures { option_map carousel_view result
        ≡ carousel_if manual time (map tagged_view tagged.now) (entry_view entry.now) }
{
    if !entry.is_open(time, manual) {
        return None;
    }
    let pid = pid_of_tag(tagged, entry.tag)?;
    Some(Carousel {
        pid,
        subgroup: entry.subgroup,
    })
}

/// The PID of the first stream that has the component tag.
fn pid_of_tag(tagged: &[Tagged], tag: u8) -> Option<Pid>
    ensures { result ≡ option_map (λ s. s.pid) (find (λ s. s.tag == tag) (map tagged_view tagged.now)) }
{
    for stream in tagged {
        if stream.tag == tag {
            return Some(stream.pid);
        }
    }
    None
}
