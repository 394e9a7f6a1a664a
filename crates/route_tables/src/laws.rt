//! What hostile sections can do to the tables, as the contract of a function that does nothing.

ghost use Rattle.std.specs.Prelude.{List};
ghost use Rattle.ts_section.specs.Events.{Heard};
ghost use Rattle.route_tables.specs.Values.{Receiver};
ghost use Rattle.route_tables.specs.Standing.{IsSilent, IsElsewhere, IsUnmoved};

/// A section that is of none of the formats leaves every level as it was, on whatever PID; and so does any section on a
/// PID on which no table is looked for.
pub fn levels_stay()
    ensures silent { (me : Receiver) → (item : Heard) → (earlier : List Heard) → IsSilent item.section → IsUnmoved me item earlier }
    ensures elsewhere { (me : Receiver) → (item : Heard) → (earlier : List Heard) → IsElsewhere me earlier item.pid
        → IsUnmoved me item earlier }
{}
