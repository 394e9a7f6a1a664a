//! The laws, each as the contract of a function that does nothing.

ghost use Rattle.std.specs.Prelude.{ℕ, List, Ok, Option};
ghost use Rattle.audit_answer.specs.declared.answers.AuditYes.{AuditYes};
ghost use Rattle.dsmcc_msg.specs.Control.{DiiFields};
ghost use Rattle.flash_layout.specs.Layout.{Geometry};
ghost use Rattle.route_tables.specs.Values.{Receiver};
ghost use Rattle.ssu_answer.specs.declared.chosen.Chosen.{Chosen};
ghost use Rattle.ssu_audit.specs.Calls.{Call, carousel};
ghost use Rattle.ssu_audit.specs.Ending.{Ends};
ghost use Rattle.ssu_audit.specs.Hearing.{IsOpen};
ghost use Rattle.ssu_audit.specs.OneImage.{HasOneImage};
ghost use Rattle.ssu_loader.specs.Decisions.{Reaches, Whole};
ghost use Rattle.ssu_loader.specs.Opening.{KeepsNothing};
ghost use Rattle.ssu_loader.specs.Replays.{TakesAndInstalls};
ghost use Rattle.ts_section.specs.Events.{Heard};
ghost use Rattle.audit_replay.specs.Collected.{AreAudited, AreAuditedPackets, InstallsAudited, IsCollected, IsListed};

/// A group that a box which keeps nothing decides to install was collected from the sections on one PID, under one DII.
pub fn installed_groups_are_collected()
    ensures { (me : Receiver) (heard : List Heard) (chosen : Chosen) (image : List ℕ) → KeepsNothing me → Reaches me heard (Whole chosen image)
        → (pid : ℕ) × ((dii : DiiFields) × IsCollected me heard chosen image pid dii) }
{}

/// Where an audit answered yes, and all sections that a box heard on the PID of its carousel are among those audited, a group
/// that it collected there under an audited DII, which an audited DSI lists, has the one image of that group.
pub fn yes_holds_for_sections()
    ensures { (calls : List Call) (counts : AuditYes) → IsOpen calls → Ends calls (Ok counts)
        → (me : Receiver) (heard : List Heard) (chosen : Chosen) (image : List ℕ) (pid : ℕ) (dii : DiiFields)
        → IsCollected me heard chosen image pid dii → AreAudited calls pid heard → IsListed calls dii → HasOneImage (carousel calls) dii image }
{}

/// So in every replay: where it installed a group, by what its contract says of that answer, and all sections that the box heard
/// on that PID in the packets taken are among those audited, what boot takes after it is the one image of the group.
pub fn yes_holds_for_replay()
    ensures { (calls : List Call) (counts : AuditYes) → IsOpen calls → Ends calls (Ok counts)
        → (me : Receiver) (left left_after : Option (List ℕ)) (g : Geometry) (x y : List ℕ) (chosen : Chosen)
        → TakesAndInstalls me left left_after g x y chosen
        → (pid : ℕ) → AreAuditedPackets calls pid me left left_after → InstallsAudited calls me left left_after g x y chosen pid }
{}
