//! The laws, each as the contract of a function that does nothing.

ghost use Rattle.std.specs.Prelude.{◌≡◌, ◌≢◌, ◌++◌, ℕ, Contains, List, Some, reverse};
ghost use Rattle.std.specs.List.{All, concat};
ghost use Rattle.dsmcc_msg.specs.Block.{DdbFields, ddb};
ghost use Rattle.dsmcc_msg.specs.Control.{DiiFields, DsiFields, dii, dsi};
ghost use Rattle.dsmcc_msg.specs.Written.{dii_of};
ghost use Rattle.head_carousel.specs.Control.{dii_draft};
ghost use Rattle.head_carousel.specs.GroupFiles.{GroupFiles};
ghost use Rattle.head_carousel.specs.Sections.{plan_groups};
ghost use Rattle.head_plan.specs.Plans.{PlanData};
ghost use Rattle.route_tables.specs.Values.{Receiver};
ghost use Rattle.section_form.specs.Section.{table_id};
ghost use Rattle.ssu_group.specs.Carried.{CarriesWhole, carried_image, filling, missing_places};
ghost use Rattle.ssu_group.specs.Lays.{IsPlanOf};
ghost use Rattle.ssu_group.specs.declared.group_plan.GroupPlan.{GroupPlan};
ghost use Rattle.ssu_route.specs.Choosing.{level_6, level_7};
ghost use Rattle.ssu_route.specs.Offers.{Offer};
ghost use Rattle.ssu_route.specs.Queries.{heard_by};
ghost use Rattle.ssu_route.specs.Windows.{IsChoice, window};
ghost use Rattle.ssu_route.specs.declared.choice.Choice.{Choice};
ghost use Rattle.ts_section.specs.Events.{Heard};
ghost use Rattle.broadcast_laws.specs.OneOf.{IsGroupForBox};
ghost use Rattle.broadcast_laws.specs.Planned.{IsOfPlan, IsPlannedDdb, IsPlannedDii, IsSent, dsi_of_plan, sent_sections};
ghost use Rattle.broadcast_laws.specs.Received.{IsDiiOf, IsDsiOf, IsHeardOn};
ghost use Rattle.broadcast_laws.specs.Undeceived.{IsRightIn, IsUndeceived};

// ---- what is heard

/// Each section that a box hears in packets is a right whole section of a PID of theirs, from some packet on.
pub fn heard_sections_are_right()
    ensures { (me : Receiver) (packets : List (List ℕ)) (item : Heard) → Contains (heard_by me (reverse packets)) item
        → IsRightIn packets item.section }
{}

/// Where no section of the packets deceives, a box that took a front of them heard nothing but what was sent, TDTs apart.
pub fn undeceived_boxes_hear_what_is_sent()
    ensures { (sections front back : List (List ℕ)) → IsUndeceived sections (front ++ back)
        → (me : Receiver) (item : Heard) → Contains (heard_by me (reverse front)) item → table_id item.section ≢ 0x70
        → Contains sections item.section }
{}

// ---- what the levels are made of

/// The message of level 7 is that of a DII that was heard.
pub fn received_modules()
    ensures { (me : Receiver) (heard : List Heard) (message : List ℕ) → level_7 me heard ≡ Some message
        → IsHeardOn me heard (λ c section. IsDiiOf message section) }
{}

/// The groups of level 6 are those of a DSI that was heard.
pub fn received_groups()
    ensures { (me : Receiver) (heard : List Heard) (offer : Offer) → Contains (level_6 me heard) offer
        → IsHeardOn me heard (IsDsiOf me heard) }
{}

/// A window is made of sections that were heard.
pub fn received_windows()
    ensures { (me : Receiver) (heard : List Heard) (section : List ℕ) → Contains (window me heard) section
        → IsHeardOn me heard (λ c heard_section. heard_section ≡ section) }
{}

// ---- the sections of a plan

/// A DSI among the sections of a plan is the plan's DSI.
pub fn planned_dsis()
    ensures { (p : PlanData) (images : List (List ℕ)) (section : List ℕ) (d : DsiFields) → IsSent p images
        → Contains (sent_sections p images) section → dsi.of section ≡ Some d → d ≡ dsi_of_plan p images }
{}

/// A DII among them is that of one group of the plan.
pub fn planned_diis()
    ensures { (p : PlanData) (images : List (List ℕ)) (section : List ℕ) (d : DiiFields) → IsSent p images
        → Contains (sent_sections p images) section → dii.of section ≡ Some d → IsPlannedDii p images d }
{}

/// A DDB among them is a block of a file of the plan.
pub fn planned_blocks()
    ensures { (p : PlanData) (images : List (List ℕ)) (section : List ℕ) (d : DdbFields) → IsSent p images
        → Contains (sent_sections p images) section → ddb.of section ≡ Some d → IsPlannedDdb p images d }
{}

/// The groups of a plan are told apart by their ids.
pub fn groups_are_told_apart()
    ensures { (p : PlanData) (images : List (List ℕ)) (g h : GroupFiles) → Contains (plan_groups p images) g
        → Contains (plan_groups p images) h → g.id ≡ h.id → g ≡ h }
{}

/// Under the DII of a group, sections of the plan that fill all its places carry the files of the group, joined.
pub fn blocks_join_to_files()
    ensures { (p : PlanData) (images : List (List ℕ)) (g : GroupFiles) (plan : GroupPlan) (sections : List (List ℕ)) → IsSent p images
        → Contains (plan_groups p images) g → IsPlanOf (dii_of (dii_draft g)) plan → All (IsOfPlan p images) sections
        → missing_places plan (filling plan sections) ≡ 0 → carried_image plan (filling plan sections) ≡ concat g.files }
{}

// ---- the box and the plan

/// If a box heard nothing but sections of the plan, TDTs apart, then a group that its choice's window carries whole is a group of
/// the plan for this box, and the image is its files, joined.
pub fn heard_groups_are_planned()
    ensures window { (p : PlanData) (images : List (List ℕ)) → IsSent p images → (me : Receiver) (heard : List Heard)
        → ((item : Heard) → Contains heard item → IsOfPlan p images item.section)
        → (choice : Choice) (image : List ℕ) → IsChoice me heard choice
        → CarriesWhole choice.plan (filling choice.plan (window me heard)) image
        → IsGroupForBox p images me choice.group choice.software image }
    // So is one that any sections of the plan carry whole, as those of the choices before, where their places are kept.
    ensures sections { (p : PlanData) (images : List (List ℕ)) → IsSent p images → (me : Receiver) (heard : List Heard)
        → ((item : Heard) → Contains heard item → IsOfPlan p images item.section)
        → (sections : List (List ℕ)) → All (IsOfPlan p images) sections
        → (choice : Choice) (image : List ℕ) → IsChoice me heard choice
        → CarriesWhole choice.plan (filling choice.plan sections) image
        → IsGroupForBox p images me choice.group choice.software image }
{}
