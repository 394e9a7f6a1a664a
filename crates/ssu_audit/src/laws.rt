//! What a yes means, as the contract of a function that does nothing.

ghost use Rattle.std.specs.Prelude.{◌≡◌, List, Ok, Result};
ghost use Rattle.audit_answer.specs.declared.answers.AuditNo.{AuditNo};
ghost use Rattle.audit_answer.specs.declared.answers.AuditYes.{AuditYes};
ghost use Rattle.ssu_audit.specs.Calls.{Call, carousel};
ghost use Rattle.ssu_audit.specs.Ending.{Ends};
ghost use Rattle.ssu_audit.specs.Hearing.{IsOpen};
ghost use Rattle.ssu_audit.specs.OneImage.{HasOneImagePerGroup};

/// Where no section was answered by a fact and the end is a yes, each group of the DSI has one image: what was heard carries
/// the group whole as this image, and so does every list of some of its sections, in any order, with losses and repeats,
/// that carries the group whole.
pub fn yes_means_one_image()
    ensures { (calls : List Call) (counts : AuditYes) → IsOpen calls → Ends calls (Ok counts) → HasOneImagePerGroup (carousel calls) }
{}

/// There is one answer to the calls.
pub fn answers_are_one()
    ensures { (calls : List Call) (one other : Result AuditYes AuditNo) → Ends calls one → Ends calls other → one ≡ other }
{}
