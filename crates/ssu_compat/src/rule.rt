//! The software of a box, and the rules by which it takes another.

ghost use Rattle.std.specs.Prelude.{◌≡◌};
ghost use Rattle.ssu_compat.specs.Match.{admits as admits_of};

/// A software by its model and version.
#[derive(Clone, Copy, Debug, PartialEq, Eq)]
pub struct SwId {
    pub model: u16,
    pub version: u16,
}

/// Which offers a box takes.
#[derive(Clone, Copy, Debug, PartialEq, Eq)]
pub enum Rule {
    /// A version above the running one.
    Newer,
    /// A model and version that are not both the running ones.
    Different,
    /// Whatever there is, also without an offered software.
    Any,
}

/// Does the rule admit what is offered to a box that runs this software?
pub fn admits(rule: Rule, running: SwId, offered: Option<SwId>) -> bool
    ensures { result ≡ admits_of rule running offered }
{
    match (rule, offered) {
        (Rule::Any, _) => true,
        (Rule::Newer, Some(new)) => new.version > running.version,
        (Rule::Different, Some(new)) => {
            !(new.model == running.model && new.version == running.version)
        }
        (_, None) => false,
    }
}
