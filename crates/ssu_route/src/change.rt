//! What one section changes.

/// What one section changed of the group that the box wants.
#[derive(Clone, Copy, Debug, PartialEq, Eq)]
pub enum Change {
    /// Nothing.
    Same,
    /// A choice began, whether or not one ended.
    Chosen,
    /// A choice ended, and none began.
    Lost,
}
