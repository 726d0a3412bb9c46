//! How a desk shows its replies.

/// How a desk shows its replies.
#[derive(Clone, Copy, Drop, Eq, PartialEq)]
pub struct Settings {
    /// The most rows of a reply that are shown.
    pub most_rows: usize,
    /// Whether replies are shown as their lines of JSON.
    pub is_json: bool,
    /// Whether the time that each statement takes is reported.
    pub is_timed: bool,
}

/// The settings that a desk begins with.
pub(crate) const FIRST: Settings = Settings {
    most_rows: 20,
    is_json: false,
    is_timed: false,
};
