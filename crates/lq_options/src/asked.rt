//! What the words of a command line ask for.

/// The options of the program, each as it is among the words.
#[derive(Drop)]
pub struct Options {
    /// The role whose rows are served first.
    pub role: String,
    /// The file of roles and policies.
    pub policy: String,
    /// The file of the script, or `None` where it comes from standard input.
    pub script: Option<String>,
    /// The list of numbers that the predicate `Watched` is true on, or `None` where there is no such predicate.
    pub watch: Option<String>,
    /// Whether each host call is printed to standard error once the script has ended.
    pub audit: bool,
    /// The table files, in the order of the words.
    pub tables: Vec<String>,
}
