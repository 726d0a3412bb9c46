//! What the words of a command line of the program `desk` ask for.
use crate::asked::Options;

/// The options of the desk, each as it is among the words.
#[derive(Drop)]
pub struct DeskOptions {
    /// The role that the desk begins with.
    pub role: String,
    /// The file of roles and policies.
    pub policy: String,
    /// The list of numbers that the predicate `Watched` is true on, or `None` where there is no such predicate.
    pub watch: Option<String>,
    /// The table files, in the order of the words.
    pub tables: Vec<String>,
}

impl From<DeskOptions> for Options {
    ghost use Rattle.std.specs.Prelude.{◌≡◌, None, false};

    ghost from_gives = { λ asked options. options ≡ record {
      role = asked.role;
      policy = asked.policy;
      script = None;
      watch = asked.watch;
      audit = false;
      tables = asked.tables;
    } };

    fn from(asked: DeskOptions) -> Options {
        Options {
            role: asked.role,
            policy: asked.policy,
            script: None,
            watch: asked.watch,
            audit: false,
            tables: asked.tables,
        }
    }
}
