//! What surrounds a conversation.

/// What surrounds a conversation: where the prompt, hints and times are shown. None of them is an answer.
pub trait Surroundings {
    /// Shows the prompt, with the name of the present role.
    fn prompt(&mut self, role: &str);

    /// Shows a hint.
    fn hint(&mut self, hint: &str);

    /// Begins to measure how long a statement takes.
    fn start_clock(&mut self);

    /// Shows how much time has passed since then.
    fn report_time(&mut self);
}
