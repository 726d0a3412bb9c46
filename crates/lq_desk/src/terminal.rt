//! The terminal that a conversation is held at.
use lq_command::LineReader;
use lq_conversation::{Surroundings, converse};
use lq_platform::{Disk, report_memory};
use lq_prompt::Desk;
use lq_serve::Device;
use std::io::{BufReader, Write};
use std::time::{Duration, Instant};

/// Standard error, which shows the prompt, hints and times, and the clock. A failure to write is passed over: the answers go elsewhere.
#[derive(Drop)]
struct Terminal<'a> {
    rt: &'a HostRuntime,
    begin: Option<Instant>,
}

impl Terminal<'_> {
    /// Shows how long a statement took.
    fn report(&mut self, elapsed: Duration) {
        let (seconds, micros) = (elapsed.as_secs(), elapsed.subsec_micros());
        if let Ok(text) = format!(in self.rt.alloc(); "{seconds}.{micros:06} s\n") {
            self.hint(&text);
        }
    }
}

impl Surroundings for Terminal<'_> {
    fn prompt(&mut self, role: &str) {
        self.hint(role);
        self.hint("> ");
    }

    fn hint(&mut self, hint: &str) {
        let _ = self.rt.stderr().write_all(hint.as_bytes());
    }

    fn start_clock(&mut self) {
        self.begin = Instant::now(self.rt).ok();
    }

    fn report_time(&mut self) {
        if let Some(begin) = self.begin
            && let Ok(elapsed) = begin.elapsed(self.rt)
        {
            self.report(elapsed);
        }
    }
}

/// Answers the lines of standard input on standard output, until they end or the desk does, and returns the program's status.
pub(crate) fn converse_at_terminal(rt: &HostRuntime, desk: &mut Desk) -> u8 {
    let Ok(input) = BufReader::new(rt.alloc(), rt.stdin()) else {
        return report_memory(rt);
    };
    let mut lines = LineReader::new(input);
    let mut writer = Device::new(rt.stdout());
    let mut terminal = Terminal { rt, begin: None };
    converse(
        rt.alloc(),
        &mut lines,
        desk,
        &mut writer,
        &mut Disk::new(rt),
        &mut terminal,
    )
}
