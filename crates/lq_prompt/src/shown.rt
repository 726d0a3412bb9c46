//! Replies as they are shown.
ghost use Rattle.std.specs.Prelude.{◌≡◌, IfOk, option_map, string_bytes};
ghost use Rattle.lq_prompt.specs.Answers.{IsTextOf, Shows};

use crate::answer::Answer;
use crate::settings::Settings;
use lq_json::Line;
use lq_render::{Layout, reply_text};
use lq_run::State;
use lq_value::Ty;
use std::alloc::{AllocError, Global};

/// A reply's line as people read it, by the type that it is served by.
fn text_of(
    alloc: Global,
    settings: Settings,
    state: &State,
    ty: Option<&Ty>,
    line: &Line,
) -> Result<String, AllocError>
    ensures { IfOk result
        (λ text. IsTextOf settings state.now.tables (option_map (λ t. t.now) ty.entry) line.now
        (string_bytes text)) }
{
    let layout = Layout {
        ty,
        store: state.store(),
        most_rows: settings.most_rows,
    };
    Ok(reply_text(alloc, line.bytes(), &layout)?)
}

/// What is shown of the reply to a statement that is served by this type.
pub(crate) fn shown(
    alloc: Global,
    settings: Settings,
    state: &State,
    ty: Option<&Ty>,
    reply: Option<Line>,
) -> Answer
    ensures { Shows settings state.now.tables (option_map (λ t. t.now) ty.entry) reply result }
{
    let Some(line) = reply else {
        return Answer::Nothing;
    };
    if settings.is_json {
        return Answer::Reply(line);
    }
    match text_of(alloc, settings, state, ty, &line) {
        Ok(text) => Answer::Shown(text),
        Err(AllocError) => Answer::Reply(line),
    }
}
