ghost use Rattle.std.specs.Prelude.{◌≡◌, true, Some, None};
ghost use Rattle.control.specs.LineEffect.{is_reader, is_writer, is_modified, completed, settled, after_settling, taken_in, moved_on, line_completes};

use crate::line::{Line, LineCompletion, LineInput};
use base::{Ask, Place};
use cache_table::CacheState;
use network::Response;

/// Whether a cache in this state may read its block: S, SM^AD, SM^A, M and E.
pub fn may_read(state: CacheState) -> bool
    ensures { result ≡ is_reader state }
{
    match state {
        CacheState::S | CacheState::SmAd | CacheState::SmA | CacheState::M | CacheState::E => true,
        _ => false,
    }
}

/// Whether a cache in this state may write its block: M and E.
pub fn may_write(state: CacheState) -> bool
    ensures { result ≡ is_writer state }
{
    matches!(state, CacheState::M | CacheState::E)
}

/// Whether a store is done where it leads to this state: M alone. A store in E leads to M.
fn is_stored_in(state: CacheState) -> bool
    ensures { result ≡ is_modified state }
{
    matches!(state, CacheState::M)
}

fn complete(line: &Line, ask: Ask) -> Option<LineCompletion>
    ensures { result ≡ completed ask line.now }
{
    match ask {
        Ask::Load => {
            if may_read(line.state) {
                return Some(LineCompletion::Load(line.value));
            }
        }
        Ask::Store(value) => {
            if is_stored_in(line.state) {
                return Some(LineCompletion::Store(value));
            }
        }
        Ask::Replace => {}
    }
    None
}

/// The line takes in what a response brings.
fn take_in(line: &mut Line, input: LineInput)
    ensures { line.new ≡ taken_in input line.old }
{
    match input {
        LineInput::Response(
            Response::Data {
                from: Place::Cache(_),
                to: _,
                value,
                acks: _,
            },
        ) => line.value = value,
        LineInput::Response(
            Response::Data {
                from: Place::Dir,
                to: _,
                value,
                acks: more,
            },
        ) => {
            line.value = value;
            line.acks = line.acks.saturating_add(more as i64);
        }
        LineInput::Response(Response::InvAck { from: _, to: _ }) => {
            line.acks = line.acks.saturating_sub(1);
        }
        LineInput::Response(Response::DataExcl { to: _, value }) => line.value = value,
        LineInput::Ask(_) | LineInput::Forward(_) => {}
    }
}

/// The line takes an input in, and goes to the next state.
#[inline(always)]
pub(crate) fn move_on(line: &mut Line, input: LineInput, next: CacheState)
    ensures { line.new ≡ moved_on input next line.old }
{
    take_in(line, input);
    line.state = next;
}

/// What completes by an input at a line in its new state.
pub(crate) fn settle(line: &Line, input: LineInput) -> Option<LineCompletion>
    ensures { result ≡ settled input line.now }
{
    match input {
        LineInput::Ask(ask) => complete(line, ask),
        LineInput::Forward(_) | LineInput::Response(_) => match line.pending {
            Some(ask) => complete(line, ask),
            None => None,
        },
    }
}

/// The line after what completes.
pub(crate) fn finish(line: &mut Line, input: LineInput, done: Option<LineCompletion>)
    ensures { line.new ≡ after_settling input done line.old }
{
    if let Some(LineCompletion::Store(value)) = done {
        line.value = value;
    }
    match input {
        LineInput::Ask(Ask::Replace) => {}
        LineInput::Ask(ask) => {
            if let None = done {
                line.pending = Some(ask);
            }
        }
        LineInput::Forward(_) | LineInput::Response(_) => {
            if let Some(_) = done {
                line.pending = None;
            }
        }
    }
}

/// What would complete where an input acts at a line whose cell has this next state.
pub fn line_completion(line: &Line, input: LineInput, next: CacheState) -> Option<LineCompletion>
    ensures { result ≡ line_completes input next line.now }
{
    let mut moved = *line;
    move_on(&mut moved, input, next);
    settle(&moved, input)
}
