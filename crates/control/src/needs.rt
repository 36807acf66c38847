ghost use Rattle.std.specs.Prelude.{◌≡◌, ◌≤◌, ℕ, length};
ghost use Rattle.base.specs.declared.ids.CacheId.{CacheId};
ghost use Rattle.network.specs.Room.{requests_in, forwards_in, responses_in};
ghost use Rattle.control.specs.declared.line.Line.{Line};
ghost use Rattle.control.specs.LineEffect.{requestor_of, line_sends};
ghost use Rattle.control.specs.inner.LineCounting.{requests_by, responses_by};

use crate::line::LineInput;
use base::CacheId;
use cache_table::{CacheAction, CacheActions};
use network::ForwardKind;

/// How many requests and responses an act sends.
#[derive(Clone, Copy, Debug, PartialEq, Eq)]
pub struct Needs {
    pub requests: usize,
    pub responses: usize,
}

/// Who waits for an answer to an input, if anybody does.
pub(crate) fn requestor(input: LineInput) -> Option<CacheId>
    ensures { result ≡ requestor_of input }
{
    match input {
        LineInput::Forward(forward) => match forward.kind {
            ForwardKind::PutAck => None,
            ForwardKind::FwdGetS | ForwardKind::FwdGetM | ForwardKind::Inv => {
                Some(forward.requestor)
            }
        },
        LineInput::Ask(_) | LineInput::Response(_) => None,
    }
}

/// How many requests and responses the actions send where this input acts at a line. They send no forwards.
///
/// So much is to be reserved before a `line_act`, whichever cache and line it is.
pub fn line_needs(input: LineInput, actions: CacheActions) -> Needs
    ensures requests { (cache : CacheId) (line : Line) → requests_in (line_sends cache input actions line) ≡ result.requests }
    ensures links { (cache : CacheId) (line : Line) (link : ℕ) → forwards_in link (line_sends cache input actions line) ≡ 0 }
    ensures responses { (cache : CacheId) (line : Line) → responses_in (line_sends cache input actions line) ≡ result.responses }
{
    count(actions.as_slice(), requestor(input))
}

fn count(actions: &[CacheAction], to: Option<CacheId>) -> Needs
    requires { length actions.now ≤ 8 }
    ensures requests { result.requests ≡ requests_by actions.now }
    ensures responses { result.responses ≡ responses_by to actions.now }
{
    let mut requests: usize = 0;
    let mut responses: usize = 0;
    for action in actions {
        match action {
            CacheAction::GetS | CacheAction::GetM | CacheAction::PutS | CacheAction::PutM => {
                requests += 1;
            }
            CacheAction::DataDir => responses += 1,
            CacheAction::InvAck | CacheAction::DataReq => {
                if let Some(_) = to {
                    responses += 1;
                }
            }
        }
    }
    Needs {
        requests,
        responses,
    }
}
