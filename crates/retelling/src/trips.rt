use base::{BlockId, CacheId, Place};
use network::{Message, Response};

/// A message on its way, with the number of the step that sent it.
#[derive(Clone, Copy)]
pub struct Trip {
    pub block: BlockId,
    pub message: Message,
    pub sent: u64,
}

impl Trip {
    /// Who sent it.
    pub fn from(&self) -> Place {
        match self.message {
            Message::Request(request) => Place::Cache(request.from),
            Message::Forward(..) => Place::Dir,
            Message::Response(Response::Data { from, .. }) => from,
            Message::Response(Response::InvAck { from, .. }) => Place::Cache(from),
            Message::Response(Response::DataExcl { .. }) => Place::Dir,
        }
    }

    /// Who gets it.
    pub fn to(&self) -> Place {
        match self.message {
            Message::Request(_) => Place::Dir,
            Message::Forward(to, _) => Place::Cache(to),
            Message::Response(Response::Data { to, .. }) => to,
            Message::Response(Response::InvAck { to, .. } | Response::DataExcl { to, .. }) => {
                Place::Cache(to)
            }
        }
    }

    /// Whether it is on the link to this cache.
    pub fn is_on_link(&self, cache: CacheId) -> bool {
        match self.message {
            Message::Forward(to, _) => to == cache,
            _ => false,
        }
    }
}
