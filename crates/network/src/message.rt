use base::{CacheId, Place};

/// What a cache asks of a block's home (Primer, section 8.2).
#[derive(Clone, Copy, Debug, PartialEq, Eq)]
pub enum RequestKind {
    /// The block to read.
    GetS,
    /// The block to write.
    GetM,
    /// Gives up a copy that was read.
    PutS,
    /// Gives up the block after it was written, with its value.
    PutM(u64),
}

/// A message from a cache to a block's home.
#[derive(Clone, Copy, Debug, PartialEq, Eq)]
pub struct Request {
    pub kind: RequestKind,
    pub from: CacheId,
}

/// What a block's home sends on the link to a cache.
#[derive(Clone, Copy, Debug, PartialEq, Eq)]
pub enum ForwardKind {
    /// The owner is to share the block with the requestor.
    FwdGetS,
    /// The owner is to hand the block to the requestor.
    FwdGetM,
    /// The copy is invalid; the requestor waits for the acknowledgement.
    Inv,
    /// A Put was served. It goes behind what was sent on this link before it.
    PutAck,
}

/// A message on the link from a block's home to a cache.
#[derive(Clone, Copy, Debug, PartialEq, Eq)]
pub struct Forward {
    pub kind: ForwardKind,
    /// Who is to be answered. Of a Put-Ack it is the cache that the message goes to.
    pub requestor: CacheId,
}

/// An answer, from a home or a cache.
#[derive(Clone, Copy, Debug, PartialEq, Eq)]
pub enum Response {
    /// The block's value. From the home, `acks` is how many Inv-Acks its receiver has to wait for.
    Data {
        from: Place,
        to: Place,
        value: u64,
        acks: u32,
    },
    /// A copy was given up on an Inv.
    InvAck {
        from: CacheId,
        to: CacheId,
    },
    /// The block's value, from the home to a cache that is its owner from then on.
    DataExcl {
        to: CacheId,
        value: u64,
    },
}

/// A message with the wire that it is put on.
#[derive(Clone, Copy, Debug, PartialEq, Eq)]
pub enum Message {
    Request(Request),
    /// On the link to this cache.
    Forward(CacheId, Forward),
    Response(Response),
}
