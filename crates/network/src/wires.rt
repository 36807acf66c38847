mod marking;
mod space;

ghost use Rattle.std.specs.Prelude.{◌≡◌, ◌+◌, ◌*◌, ◌-◌, ◌^◌, ◌<◌, ◌≤◌, ◌↔◌, ◌∷◌, [], IfOk, IfNone, IfSome};
ghost use Rattle.std.specs.Prelude.{ℕ, length, slice_get, true};
ghost use Rattle.network.specs.Marks.{no_marks, link_marks};
ghost use Rattle.network.specs.Marks.{request_mark_taken, head_mark_taken, response_mark_taken};
ghost use Rattle.network.specs.Traffic.{IsNextWaiting, NoneWaits};
ghost use Rattle.network.specs.Traffic.{quiet, is_quiet, link, message_count, request_taken};
ghost use Rattle.network.specs.Traffic.{head_taken, response_taken};
ghost use Rattle.network.specs.Room.{HasLinkFor, HasRoomFor, Sends, SendsOrReturns, TakesMessage};
ghost use Rattle.network.specs.declared.message.Message.TheVariants as message;

use crate::links::Links;
use crate::message::{Forward, Message, Request, Response};
use crate::wire::Wire;
use base::{CacheId, NoMemory};
use rows::TryClone;
use std::alloc::Global;
use std::marker::Model;

/// The wires of one block.
///
/// A message is sent at the end of its wire. Requests and responses are taken from any place,
/// counted from 0 in order of sending; of a link only the first message is taken. What is left
/// keeps its order. A wire holds 2^32 - 1 messages at most; one more is refused as where there is no
/// memory for it.
///
/// Beside each message stands a mark, which its user sets and reads: `false` once the message was sent.
pub struct Wires {
    requests: Wire<Request>,
    links: Links,
    responses: Wire<Response>,
}

impl Drop for Wires {
    fn drop(self) {
        // One call drops all its parts.
        let Wires {
            requests: _,
            links: _,
            responses: _,
        } = self;
    }
}

impl Model for Wires {
    ghost use Rattle.std.specs.Prelude.{map};
    ghost use Rattle.network.specs.Room.{Wiring};
    ghost use Rattle.network.specs.inner.Links.{marks_in, messages_in};

    ghost Value = { Wiring };

    ghost view = { λ w. record {
      traffic = record {
        requests = messages_in w.requests.sent;
        links = map messages_in w.links.sent;
        responses = messages_in w.responses.sent;
      };
      room = record {
        requests = w.requests.room;
        links = w.links.room;
        responses = w.responses.room;
      };
      marks = record {
        requests = marks_in w.requests.sent;
        links = map marks_in w.links.sent;
        responses = marks_in w.responses.sent;
      };
    } };
}

impl Wires {
    /// Wires with nothing on them, with a link to each of so many caches.
    pub fn open(alloc: Global, caches: u32) -> Result<Wires, NoMemory>
        ensures traffic { IfOk result (λ wires. wires.traffic ≡ quiet caches) }
        ensures marks { IfOk result (λ wires. wires.marks ≡ no_marks caches) }
    {
        let links = Links::open(alloc, caches)?;
        Ok(Wires {
            requests: Wire::open(alloc),
            links,
            responses: Wire::open(alloc),
        })
    }

    /// Wires with the same messages.
    pub fn try_clone(&self, alloc: Global) -> Result<Wires, NoMemory>
        ensures traffic { IfOk result (λ wires. wires.traffic ≡ self.now.traffic) }
        ensures marks { IfOk result (λ wires. wires.marks ≡ self.now.marks) }
    {
        let requests = self.requests.try_clone(alloc)?;
        let links = self.links.try_clone(alloc)?;
        let responses = self.responses.try_clone(alloc)?;
        Ok(Wires {
            requests,
            links,
            responses,
        })
    }

    /// Takes all messages off.
    pub fn clear(&mut self)
        ensures traffic { self.new.traffic ≡ quiet (length self.old.traffic.links) }
        ensures marks { self.new.marks ≡ no_marks (length self.old.traffic.links) }
    {
        self.requests.clear();
        self.links.clear();
        self.responses.clear();
    }

    /// Whether nothing is on its way.
    pub fn is_quiet(&self) -> bool
        ensures { result ≡ is_quiet self.now.traffic }
    {
        self.message_count() == 0
    }

    /// How many links there are.
    pub fn link_count(&self) -> u32
        ensures count { result ≡ length self.now.traffic.links }
        ensures as_many { length self.now.marks.links ≡ length self.now.traffic.links }
        ensures each { (cache : ℕ) → length (link_marks self.now.marks cache) ≡ length (link self.now.traffic cache) }
    {
        self.links.len()
    }

    /// How many requests wait.
    pub fn request_count(&self) -> u32
        ensures { result ≡ length self.now.traffic.requests }
    {
        self.requests.len()
    }

    /// How many messages are on their way.
    pub fn message_count(&self) -> u64
        ensures { result ≡ message_count self.now.traffic }
    {
        let ends = u64::from(self.requests.len()) + u64::from(self.responses.len());
        ends + self.links.message_count()
    }

    /// The least cache from a number on whose link has a message, if there is one.
    pub fn next_waiting(&self, from: u32) -> Option<CacheId>
        ensures some { IfSome result (λ cache. IsNextWaiting self.now.traffic from cache.0) }
        ensures none { IfNone result (NoneWaits self.now.traffic from) }
    {
        self.links.next_waiting(from)
    }

    /// Whether there is a message on the link to a cache. It is told by a bit, and quicker than their count.
    #[inline(always)]
    pub fn is_waiting(&self, cache: CacheId) -> bool
        ensures { (result ≡ true) ↔ (0 < length (link self.now.traffic cache.0)) }
    {
        self.links.is_waiting(cache)
    }

    /// The request at a place, if there is one.
    pub fn request(&self, index: u64) -> Option<Request>
        ensures { result ≡ slice_get self.now.traffic.requests index }
    {
        self.requests.get(index)
    }

    /// The first message on the link to a cache, if there is one.
    pub fn head(&self, cache: CacheId) -> Option<Forward>
        ensures { result ≡ slice_get (link self.now.traffic cache.0) 0 }
    {
        self.links.get(cache, 0)
    }

    /// The message at a place of the link to a cache, if there is one.
    pub fn forward(&self, cache: CacheId, index: u64) -> Option<Forward>
        ensures { result ≡ slice_get (link self.now.traffic cache.0) index }
    {
        self.links.get(cache, index)
    }

    /// The response at a place, if there is one.
    pub fn response(&self, index: u64) -> Option<Response>
        ensures { result ≡ slice_get self.now.traffic.responses index }
    {
        self.responses.get(index)
    }

    /// Sends a request, or gives it back where there is no memory for it.
    #[inline(always)]
    pub fn send_request(&mut self, request: Request) -> Result<(), Request>
        ensures { SendsOrReturns (message.Request request) request result self.old self.new }
    {
        self.requests.send(request)
    }

    /// Puts a message on the link to a cache, or gives it back where there is no memory for it.
    #[inline(always)]
    pub fn send_forward(&mut self, cache: CacheId, forward: Forward) -> Result<(), Forward>
        requires { cache.0 < length self.old.traffic.links }
        ensures { SendsOrReturns (message.Forward cache forward) forward result self.old self.new }
    {
        self.links.send(cache, forward)
    }

    /// Sends a response, or gives it back where there is no memory for it.
    #[inline(always)]
    pub fn send_response(&mut self, response: Response) -> Result<(), Response>
        ensures { SendsOrReturns (message.Response response) response result self.old self.new }
    {
        self.responses.send(response)
    }

    /// Takes the request at a place, if there is one.
    #[inline(always)]
    pub fn take_request(&mut self, index: u64) -> Option<Request>
        ensures taken { result ≡ slice_get self.old.traffic.requests index }
        ensures left { TakesMessage (request_taken index) (request_mark_taken index) result self.old self.new }
    {
        self.requests.take(index)
    }

    /// Takes the first message of the link to a cache, if there is one.
    #[inline(always)]
    pub fn take_head(&mut self, cache: CacheId) -> Option<Forward>
        ensures taken { result ≡ slice_get (link self.old.traffic cache.0) 0 }
        ensures left { TakesMessage (head_taken cache.0) (head_mark_taken cache.0) result self.old self.new }
    {
        self.links.take_head(cache)
    }

    /// Takes the response at a place, if there is one.
    #[inline(always)]
    pub fn take_response(&mut self, index: u64) -> Option<Response>
        ensures taken { result ≡ slice_get self.old.traffic.responses index }
        ensures left { TakesMessage (response_taken index) (response_mark_taken index) result self.old self.new }
    {
        self.responses.take(index)
    }

    /// Sends a message that there is room for. It takes no memory.
    #[inline(always)]
    pub fn place(&mut self, message: Message)
        requires link { HasLinkFor message (length self.old.traffic.links) }
        requires room { HasRoomFor (message ∷ []) self.old.room }
        ensures { Sends (message ∷ []) self.old self.new }
    {
        match message {
            Message::Request(request) => {
                if let Err(_) = self.send_request(request) {
                    unreachable!();
                }
            }
            Message::Forward(cache, forward) => {
                if let Err(_) = self.send_forward(cache, forward) {
                    unreachable!();
                }
            }
            Message::Response(response) => {
                if let Err(_) = self.send_response(response) {
                    unreachable!();
                }
            }
        }
    }
}
