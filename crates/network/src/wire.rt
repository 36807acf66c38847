ghost use Rattle.std.specs.Prelude.{◌≡◌, ◌+◌, ◌<◌, ◌≤◌, ◌^◌, [], IsOk, OnOk, IfOk, false};
ghost use Rattle.std.specs.Prelude.{length, not, remove, slice_get, slice_index_or, true, vec_len};
ghost use Rattle.std.specs.Vec.{vec_capacity};
ghost use Rattle.network.specs.Marks.{is_stopped, unmarked, unmarked_count};
ghost use Rattle.network.specs.inner.Links.{IsRemarked, KeepsMessages, SendsOn, held_count, marks_in, messages_in, one, remarked, remarked_from};

use crate::marker::Marker;
use base::NoMemory;
use rows::TryClone;
use std::alloc::Global;
use std::marker::Model;

/// The most messages that a wire holds.
const MOST: usize = u32::MAX as usize;

/// A message and its mark.
#[derive(Clone, Copy)]
pub struct Marked<M> {
    message: M,
    held: bool,
}

/// Messages in order of sending, each with its mark: 2^32 - 1 at most, so that a `u32` counts them.
#[derive(Drop)]
pub struct Wire<M> {
    marked: Vec<Marked<M>>,
    // How many of the marks are set.
    held: u32,
}

impl<M> Model for Wire<M> {
    ghost use Rattle.std.specs.Prelude.{◌-◌, ◌^◌, min, vec_len};
    ghost use Rattle.std.specs.Vec.{vec_capacity};
    ghost use Rattle.network.specs.inner.Links.{IsCounted, Wired};

    ghost Value = { Wired M };

    ghost view = { λ w. record { sent = w.marked.items; room = min (vec_capacity w.marked) (2 ^ 32 - 1) - vec_len w.marked } };

    ghost invariant = { λ w. IsCounted w.marked.items w.held };
}

impl<M: Copy> Wire<M> {
    /// A wire with no message. It takes no memory.
    pub fn open(alloc: Global) -> Wire<M>
        ensures { result.sent ≡ [] }
    {
        Wire {
            marked: Vec::new(alloc),
            held: 0,
        }
    }

    /// A wire with no message and room for so many. More than a wire holds are refused.
    pub fn with_room(alloc: Global, count: usize) -> Result<Wire<M>, NoMemory>
        ensures sent { IfOk result (λ wire. wire.sent ≡ []) }
        ensures room { IfOk result (λ wire. (count ≤ wire.room)) }
    {
        if count > MOST {
            return Err(NoMemory);
        }
        let marked = Vec::with_capacity(alloc, count)?;
        Ok(Wire { marked, held: 0 })
    }

    /// Takes off all messages, and keeps the memory for as many.
    pub fn clear(&mut self)
        ensures { self.new.sent ≡ [] }
    {
        self.marked.clear();
        self.held = 0;
    }

    /// How many messages there are.
    pub fn len(&self) -> u32
        ensures { result ≡ length self.now.sent }
    {
        self.marked.len() as u32
    }

    /// Whether there is room for so many more messages.
    #[inline(always)]
    pub fn has_room(&self, count: usize) -> bool
        ensures { result ≡ true → count ≤ self.now.room }
    {
        count <= self.marked.capacity().min(MOST) - self.marked.len()
    }

    /// How many messages have no mark.
    pub fn free_count(&self) -> u32
        ensures { result ≡ unmarked_count (marks_in self.now.sent) }
    {
        self.marked.len() as u32 - self.held
    }

    /// The message at a place, if there is one.
    pub fn get(&self, index: u64) -> Option<M>
        ensures { result ≡ slice_get (messages_in self.now.sent) index }
    {
        let marked = self.marked.get(index as usize)?;
        Some(marked.message)
    }

    /// Whether there is a first message that has no mark.
    pub fn has_free_head(&self) -> bool
        ensures { result ≡ not (is_stopped (marks_in self.now.sent)) }
    {
        match self.marked.first() {
            Some(marked) => !marked.held,
            None => false,
        }
    }

    /// The place of the k-th message without a mark, counted from 0, if there are so many.
    pub fn free_place(&self, k: u32) -> Option<u64>
        ensures { result ≡ slice_get (unmarked 0 (marks_in self.now.sent)) k }
    {
        if self.held == 0 && (k as usize) < self.marked.len() {
            return Some(k as u64);
        }
        kth_free(self.marked.as_slice(), k)
    }

    /// Marks the messages from a place on, each as is told of it.
    pub fn mark<K: Marker<M>>(&mut self, from: u64, marker: &K)
        ensures { IsRemarked from (K.told marker.now) self.old self.new }
    {
        self.held = mark_from(&mut self.marked, from, marker, self.held);
    }

    /// Takes all marks back. Where none is set it looks at no message.
    pub fn unmark(&mut self)
        ensures { IsRemarked 0 (λ message. false) self.old self.new }
    {
        if self.held == 0 {
            return;
        }
        unmark_each(&mut self.marked);
        self.held = 0;
    }

    /// Sends a message, or gives it back where there is no memory for it or the wire is full.
    pub fn send(&mut self, message: M) -> Result<(), M>
        ensures { SendsOn message result self.old self.new }
    {
        if self.marked.len() >= MOST {
            return Err(message);
        }
        let marked = Marked {
            message,
            held: false,
        };
        match self.marked.push(marked) {
            Ok(()) => Ok(()),
            Err(_) => Err(message),
        }
    }

    /// Takes the message at a place, if there is one.
    #[inline(always)]
    pub fn take(&mut self, index: u64) -> Option<M>
        ensures taken { result ≡ slice_get (messages_in self.old.sent) index }
        ensures left { self.new.sent ≡ remove self.old.sent index }
        ensures room { self.old.room ≤ self.new.room }
    {
        if index >= self.marked.len() as u64 {
            return None;
        }
        let taken = take_at(&mut self.marked, index as usize);
        self.held = self.held - u32::from(taken.held);
        Some(taken.message)
    }

    /// Room for so many more messages. More than the wire still holds are refused.
    pub fn reserve(&mut self, count: usize) -> Result<(), NoMemory>
        ensures kept { KeepsMessages self.old self.new }
        ensures ok { OnOk result (count ≤ self.new.room) }
        ensures succeeds { count ≤ self.old.room → IsOk result }
    {
        if count > MOST - self.marked.len() {
            return Err(NoMemory);
        }
        self.marked.reserve(count)?;
        Ok(())
    }
}

/// Takes what is at a place. Behind the last one there is nothing to move.
#[inline(always)]
fn take_at<M: Copy>(marked: &mut Vec<Marked<M>>, at: usize) -> Marked<M>
    requires { at < length marked.old.items }
    ensures taken { result ≡ slice_index_or marked.old.items at result }
    ensures left { marked.new.items ≡ remove marked.old.items at }
    ensures room { vec_capacity marked.new ≡ vec_capacity marked.old }
{
    if at + 1 < marked.len() {
        return remove_at(marked, at);
    }
    let Some(last) = marked.pop() else {
        unreachable!();
    };
    last
}

/// Takes what is at a place, and moves what is behind it. It is the call, taken apart (docs/PERFORMANCE.md, "Seldom calls").
#[inline(always)]
fn remove_at<M: Copy>(marked: &mut Vec<Marked<M>>, at: usize) -> Marked<M>
    requires { at < length marked.old.items }
    ensures taken { result ≡ slice_index_or marked.old.items at result }
    ensures left { marked.new.items ≡ remove marked.old.items at }
    ensures room { vec_capacity marked.new ≡ vec_capacity marked.old }
{
    let Marked { message, held } = marked.remove(at);
    Marked { message, held }
}

/// The place of the k-th message without a mark, counted from 0, if there are so many.
fn kth_free<M: Copy>(marked: &[Marked<M>], k: u32) -> Option<u64>
    ensures { result ≡ slice_get (unmarked 0 (marks_in marked.now)) k }
{
    let mut left = k;
    for index in 0..marked.len() {
        if !marked[index].held {
            if left == 0 {
                return Some(index as u64);
            }
            left -= 1;
        }
    }
    None
}

/// Marks the messages from a place on, each as is told of it, and answers how many marks are set of all, where so many were.
fn mark_from<M: Copy, K: Marker<M>>(
    marked: &mut Vec<Marked<M>>,
    from: u64,
    marker: &K,
    before: u32,
) -> u32
    requires few { length marked.old.items < 2 ^ 32 }
    requires held { before ≡ held_count marked.old.items }
    ensures sent { marked.new.items ≡ remarked_from from (K.told marker.now) marked.old.items }
    ensures held { result ≡ held_count marked.new.items }
    ensures room { vec_capacity marked.new ≡ vec_capacity marked.old }
{
    let mut held = before;
    for index in from..marked.len() as u64 {
        if let Some(found) = marked.get_mut(index as usize) {
            let told = marker.mark(found.message);
            held = recounted(held, found.held, told);
            found.held = told;
        }
    }
    held
}

/// How many marks are set once one of them was made another.
fn recounted(held: u32, before: bool, after: bool) -> u32
    requires there { one before ≤ held }
    requires fits { held + one after < 2 ^ 32 + one before }
    ensures { result + one before ≡ held + one after }
{
    held - u32::from(before) + u32::from(after)
}

/// Takes these marks back.
fn unmark_each<M: Copy>(marked: &mut Vec<Marked<M>>)
    ensures sent { marked.new.items ≡ remarked (λ message. false) marked.old.items }
    ensures room { vec_capacity marked.new ≡ vec_capacity marked.old }
{
    for found in marked.iter_mut() {
        found.held = false;
    }
}

impl<M: Copy> TryClone for Wire<M> {
    ghost use Rattle.std.specs.Prelude.{List};
    ghost use Rattle.network.specs.declared.wire.Marked.{Marked};

    ghost Seen = { List (Marked M) };

    ghost seen = { λ wire. wire.sent };

    /// The same messages, with the same marks.
    fn try_clone(&self, alloc: Global) -> Result<Wire<M>, NoMemory> {
        let marked = Vec::from_slice(alloc, self.marked.as_slice())?;
        Ok(Wire {
            marked,
            held: self.held,
        })
    }
}
