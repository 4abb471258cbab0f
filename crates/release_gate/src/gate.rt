//! A gate that messages pass once they are ripe.

ghost use Rattle.std.specs.Prelude.{◌^◌, ◌≡◌, ◌+◌, ◌<◌, ◌≤◌, length, slice_get, IfOk, OnOk, OnErr, OnSome, IfNone};
ghost use Rattle.network_model.specs.Step.{gate_front, with_all_ripe, with_front_released};
ghost use Rattle.release_gate.specs.GateState.{empty, with_held};

use network_model::{Held, NoMemory};
use std::alloc::{Allocator, Global};
use std::collections::VecDeque;
use std::marker::Model;

/// The messages that a router holds back, in the order in which it sent them. Those at the front may
/// be ripe, which is to say may leave.
#[derive(Drop)]
pub struct Gate<A: Allocator = Global> {
    messages: VecDeque<Held, A>,
    ripe: usize,
}

impl<A: Allocator> Model for Gate<A> {
    ghost use Rattle.std.specs.Prelude.{◌-◌, ◌≤◌};
    ghost use Rattle.std.specs.VecDeque.{deque_len, deque_capacity};
    ghost use Rattle.release_gate.specs.GateState.{GateState};

    ghost Value = { GateState };

    ghost view = { λ g. record {
      gate = record { held = g.messages.items; ripe = g.ripe };
      room = deque_capacity g.messages - deque_len g.messages;
    } };

    ghost invariant = { λ g. g.ripe ≤ deque_len g.messages };
}

impl<A: Allocator> Gate<A> {
    /// A gate that holds nothing.
    pub fn new(alloc: A) -> Gate<A>
        ensures { result.gate ≡ empty }
    {
        Gate {
            messages: VecDeque::new(alloc),
            ripe: 0,
        }
    }

    /// An equal gate in memory of this allocator. It takes time and memory by what is held.
    pub fn copy(&self, alloc: A) -> Result<Gate<A>, NoMemory>
        ensures { IfOk result (λ g. g.gate ≡ (self.now).gate) }
    {
        let messages = self.messages.iter().copied().collect(alloc)?;
        Ok(Gate {
            messages,
            ripe: self.ripe,
        })
    }

    /// Makes room for `count` more messages, so that as many calls of `hold` succeed.
    pub fn reserve(&mut self, count: usize) -> Result<(), NoMemory>
        ensures gate { (self.new).gate ≡ (self.old).gate }
        ensures room { OnOk result (count ≤ (self.new).room) }
        ensures no_less { (self.old).room ≤ (self.new).room }
        ensures fits { (self.new).room < 2 ^ 63 }
        ensures full { OnErr result ((self.old).room < count) }
    {
        self.messages.reserve(count)?;
        Ok(())
    }

    /// Holds a message back, behind the others.
    pub fn hold(&mut self, message: Held) -> Result<(), NoMemory>
        ensures ok { OnOk result ((self.new).gate ≡ with_held message (self.old).gate) }
        ensures err { OnErr result ((self.new).gate ≡ (self.old).gate) }
        ensures full { OnErr result ((self.old).room ≡ 0) }
        ensures room { (self.old).room ≤ (self.new).room + 1 }
    {
        self.messages.push_back(message)?;
        Ok(())
    }

    /// What `release` would give: the oldest message, where it is ripe.
    pub fn front(&self) -> Option<Held>
        ensures { result ≡ gate_front (self.now).gate }
    {
        if self.ripe > 0 {
            self.messages.front().copied()
        } else {
            None
        }
    }

    /// All messages that are held now become ripe.
    pub fn ripen(&mut self)
        ensures gate { (self.new).gate ≡ with_all_ripe (self.old).gate }
        ensures room { (self.new).room ≡ (self.old).room }
    {
        self.ripe = self.held();
    }

    /// Takes the oldest message, where it is ripe.
    pub fn release(&mut self) -> Option<Held>
        ensures released { result ≡ gate_front (self.old).gate }
        ensures some { OnSome result ((self.new).gate ≡ with_front_released (self.old).gate) }
        ensures none { IfNone result ((self.new).gate ≡ (self.old).gate) }
        ensures room { (self.old).room ≤ (self.new).room }
        ensures freed { OnSome result ((self.old).room + 1 ≤ (self.new).room) }
    {
        if self.ripe == 0 {
            return None;
        }
        self.ripe -= 1;
        self.messages.pop_front()
    }

    /// How many messages are held.
    pub fn held(&self) -> usize
        ensures { result ≡ length (self.now).gate.held }
    {
        self.messages.len()
    }

    /// The message before which `place` others are held; none where fewer are.
    pub fn message(&self, place: usize) -> Option<Held>
        ensures { result ≡ slice_get (self.now).gate.held place }
    {
        self.messages.get(place).copied()
    }

    /// How many of the messages, at the front, are ripe.
    pub fn ripe(&self) -> usize
        ensures ripe { result ≡ (self.now).gate.ripe }
        ensures at_most_all { result ≤ length (self.now).gate.held }
    {
        self.ripe
    }
}
