//! A door whose links are in memory.
ghost use Rattle.std.specs.Prelude.{◌≡◌, ◌<◌, ◌+◌, ◌-◌, ◌∷◌, ◌++◌, ◌↔◌, [], Some, All, drop, map};
ghost use Rattle.std.specs.Prelude.{if◌then◌else◌, is_ok, option_map, slice_get, IfOk, IfSome, IsNone, OnErr};
ghost use Rattle.unl_base.specs.Doors.{Accepts, count_of};
ghost use Rattle.unl_base.specs.Memory.{FailsAsListed, FailsIfListed, IsNewLink, IsNextLink, calls_of, door_of, sent_and_faults, to_come};

use crate::Failed;
use crate::door::Door;
use crate::memory::{Calls, MemoryLink};
use std::marker::Model;

/// The links of a door. `given` is the index of the next link to hand out. The links taken back are at the indices
/// below `back`, in the order of their return. The items from index `back` to index `given - 1` are `None`.
#[derive(Debug, Drop)]
struct Stock {
    links: Vec<Option<MemoryLink>>,
    given: usize,
    back: usize,
}

impl Model for Stock {
    ghost use Rattle.std.specs.Prelude.{◌≤◌, ◌-◌, All, drop, take, map, vec_len};
    ghost use Rattle.unl_base.specs.Memory.{IsStocked, Stock, sent_and_faults, to_come};

    ghost Value = { Stock };

    ghost view = { λ stock. record {
      links = map to_come (drop stock.given stock.links.items);
      out = stock.given - stock.back;
      returned = map sent_and_faults (take stock.back stock.links.items);
    } };

    ghost invariant = { λ stock. (stock.given ≤ vec_len stock.links) × IsStocked stock.links.items stock.given stock.back };
}

impl Stock {
    /// The stock of a door that has handed out no link.
    fn new(links: Vec<Option<MemoryLink>>) -> Self
        requires { All IsNewLink links.items }
        ensures { result ≡ record { links = map to_come links.items; out = 0; returned = [] } }
    {
        Stock {
            links,
            given: 0,
            back: 0,
        }
    }

    /// Hands out the next link. Returns `None` if none is left.
    fn take(&mut self) -> Option<MemoryLink>
        ensures ends { IsNone result ↔ (self.old.links ≡ []) }
        ensures comes { IfSome result (λ link. IsNextLink self.old.links link) }
        ensures rest { self.new
            ≡ record { links = drop 1 self.old.links; out = self.old.out + count_of result; returned = self.old.returned } }
    {
        if self.given == self.links.len() {
            return None;
        }
        let link = self.links[self.given].take();
        self.given += 1;
        link
    }

    /// Takes back a link that was handed out.
    fn put(&mut self, link: MemoryLink)
        requires { 0 < self.old.out }
        ensures { self.new ≡ record {
          links = self.old.links;
          out = self.old.out - 1;
          returned = self.old.returned
              ++ sent_and_faults (Some link) ∷ [];
        } }
    {
        self.links[self.back] = Some(link);
        self.back += 1;
    }

    /// The bytes sent by the link that was taken back at index `place`; `None` if `place` or fewer were taken back.
    fn sent(&self, place: usize) -> Option<&[u8]>
        ensures { option_map (λ sent. sent.now) result ≡ option_map (λ link. link.0) (slice_get self.now.returned place) }
    {
        match &self.links[..self.back].get(place)? {
            Some(link) => Some(link.sent()),
            None => None,
        }
    }
}

/// A door whose links are in memory, for tests. It is closed once all of them have been handed out.
#[derive(Debug, Drop)]
pub struct MemoryDoor {
    ports: Vec<u16>,
    stock: Stock,
    calls: Calls,
}

impl Model for MemoryDoor {
    ghost use Rattle.unl_base.specs.Memory.{MemoryDoorState};

    ghost Value = { MemoryDoorState };

    ghost view = { λ door. record { ports = door.ports.items; stock = door.stock; calls = door.calls } };
}

impl MemoryDoor {
    /// A door that hands out the links of `links` in order. Each item must be `Some`, with a link that has sent nothing
    /// and has a fault count of 0. The calls of `listen` and `accept` are numbered together from 0; those whose numbers
    /// are in `failing` fail.
    pub fn new(links: Vec<Option<MemoryLink>>, failing: Vec<u64>) -> Self
        requires { All IsNewLink links.items }
        ensures { result ≡ record {
          ports = [];
          stock = record { links = map to_come links.items; out = 0; returned = [] };
          calls = calls_of failing.items;
        } }
    {
        MemoryDoor {
            ports: Vec::new(*links.allocator()),
            stock: Stock::new(links),
            calls: Calls::new(failing),
        }
    }

    /// The bytes sent by the link that was taken back at index `place`, counted from 0; `None` if `place` or fewer
    /// links were taken back.
    pub fn sent(&self, place: usize) -> Option<&[u8]>
        ensures { option_map (λ sent. sent.now) result ≡ option_map (λ link. link.0) (slice_get self.now.stock.returned place) }
    {
        self.stock.sent(place)
    }
}

impl Door for MemoryDoor {
    ghost use Rattle.std.proofs.Common.{rules};
    ghost use Rattle.unl_base.specs.Memory.{door_of};

    type L = MemoryLink;

    ghost state = { door_of };

    ghost faults = { λ door. door.calls.faults };

    /// Fails on the calls listed in `failing`, and if memory runs out for the list of ports. Each failure is counted as
    /// a fault.
    fn listen(&mut self, port: u16) -> Result<(), Failed>
        ensures listens { self.new.ports ≡ (if is_ok result then self.old.ports ++ port ∷ [] else self.old.ports) }
        ensures stock { self.new.stock ≡ self.old.stock }
        ensures fails_if_listed { FailsIfListed result self.old.calls self.new.calls }
    {
        if self.calls.fails() {
            return Err(Failed);
        }
        if self.ports.push(port).is_err() {
            self.calls.fail();
            return Err(Failed);
        }
        Ok(())
    }

    /// Fails exactly on the calls listed in `failing`.
    fn accept(&mut self) -> Result<Option<MemoryLink>, Failed>
        requires { ¬ (self.old.ports ≡ []) }
        ensures accepts { IfOk result (λ link. Accepts link (door_of self.old) (door_of self.new)) }
        ensures comes { IfOk result (λ link. IfSome link (λ wire. IsNextLink self.old.stock.links wire)) }
        ensures kept { OnErr result (self.new.stock ≡ self.old.stock) }
        ensures same { self.new.ports ≡ self.old.ports }
        ensures fails_as_listed { FailsAsListed result self.old.calls self.new.calls }
    {
        if self.calls.fails() {
            return Err(Failed);
        }
        Ok(self.stock.take())
    }

    fn give_back(&mut self, link: MemoryLink) {
        self.stock.put(link);
    }

    ghost within = { Prim.search rules };
}
