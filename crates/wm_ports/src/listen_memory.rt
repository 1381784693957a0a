//! A listener in memory, which fails and is quiet at the calls that it is told.
ghost use Rattle.std.specs.Prelude.{◌≡◌, ◌≤◌, [], true, false, IfOk};
ghost use Rattle.wm_ports.specs.ListenMemory.{accept_of, after_accept, after_return, listen_told};
ghost use Rattle.wm_ports.specs.Listening.{IsAccepted, IsGivenBack, IsTallied, gives_link};

use crate::link_memory::MemLink;
use crate::listens::{Accepted, Listen};
use std::alloc::{AllocError, Global};
use std::marker::Model;
use std::vec::IntoIter;
use wm_base::NoMemory;

/// Links in memory to be accepted. Its acceptings are numbered from 1.
#[derive(Drop)]
pub struct MemListen {
    links: Vec<MemLink>,
    waiting: IntoIter<MemLink>,
    returned: Vec<MemLink>,
    is_out: bool,
    fails: Vec<u64>,
    quiet: Vec<u64>,
    calls: u64,
    faults: u64,
}

impl Model for MemListen {
    ghost use Rattle.std.specs.Prelude.{◌≡◌, ◌+◌, ◌≤◌, length, vec_len, vec_capacity, if◌then◌else◌};
    ghost use Rattle.std.specs.Vec.Iter.{into_iter_items, into_iter_len};
    ghost use Rattle.wm_ports.specs.ListenMemory.{IsWaiting, ListenState};

    ghost Value = { ListenState };

    ghost view = { λ s. record {
      links = s.links.items;
      waiting = into_iter_items s.waiting;
      returned = s.returned.items;
      is_out = s.is_out;
      fails = s.fails.items;
      quiet = s.quiet.items;
      calls = s.calls;
      faults = s.faults;
    } };

    ghost invariant = { λ s.
        IsWaiting s.links.items s.fails.items s.quiet.items s.calls (into_iter_items s.waiting)
        × (vec_len s.returned + into_iter_len s.waiting + (if s.is_out then 1 else 0) ≤ vec_capacity s.returned)
        × (into_iter_len s.waiting ≡ length (into_iter_items s.waiting)) };
}

// A copy of each link.
fn copies(alloc: Global, links: &[MemLink]) -> Result<Vec<MemLink>, AllocError>
    ensures { IfOk result (λ v. v.items ≡ links.now) }
{
    let mut copies = Vec::new(alloc);
    let mut rest = links;
    while let [first, after @ ..] = rest {
        copies.push(first.clone()?)?;
        rest = after;
    }
    Ok(copies)
}

impl MemListen {
    /// A listener that gives these links in their order, and has room for all of them when they are given back. The
    /// acceptings that `fails` lists will fail; the others that `quiet` lists will be quiet.
    pub fn new(
        alloc: Global,
        links: Vec<MemLink>,
        fails: Vec<u64>,
        quiet: Vec<u64>,
    ) -> Result<MemListen, NoMemory>
        ensures links { IfOk result (λ s. s.links ≡ links.items) }
        ensures waiting { IfOk result (λ s. s.waiting ≡ links.items) }
        ensures returned { IfOk result (λ s. s.returned ≡ []) }
        ensures out { IfOk result (λ s. s.is_out ≡ false) }
        ensures fails { IfOk result (λ s. s.fails ≡ fails.items) }
        ensures quiet { IfOk result (λ s. s.quiet ≡ quiet.items) }
        ensures calls { IfOk result (λ s. s.calls ≡ 0) }
        ensures faults { IfOk result (λ s. s.faults ≡ 0) }
    {
        let returned = Vec::with_capacity(alloc, links.len())?;
        let kept = copies(alloc, links.as_slice())?;
        Ok(MemListen {
            links: kept,
            waiting: links.into_iter(),
            returned,
            is_out: false,
            fails,
            quiet,
            calls: 0,
            faults: 0,
        })
    }

    /// The links that were given back.
    pub fn returned(&self) -> &[MemLink]
        ensures { result.now ≡ self.now.returned }
    {
        self.returned.as_slice()
    }
}

impl Listen<MemLink> for MemListen {
    ghost faults = { λ s. s.faults };

    ghost told = { listen_told };

    ghost has_out = { λ s. s.is_out ≡ true };

    /// Gives the next link, where one waits. It fails and is quiet exactly at the calls listed.
    fn accept(&mut self) -> Accepted<MemLink>
        ensures told { IsAccepted (listen_told self.old) (listen_told self.new) result }
        ensures out { gives_link result ≡ true → self.new.is_out ≡ true }
        ensures counted { IsTallied result self.old.faults self.new.faults }
        ensures grown { self.old.faults ≤ self.new.faults }
        ensures answer { result ≡ accept_of self.old }
        ensures after { self.new ≡ after_accept self.old result }
    {
        self.is_out = false;
        self.calls = self.calls.saturating_add(1);
        if self.fails.contains(&self.calls) {
            self.faults = self.faults.saturating_add(1);
            return Accepted::Failed;
        }
        if self.quiet.contains(&self.calls) {
            return Accepted::Quiet;
        }
        let Some(link) = self.waiting.next() else {
            return Accepted::Quiet;
        };
        self.is_out = true;
        Accepted::Link(link)
    }

    /// Keeps the link.
    fn give_back(&mut self, link: MemLink)
        requires { self.old.is_out ≡ true }
        ensures told { IsGivenBack (listen_told self.old) (listen_told self.new) link }
        ensures grown { self.old.faults ≤ self.new.faults }
        ensures after { self.new ≡ after_return self.old link }
    {
        self.is_out = false;
        match self.returned.push(link) {
            Ok(()) => (),
            Err(_) => unreachable!(),
        }
    }
}
