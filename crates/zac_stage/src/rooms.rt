//! Which pulses have room, found in little time.

ghost use Rattle.std.specs.Prelude.{◌≡◌, ◌≢◌, ℕ, ◌+◌, ◌<◌, ◌≤◌, ◌^◌, OnOk, slice_index, slice_set, vec_len};
ghost use Rattle.zac_stage.specs.Rooms.{AreRooms, IsLeastRoom, IsGrown, IsRaised};

use std::alloc::{AllocError, Global};

/// How many pairs each pulse has, in pulses of so many sites.
#[derive(Drop)]
pub struct Rooms {
    /// How many pairs each pulse has.
    pub counts: Vec<u32>,
    /// For each pulse the pulse itself, where it has room, and else a later one up to which all are full.
    pub links: Vec<u32>,
    /// How many pairs a pulse may have.
    pub sites: u32,
}

impl Rooms {
    /// No pulse has a pair.
    pub fn none(alloc: Global, sites: u32) -> Rooms
        requires { 1 ≤ sites }
        ensures rooms { AreRooms result.counts.items result.links.items result.sites }
        ensures none { vec_len result.counts ≡ 0 }
        ensures sites { result.sites ≡ sites }
    {
        Rooms {
            counts: Vec::new(alloc),
            links: Vec::new(alloc),
            sites,
        }
    }

    /// The least pulse from a number on that has room. A pulse that was passed over is linked to a later one, so that
    /// the next search is shorter.
    pub fn least(&mut self, floor: u32) -> u32
        requires rooms { AreRooms self.old.counts.items self.old.links.items self.old.sites }
        requires few { vec_len self.old.counts < 2 ^ 32 }
        requires floor_in { floor ≤ vec_len self.old.counts }
        ensures rooms { AreRooms self.new.counts.items self.new.links.items self.new.sites }
        ensures counts { self.new.counts ≡ self.old.counts }
        ensures sites { self.new.sites ≡ self.old.sites }
        ensures least { IsLeastRoom self.old.counts.items self.old.sites floor result }
    {
        let mut at = floor;
        while (at as usize) < self.links.len() && self.links[at as usize] > at {
            let to = self.links[at as usize];
            if (to as usize) < self.links.len() {
                self.links[at as usize] = self.links[to as usize];
            }
            at = to;
        }
        at
    }

    /// There is this pulse, which may be the one behind the last.
    fn grow(&mut self, pulse: u32) -> Result<(), AllocError>
        requires rooms { AreRooms self.old.counts.items self.old.links.items self.old.sites }
        requires pulse_in { pulse ≤ vec_len self.old.counts }
        ensures rooms { OnOk result (AreRooms self.new.counts.items self.new.links.items self.new.sites) }
        ensures grown { OnOk result (IsGrown self.old.counts.items self.new.counts.items pulse) }
        ensures sites { self.new.sites ≡ self.old.sites }
    {
        if pulse as usize == self.counts.len() {
            self.counts.push(0)?;
            self.links.push(pulse)?;
            return Ok(());
        }
        Ok(())
    }

    /// One pair more in a pulse that has room.
    fn raise(&mut self, pulse: u32)
        requires rooms { AreRooms self.old.counts.items self.old.links.items self.old.sites }
        requires few { vec_len self.old.counts < 2 ^ 32 }
        requires pulse_in { pulse < vec_len self.old.counts }
        requires room { slice_index self.old.counts.items pulse < self.old.sites }
        ensures rooms { AreRooms self.new.counts.items self.new.links.items self.new.sites }
        ensures counts { self.new.counts.items ≡ slice_set self.old.counts.items pulse (slice_index self.old.counts.items pulse + 1) }
        ensures len { vec_len self.new.counts ≡ vec_len self.old.counts }
        ensures sites { self.new.sites ≡ self.old.sites }
    {
        let at = pulse as usize;
        let sites = self.sites;
        let count = self.counts[at] + 1;
        self.counts[at] = count;
        if count == sites {
            self.links[at] = pulse + 1;
        }
    }

    /// One pair more in a pulse that has room, which may be the one behind the last.
    pub fn add(&mut self, pulse: u32) -> Result<(), AllocError>
        requires rooms { AreRooms self.old.counts.items self.old.links.items self.old.sites }
        requires few { vec_len self.old.counts + 1 < 2 ^ 32 }
        requires pulse_in { pulse ≤ vec_len self.old.counts }
        requires room { slice_index self.old.counts.items pulse < self.old.sites }
        ensures rooms { OnOk result (AreRooms self.new.counts.items self.new.links.items self.new.sites) }
        ensures raised { OnOk result (IsRaised self.old.counts.items self.new.counts.items pulse) }
        ensures sites { self.new.sites ≡ self.old.sites }
    {
        self.grow(pulse)?;
        self.raise(pulse);
        Ok(())
    }
}
