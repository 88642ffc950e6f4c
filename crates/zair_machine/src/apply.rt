//! What a legal step does to the state of the machine.

ghost use Rattle.std.specs.Prelude.{◌≡◌, ◌+◌, ◌*◌, ◌<◌, ◌≤◌, length};
ghost use Rattle.std.specs.List.{All};
ghost use Rattle.zair_form.specs.declared.step.Step.TheVariants.{Activate, Move, Deactivate};
ghost use Rattle.zair_machine.specs.Machine.{after_writing};
ghost use Rattle.zair_machine.specs.Crossings.{crossing_number};
ghost use Rattle.zair_state.specs.Legal.{IsLegal};
ghost use Rattle.zair_state.specs.Result.{after, after_catching, after_dropping};

use crate::aod::Aod;
use crate::beams::{with_all, without_all};
use crate::machine::{Machine, crossing_number};
use zair_form::{Beam, Caught, Dropped, Step};
use zair_state::{Place, drops_find_empty_traps, legal_steps_keep_states_sound};

/// Puts each listed atom at the crossing that is listed with it.
fn catch_all(places: &mut [Place], aod: u8, atoms: &[Caught])
    requires { All (λ c. c.q < length places.old) atoms.now }
    ensures { places.new ≡ after_catching aod atoms.now places.old }
{
    for c in atoms {
        places[c.q as usize] = Place::Held {
            aod,
            row: c.row,
            column: c.column,
        };
    }
}

/// Puts each listed atom into the trap that is listed with it.
fn drop_all(places: &mut [Place], atoms: &[Dropped])
    requires { All (λ d. d.q < length places.old) atoms.now }
    ensures { places.new ≡ after_dropping atoms.now places.old }
{
    for d in atoms {
        places[d.q as usize] = Place::Trap(d.trap);
    }
}

/// Notes each listed atom at the crossing that is listed with it.
fn note_caught(index: &mut [u32], aod: u8, atoms: &[Caught])
    requires { aod * 65536 + 65536 ≤ length index.old }
    ensures noted { index.new ≡ after_writing (λ c. crossing_number aod c.row c.column) (λ c. c.q) atoms.now index.old }
    ensures ids { All (λ c. (c.row < 256) × (c.column < 256)) atoms.now }
{
    for c in atoms {
        index[crossing_number(aod, c.row, c.column)] = c.q;
    }
}

/// Notes each listed atom at the trap that is listed with it.
fn note_dropped(index: &mut [u32], atoms: &[Dropped])
    requires { All (λ d. d.trap.0 < length index.old) atoms.now }
    ensures { index.new ≡ after_writing (λ d. d.trap.0) (λ d. d.q) atoms.now index.old }
{
    for d in atoms {
        index[d.trap.0 as usize] = d.q;
    }
}

impl<'a> Machine<'a> {
    /// Switches beams of an AOD on, and its crossings hold the listed atoms.
    fn activate(&mut self, aod: u8, rows: &[Beam], columns: &[Beam], atoms: &[Caught])
        requires { IsLegal self.old.card self.old.state (Activate aod rows.now columns.now atoms.now) }
        ensures { self.new ≡ record { card = self.old.card; state = after self.old.state (Activate aod rows.now columns.now atoms.now) } }
    {
        let _figures = self.card.figures();
        legal_steps_keep_states_sound(self.card);
        let beams = Aod {
            rows: with_all(rows, self.aods[aod as usize].rows()),
            columns: with_all(columns, self.aods[aod as usize].columns()),
        };
        catch_all(&mut self.places, aod, atoms);
        note_caught(&mut self.at_crossings, aod, atoms);
        self.aods[aod as usize] = beams;
    }

    /// Sets the beams of an AOD anew.
    fn move_beams(&mut self, aod: u8, rows: &[Beam], columns: &[Beam])
        requires { IsLegal self.old.card self.old.state (Move aod rows.now columns.now) }
        ensures { self.new ≡ record { card = self.old.card; state = after self.old.state (Move aod rows.now columns.now) } }
    {
        let _figures = self.card.figures();
        legal_steps_keep_states_sound(self.card);
        self.aods[aod as usize] = Aod {
            rows: with_all(rows, &[]),
            columns: with_all(columns, &[]),
        };
    }

    /// Switches beams of an AOD off, and the listed atoms rest in their traps.
    fn deactivate(&mut self, aod: u8, rows: &[u8], columns: &[u8], atoms: &[Dropped])
        requires { IsLegal self.old.card self.old.state (Deactivate aod rows.now columns.now atoms.now) }
        ensures { self.new ≡ record { card = self.old.card; state = after self.old.state (Deactivate aod rows.now columns.now atoms.now) } }
    {
        let _figures = self.card.figures();
        legal_steps_keep_states_sound(self.card);
        drops_find_empty_traps(self.card);
        let beams = Aod {
            rows: without_all(rows, self.aods[aod as usize].rows()),
            columns: without_all(columns, self.aods[aod as usize].columns()),
        };
        drop_all(&mut self.places, atoms);
        note_dropped(&mut self.in_traps, atoms);
        self.aods[aod as usize] = beams;
    }

    /// Goes to the state after a legal step. It takes no memory.
    pub(crate) fn apply(&mut self, step: &Step)
        requires legal { IsLegal self.old.card self.old.state step.now }
        ensures { self.new ≡ record { card = self.old.card; state = after self.old.state step.now } }
    {
        match step {
            Step::Activate {
                aod,
                rows,
                columns,
                atoms,
            } => self.activate(*aod, rows.as_slice(), columns.as_slice(), atoms.as_slice()),
            Step::Move { aod, rows, columns } => {
                self.move_beams(*aod, rows.as_slice(), columns.as_slice())
            }
            Step::Deactivate {
                aod,
                rows,
                columns,
                atoms,
            } => self.deactivate(*aod, rows.as_slice(), columns.as_slice(), atoms.as_slice()),
            Step::One { .. } | Step::Pulse { .. } | Step::Readout { .. } => {}
        }
    }
}
