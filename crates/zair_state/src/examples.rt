//! Worked examples of the machine: what is legal, and what isn't.

ghost use Rattle.std.specs.Prelude.{◌≡◌, List, [], ◌∷◌, replicate, false, Some};
ghost use Rattle.zac_arch.specs.Distances.{IsMoveTime, IsTimeEnough};
ghost use Rattle.zac_arch.specs.Tiny.{tiny_architecture, tiny_figures};
ghost use Rattle.zac_gates.specs.Log.{Realises};
ghost use Rattle.zair_form.specs.declared.step.PairOf.{PairOf};
ghost use Rattle.zair_form.specs.declared.step.Step.TheVariants.{Activate, Deactivate, Move, One, Pulse};
ghost use Rattle.zair_form.specs.Times.{HasLength};
ghost use Rattle.zair_state.specs.Examples.{start, entangling_steps, controlled_not, dropped_astray, never_carried, catch_none, carry_one, entangle, carrying, held, raised, rows_alone, cross_at_zero, beam, trap, hadamard, card_with, halfway, cross_beside, waiting};
ghost use Rattle.zair_state.specs.Legal.{IsLegal};
ghost use Rattle.zair_state.specs.Parking.{square_card, filled, parking_steps, parking, parking_job, later_job, later, catch_all_at_once};
ghost use Rattle.zair_state.specs.Resources.{Uses, Conflict, AreApart};
ghost use Rattle.zair_state.specs.Resources as resource;
ghost use Rattle.zac_arch.specs.Rules.{KeepsRules, is_spaced};
ghost use Rattle.zac_gates.specs.Ops.{MustFollow};
ghost use Rattle.std.specs.List.{list_all};
ghost use Rattle.zair_form.specs.Times.{change, last_at};
ghost use Rattle.zair_state.specs.Run.{IsLegalRun, after_all, log_of};
ghost use Rattle.zair_state.specs.State.{idle};
ghost use Rattle.zair_state.specs.declared.place.Place.TheVariants.{Trap};

/// Two atoms that are caught, carried to a site, dropped, and entangled between two gates: a legal run.
pub fn entangling_is_legal()
    ensures run { IsLegalRun tiny_architecture start entangling_steps }
    ensures end { after_all start entangling_steps ≡ record { places = Trap (trap 4) ∷ Trap (trap 5) ∷ []; aods = replicate 2 idle } }
{}

/// Its log realises the native ops of a controlled not.
pub fn entangling_realises()
    ensures { Realises controlled_not (log_of entangling_steps) }
{}

/// An atom that is dropped where its crossing doesn't stand: no legal run.
pub fn dropping_astray_is_refused()
    ensures { ¬ IsLegalRun tiny_architecture start dropped_astray }
{}

/// Atoms that are dropped at the site without the move, and a pulse on atoms in storage: neither is legal.
pub fn staying_is_refused()
    ensures run { ¬ IsLegalRun tiny_architecture start never_carried }
    ensures pulse { ¬ IsLegal tiny_architecture start entangle }
{}

/// Beams that are switched on over an atom that isn't caught: not legal.
pub fn catching_none_is_refused()
    ensures { ¬ IsLegal tiny_architecture start catch_none }
{}

/// One atom can be carried to a site alone, but then no pulse is legal.
pub fn lone_atom_is_refused()
    ensures run { IsLegalRun tiny_architecture start carry_one }
    ensures pulse { (pairs : List PairOf) → ¬ IsLegal tiny_architecture (after_all start carry_one) (Pulse pairs) }
{}

/// The move of these steps, 10 along x and 100 along y, takes 60,453 nanoseconds, and no less is enough; so the
/// job that carries both atoms takes 90,453.
pub fn carrying_takes()
    ensures time { IsMoveTime 2750 10 100 60453 }
    ensures less { ¬ IsTimeEnough 2750 10 100 60452 }
    ensures job { HasLength tiny_figures carrying }
{}

/// Beams that aren't there, are there already, are too many, or stand wrong: none of these steps is legal.
pub fn wrong_beams_are_refused()
    ensures unknown { ¬ IsLegal tiny_architecture start (Activate 2 [] [] []) }
    ensures twice { ¬ IsLegal tiny_architecture start (rows_alone (beam 0 0 ∷ beam 0 10 ∷ [])) }
    ensures active { ¬ IsLegal tiny_architecture held (rows_alone (beam 0 50 ∷ [])) }
    ensures inactive { ¬ IsLegal tiny_architecture start (Move 0 (beam 0 0 ∷ []) []) }
    ensures left_out { ¬ IsLegal tiny_architecture held (Move 0 (beam 0 100 ∷ []) []) }
    ensures many { ¬ IsLegal tiny_architecture start (rows_alone (beam 0 0 ∷ beam 1 10 ∷ beam 2 20 ∷ beam 3 30 ∷ beam 4 40 ∷ [])) }
    ensures far { ¬ IsLegal tiny_architecture start (rows_alone (beam 0 1000001 ∷ [])) }
    ensures order { ¬ IsLegal tiny_architecture start (rows_alone (beam 0 0 ∷ beam 1 0 ∷ [])) }
    ensures gap { ¬ IsLegal tiny_architecture start (rows_alone (beam 0 0 ∷ beam 1 5 ∷ [])) }
{}

/// Atoms that are caught or dropped wrong, or driven into a full trap, and work on an atom that is held: none
/// of these steps is legal.
pub fn wrong_atoms_are_refused()
    ensures touch { ¬ IsLegal tiny_architecture start (cross_at_zero []) }
    ensures pick { ¬ IsLegal tiny_architecture start (cross_at_zero (record { q = 1; row = 0; column = 0 } ∷ [])) }
    ensures drop { ¬ IsLegal tiny_architecture held (Deactivate 0 (0 ∷ []) (0 ∷ []) []) }
    ensures full { ¬ IsLegal tiny_architecture held (Move 0 (beam 0 0 ∷ []) (beam 0 30 ∷ [])) }
    ensures gate { ¬ IsLegal tiny_architecture raised (One (record { op = 0; q = 0; angles = hadamard })) }
    ensures light { (pairs : List PairOf) → ¬ IsLegal tiny_architecture raised (Pulse pairs) }
{}

/// Three atoms of a square are carried by one job that parks its beams, and the fourth stays untouched: a legal
/// run that takes 189,332 nanoseconds.
pub fn parking_is_legal()
    ensures run { IsLegalRun square_card filled parking_steps }
    ensures end { after_all filled parking_steps ≡ record { places = Trap (trap 4) ∷ Trap (trap 5) ∷ Trap (trap 6) ∷ Trap (trap 3) ∷ []; aods = replicate 2 idle } }
    ensures length { HasLength tiny_figures parking }
{}

/// The same three atoms caught by all rows and columns at once: a crossing stands on the fourth atom.
pub fn catching_at_once_is_refused()
    ensures { ¬ IsLegal square_card filled catch_all_at_once }
{}

/// The job uses the trap of the atom that stays, and so conflicts with a job that carries it.
pub fn parking_conflicts()
    ensures uses { Uses square_card parking_job (resource.Trap 3) }
    ensures conflict { Conflict square_card parking_job later_job }
    ensures apart { AreApart square_card (parking ∷ later 189332 ∷ []) }
    ensures early { ¬ AreApart square_card (parking ∷ later 189331 ∷ []) }
{}

/// Both cards of these examples keep all rules.
pub fn example_cards_keep_rules()
    ensures small { KeepsRules tiny_architecture }
    ensures square { KeepsRules square_card }
{}

/// With a gap of 5, a pair that is 15 apart leaves no room for a parked beam, and one that is 16 apart does.
pub fn tie_leaves_no_room()
    ensures tie { list_all (is_spaced (card_with 5 15).figures) (card_with 5 15).zones ≡ false }
    ensures room { KeepsRules (card_with 5 16) }
{}

/// A beam's change is from its last position, however it came there; without one it is 0; more than 1,000,000
/// counts as 1,000,000; and of two entries of a beam the last is where it stands.
pub fn changes_are_counted()
    ensures far { change (beam 0 5 ∷ []) (beam 0 5000000) ≡ 1000000 }
    ensures none { change (beam 1 5 ∷ []) (beam 0 40) ≡ 0 }
    ensures back { change (beam 0 5 ∷ beam 0 40 ∷ beam 1 7 ∷ []) (beam 0 30) ≡ 10 }
    ensures last { last_at 0 (beam 0 5 ∷ beam 0 40 ∷ beam 1 7 ∷ []) ≡ Some 40 }
{}

/// A gate waits for an earlier gate on its qubit or before a fence, and never for a read; a read waits for every
/// gate, also for a later one.
pub fn ops_wait()
    ensures fence { MustFollow waiting 0 3 }
    ensures apart { ¬ MustFollow waiting 0 1 }
    ensures qubit { MustFollow waiting 3 5 }
    ensures never { ¬ MustFollow waiting 4 5 }
    ensures read { MustFollow waiting 5 4 }
{}

/// An empty crossing of one AOD may stand 6 from a crossing of another one, but not 3, where the reach is 5.
pub fn crossings_keep_apart()
    ensures beside { IsLegal tiny_architecture halfway (cross_beside 6) }
    ensures near { ¬ IsLegal tiny_architecture halfway (cross_beside 3) }
{}
