//! What named orders and replays come to, as laws. Each holds of every program.

ghost use Rattle.std.specs.Prelude.{◌≡◌, ℕ, List};
ghost use Rattle.zac_arch.specs.Architecture.{Architecture};
ghost use Rattle.zac_arch.specs.declared.card.Figures.{Figures};
ghost use Rattle.zac_gates.specs.Ops.{NativeCircuit};
ghost use Rattle.zair_form.specs.declared.program.Instr.{Instr};
ghost use Rattle.zair_form.specs.Steps.{homes};
ghost use Rattle.zair_form.specs.Times.{Timed};
ghost use Rattle.zair_machine.specs.Machine.{IsWrongHome};
ghost use Rattle.zair_state.specs.declared.fault.MachineFault.{MachineFault};
ghost use Rattle.zair_state.specs.Orders.{IsNamedOrder};
ghost use Rattle.zair_state.specs.Performs.{Performs, steps_in};
ghost use Rattle.zair_state.specs.State.{opening};
ghost use Rattle.zac_watch.specs.declared.fault.ReplayFault.{ReplayFault};
ghost use Rattle.zac_watch.specs.declared.fault.ReplayFault.TheVariants as told;
ghost use Rattle.zac_watch.specs.Replaying.{IsReplayFault, Replays};
ghost use Rattle.zac_watch.specs.Watching.{IsFirstIllegal};

/// A program has one named order at most.
pub fn named_orders_are_one()
    ensures { (f : Figures) (program : List Instr) (one other : List Timed)
        → IsNamedOrder f program one → IsNamedOrder f program other → one ≡ other }
{}

/// Of a program that replays a circuit no fault is told but a want of memory.
pub fn replays_have_no_fault()
    ensures { (a : Architecture) (c : NativeCircuit) (program : List Instr) (number : ℕ) (fault : ReplayFault)
        → Replays a c program number → IsReplayFault a c program fault → fault ≡ told.Memory }
{}

/// A program that performs a circuit replays it.
pub fn performing_programs_replay()
    ensures { (a : Architecture) (c : NativeCircuit) (program : List Instr)
        → Performs a c program → (number : ℕ) × Replays a c program number }
{}

/// A program that performs a circuit has no wrong home, and no step of its named order is illegal.
pub fn performing_programs_are_watched_whole()
    ensures homes { (a : Architecture) (c : NativeCircuit) (program : List Instr) (q : ℕ)
        → Performs a c program → ¬ IsWrongHome a (homes program) q }
    ensures steps { (a : Architecture) (c : NativeCircuit) (program : List Instr) (order : List Timed) (number : ℕ) (fault : MachineFault)
        → Performs a c program → IsNamedOrder a.figures program order
        → ¬ IsFirstIllegal a (opening a (homes program)) (steps_in order) number fault }
{}
