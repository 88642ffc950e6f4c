//! What holds of every program, as laws.

ghost use Rattle.std.specs.Prelude.{◌≡◌, ◌++◌, [], ℕ, List};
ghost use Rattle.qasm_form.specs.declared.stmt.Stmt.{Stmt};
ghost use Rattle.qasm_names.specs.Accepted.{AreAdmissible};
ghost use Rattle.qasm_names.specs.Bound.{IsWellBound};
ghost use Rattle.qasm_names.specs.Environment.{environment};
ghost use Rattle.qasm_names.specs.Scopes.{AreAdmissibleInHeader};
ghost use Rattle.qasm_names.specs.declared.gate.GateDef.{GateDef};

/// The gates behind some statements stand in front of those behind more.
pub fn gates_only_grow()
    ensures { (header before more : List Stmt) → (rest : List GateDef)
        × ((environment header (before ++ more)).gates ≡ (environment header before).gates ++ rest) }
{}

/// Where no statement is refused, each call of a gate's body is well bound.
pub fn gates_are_well_bound()
    ensures { (header statements : List Stmt) → AreAdmissibleInHeader [] header → AreAdmissible header [] statements
        → (place : ℕ) → IsWellBound (environment header statements).gates place }
{}
