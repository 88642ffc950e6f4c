//! The atoms of a group, as the steps of a job list them.

ghost use Rattle.std.specs.Prelude.{◌≡◌, ◌<◌, ◌≤◌, ◌==◌, IfOk, length, map, filter};
ghost use Rattle.std.specs.List.{AllPairs, AllWithin};
ghost use Rattle.zac_aod.specs.Layout.{ComesBefore, atom_among};
ghost use Rattle.zac_aod.specs.Lines.{Rise};

use crate::line::{Line, number_of};
use crate::route::Route;
use std::alloc::Global;
use zac_arch::TrapId;
use zac_memory::Memory;

/// The atom of a move: its row, its column, and where it goes.
#[derive(Clone, Copy)]
pub(crate) struct Atom {
    /// Its qubit.
    pub(crate) q: u32,
    /// The trap to which it goes.
    pub(crate) to: TrapId,
    /// The place of its row at the sources, in tenths of a micrometre.
    pub(crate) row: u32,
    /// The number of its column, from 0.
    pub(crate) column: u8,
}

/// The atoms of routes, with the numbers of their columns among these.
pub(crate) fn atoms_among(
    alloc: Global,
    routes: &[Route],
    columns: &[Line],
) -> Result<Vec<Atom>, Memory>
    requires rise { Rise columns.now }
    requires few { length columns.now ≤ 64 }
    ensures { IfOk result (λ atoms. atoms.items ≡ map (atom_among columns.now) routes.now) }
{
    let mut atoms = Vec::with_capacity(alloc, routes.len())?;
    for route in routes {
        atoms.push(Atom {
            q: route.q,
            to: route.to,
            row: route.row.from,
            column: number_of(columns, route.column.from),
        })?;
    }
    Ok(atoms)
}

/// How many of the atoms are in rows before this one.
fn count_before(atoms: &[Atom], row: u32) -> usize
    requires { AllPairs ComesBefore atoms.now }
    ensures within { result ≤ length atoms.now }
    ensures before { AllWithin (λ atom. atom.row < row) atoms.now 0 result }
    ensures rest { AllWithin (λ atom. row ≤ atom.row) atoms.now result (length atoms.now) }
{
    atoms.partition_point(|atom| atom.row < row)
}

/// How many of the atoms are in rows up to this one.
fn count_upto(atoms: &[Atom], row: u32) -> usize
    requires { AllPairs ComesBefore atoms.now }
    ensures within { result ≤ length atoms.now }
    ensures upto { AllWithin (λ atom. atom.row ≤ row) atoms.now 0 result }
    ensures rest { AllWithin (λ atom. row < atom.row) atoms.now result (length atoms.now) }
{
    atoms.partition_point(|atom| atom.row <= row)
}

/// The atoms of the row with this source, which stand together.
pub(crate) fn in_row(atoms: &[Atom], row: u32) -> &[Atom]
    requires { AllPairs ComesBefore atoms.now }
    ensures { result.now ≡ filter (λ atom. atom.row == row) atoms.now }
{
    let start = count_before(atoms, row);
    let end = count_upto(atoms, row);
    &atoms[start..end]
}
