//! What is wrong with the beams that a step lists.

ghost use Rattle.std.specs.Prelude.{◌≡◌, ◌<◌, ◌⊎◌, length, ℕ};
ghost use Rattle.zair_state.specs.declared.fault.BeamId.{BeamId};
ghost use Rattle.zair_state.specs.Faults.{along, IsBusy, IsNotActive, IsPastLimit};
ghost use Rattle.zair_state.specs.Least.{IsLeastOf, IsFirstBeam};

use crate::beams::{
    least_id_not_in, least_id_twice, least_in_both, least_named_in_neither, least_not_in,
    least_off_field, least_too_many, least_twice,
};
use crate::least::{first_beam, lesser_id};
use crate::machine::Machine;
use zair_form::Step;
use zair_state::{Axis, BeamId};

/// Of rows and columns, those of the axis.
pub(crate) fn along<'a, T>(axis: Axis, rows: &'a [T], columns: &'a [T]) -> &'a [T]
    ensures { result.now ≡ along axis rows.now columns.now }
{
    match axis {
        Axis::Row => rows,
        Axis::Column => columns,
    }
}

impl<'a> Machine<'a> {
    /// The least id along an axis that is listed twice, or that a step switches on and is active.
    fn busy_along(&self, step: &Step, axis: Axis) -> Option<u8>
        ensures { IsLeastOf (λ id. IsBusy self.now.state step.now (record { axis = axis; id = id })) result }
    {
        match step {
            Step::Activate {
                aod,
                rows,
                columns,
                ..
            } => {
                let listed = along(axis, rows.as_slice(), columns.as_slice());
                lesser_id(
                    least_twice(listed),
                    least_in_both(listed, self.active(*aod, axis)),
                )
            }
            Step::Move { rows, columns, .. } => least_twice(along(
                axis,
                rows.as_slice(),
                columns.as_slice(),
            )),
            Step::Deactivate { rows, columns, .. } => least_id_twice(along(
                axis,
                rows.as_slice(),
                columns.as_slice(),
            )),
            _ => None,
        }
    }

    /// The first beam that is listed twice, or that a step switches on and is active.
    pub(crate) fn busy(&self, step: &Step) -> Option<BeamId>
        ensures { IsFirstBeam (IsBusy self.now.state step.now) result }
    {
        first_beam(
            self.busy_along(step, Axis::Row),
            self.busy_along(step, Axis::Column),
        )
    }

    /// The least id along an axis that isn't active, as a step asks for.
    fn not_active_along(&self, step: &Step, axis: Axis) -> Option<u8>
        ensures { IsLeastOf (λ id. IsNotActive self.now.state step.now (record { axis = axis; id = id })) result }
    {
        match step {
            Step::Activate {
                aod,
                rows,
                columns,
                atoms,
            } => {
                let listed = along(axis, rows.as_slice(), columns.as_slice());
                least_named_in_neither(axis, atoms.as_slice(), listed, self.active(*aod, axis))
            }
            Step::Move { aod, rows, columns } => {
                let listed = along(axis, rows.as_slice(), columns.as_slice());
                let active = self.active(*aod, axis);
                lesser_id(least_not_in(listed, active), least_not_in(active, listed))
            }
            Step::Deactivate {
                aod,
                rows,
                columns,
                ..
            } => {
                least_id_not_in(
                    along(axis, rows.as_slice(), columns.as_slice()),
                    self.active(*aod, axis),
                )
            }
            _ => None,
        }
    }

    /// The first beam that is moved or switched off and isn't active, that a move leaves out, or that a caught atom
    /// names and isn't active after the step.
    pub(crate) fn not_active(&self, step: &Step) -> Option<BeamId>
        ensures { IsFirstBeam (IsNotActive self.now.state step.now) result }
    {
        first_beam(
            self.not_active_along(step, Axis::Row),
            self.not_active_along(step, Axis::Column),
        )
    }

    /// The most beams of an AOD along an axis.
    fn most_along(&self, axis: Axis) -> u8
        ensures { result ≡ along axis self.now.card.figures.rows self.now.card.figures.columns }
    {
        let figures = self.card.figures();
        match axis {
            Axis::Row => figures.rows,
            Axis::Column => figures.columns,
        }
    }

    /// The least id along an axis of a beam that is one too many or off the field after a step.
    fn past_limit_along(&self, step: &Step, axis: Axis) -> Option<u8>
        ensures { IsLeastOf (λ id. IsPastLimit self.now.card self.now.state step.now (record { axis = axis; id = id })) result }
    {
        match step {
            Step::Activate {
                aod,
                rows,
                columns,
                ..
            } => {
                let listed = along(axis, rows.as_slice(), columns.as_slice());
                let active = self.active(*aod, axis);
                let most = self.most_along(axis);
                let many = lesser_id(
                    least_too_many(most, listed, active),
                    least_too_many(most, active, listed),
                );
                let off = lesser_id(least_off_field(listed), least_off_field(active));
                lesser_id(many, off)
            }
            Step::Move { rows, columns, .. } => least_off_field(along(
                axis,
                rows.as_slice(),
                columns.as_slice(),
            )),
            _ => None,
        }
    }

    /// The first beam that is one too many or off the field after a step.
    pub(crate) fn past_limit(&self, step: &Step) -> Option<BeamId>
        ensures { IsFirstBeam (IsPastLimit self.now.card self.now.state step.now) result }
    {
        first_beam(
            self.past_limit_along(step, Axis::Row),
            self.past_limit_along(step, Axis::Column),
        )
    }
}
