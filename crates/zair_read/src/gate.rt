//! The value of a one-qubit gate.

ghost use Rattle.std.specs.Prelude.{◌≡◌, option_map};
ghost use Rattle.serde_json.specs.View.{view};
ghost use Rattle.zair_read.specs.Told.{Tells, gate_parts, told_angle, told_angles, told_gate};

use crate::fault::TextFault;
use crate::fields::Fields;
use crate::number::{NUMBER, three_in};
use serde_json::Value;
use std::alloc::Global;
use zac_gates::{Angle, Angles, List};
use zair_form::OneGate;

// The op number, the qubit and the value of the angles.
fn gate_parts(value: &Value) -> Option<(u32, u32, &Value)>
    ensures { option_map (λ p. (p.0, p.1, view p.2.now)) result ≡ gate_parts (view value.now) }
{
    let mut fields = Fields::of(value)?;
    let op = fields.number("op", NUMBER)?;
    let q = fields.number("q", NUMBER)?;
    let angles = fields.take("u")?;
    if fields.is_end() {
        Some((op as u32, q as u32, angles))
    } else {
        None
    }
}

// The text of an angle.
fn angle_in(alloc: Global, value: &Value) -> Result<Angle, TextFault>
    ensures { Tells result (told_angle (view value.now)) }
{
    let Some(text) = value.as_str() else {
        return Err(TextFault::Refused);
    };
    let bytes = Vec::from_slice(alloc, text.as_bytes())?;
    match Angle::new(List::of(bytes)) {
        Ok(angle) => Ok(angle),
        Err(_) => Err(TextFault::Refused),
    }
}

// The three angles of a gate.
fn angles_in(alloc: Global, value: &Value) -> Result<Angles, TextFault>
    ensures { Tells result (told_angles (view value.now)) }
{
    let Some((theta, phi, lambda)) = three_in(value) else {
        return Err(TextFault::Refused);
    };
    let theta = angle_in(alloc, theta)?;
    let phi = angle_in(alloc, phi)?;
    let lambda = angle_in(alloc, lambda)?;
    Ok(Angles { theta, phi, lambda })
}

/// Reads a one-qubit gate.
pub(crate) fn gate_in(alloc: Global, value: &Value) -> Result<OneGate, TextFault>
    ensures { Tells result (told_gate (view value.now)) }
{
    let Some((op, q, angles)) = gate_parts(value) else {
        return Err(TextFault::Refused);
    };
    let angles = angles_in(alloc, angles)?;
    Ok(OneGate { op, q, angles })
}
