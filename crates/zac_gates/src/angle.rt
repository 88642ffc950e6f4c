//! Texts of angles.

ghost use Rattle.std.specs.Prelude.{◌≡◌, false, IsTrue, IfOk, MatchResult};
ghost use Rattle.zac_gates.specs.Angle.{is_angle};

use crate::Memory;
use crate::list::{Bytes, List};
use std::alloc::Global;
use std::marker::Model;

/// The most bytes of an angle's text.
const MAX_ANGLE: usize = 16384;

/// The text of an angle: 1 to 16,384 printable bytes, none of them a blank, a quotation mark or a backslash.
/// Contracts see it as the list of its bytes.
#[derive(Debug, Drop)]
pub struct Angle {
    bytes: Bytes,
}

impl Model for Angle {
    ghost use Rattle.std.specs.Prelude.{List, ℕ, IsTrue};
    ghost use Rattle.zac_gates.specs.Angle.{is_angle};

    ghost Value = { List ℕ };

    ghost view = { λ a. a.bytes };

    ghost invariant = { λ a. IsTrue (is_angle a.bytes) };
}

ghost use Rattle.std.specs.List.{list_all};
ghost use Rattle.zac_gates.specs.Angle.{is_angle_byte};

fn are_angle_bytes(text: &[u8]) -> bool
    ensures { result ≡ list_all is_angle_byte text.now }
{
    text.iter()
        .all(|b| *b >= 33 && *b <= 126 && *b != b'"' && *b != b'\\')
}

impl Angle {
    /// The angle of this text. It takes no memory, and hands the bytes back exactly where they are no angle.
    pub fn new(bytes: Bytes) -> Result<Angle, Bytes>
        ensures { MatchResult result (λ a. (a ≡ bytes) × IsTrue (is_angle bytes))
            (λ refused. (refused ≡ bytes) × (is_angle bytes ≡ false)) }
    {
        let text = bytes.as_slice();
        if text.len() >= 1 && text.len() <= MAX_ANGLE && are_angle_bytes(text) {
            Ok(Angle { bytes })
        } else {
            Err(bytes)
        }
    }

    /// Its bytes.
    pub fn bytes(&self) -> &[u8]
        ensures value { result.now ≡ self.now }
        ensures angle { IsTrue (is_angle self.now) }
    {
        self.bytes.as_slice()
    }

    /// An equal angle.
    pub fn copy(&self, alloc: Global) -> Result<Angle, Memory>
        ensures { IfOk result (λ a. a ≡ self.now) }
    {
        let bytes = Vec::from_slice(alloc, self.bytes.as_slice())?;
        Ok(Angle {
            bytes: List::of(bytes),
        })
    }
}

/// The three angles of a one-qubit gate, as in `U(theta,phi,lambda)` of OpenQASM 2.0 (Cross et al. 2017).
#[derive(Debug, Drop)]
pub struct Angles {
    /// The first.
    pub theta: Angle,
    /// The second.
    pub phi: Angle,
    /// The third.
    pub lambda: Angle,
}

impl Angles {
    /// Equal angles.
    pub fn copy(&self, alloc: Global) -> Result<Angles, Memory>
        ensures { IfOk result (λ a. a ≡ self.now) }
    {
        Ok(Angles {
            theta: self.theta.copy(alloc)?,
            phi: self.phi.copy(alloc)?,
            lambda: self.lambda.copy(alloc)?,
        })
    }
}
