//! The names of files and of limits, as they are told.

ghost use Rattle.std.specs.Prelude.{◌≡◌};
ghost use Rattle.zac_fault.specs.Kinds.{limit_name};

use crate::status::InputFile;
use qasm_expand::LimitKind;

impl InputFile {
    ghost use Rattle.zac_fault.specs.Kinds.{file_name};

    /// The name of the file.
    pub fn name(&self) -> &'static str
        ensures { result.now ≡ file_name self.now }
    {
        match self {
            InputFile::Card => "card",
            InputFile::Source => "source",
            InputFile::Zair => "zair",
        }
    }
}

/// The name of a limit.
pub(crate) fn limit_name(kind: LimitKind) -> &'static str
    ensures { result.now ≡ limit_name kind }
{
    match kind {
        LimitKind::Literal => "Literal",
        LimitKind::Qubits => "Qubits",
        LimitKind::Bits => "Bits",
        LimitKind::Calls => "Calls",
        LimitKind::Depth => "Depth",
        LimitKind::AngleNodes => "AngleNodes",
        LimitKind::AngleDepth => "AngleDepth",
        LimitKind::AngleTotal => "AngleTotal",
    }
}
