//! Writing a text that was made.

ghost use Rattle.std.specs.Prelude.{◌≡◌, ◌≢◌, IfErr};
ghost use Rattle.zac_flow.specs.Answers.{RisesAt};
ghost use Rattle.zac_fault.specs.Statuses.{outcome};
ghost use Rattle.zac_flow.specs.Written.{IsWhole, IsWritten};
ghost use Rattle.zac_fault.specs.declared.status.Status.TheVariants as status;

use zac_fault::Fault;
use zac_io::Sink;

/// Writes a text, by one `write`.
fn write_whole<K: Sink>(text: &[u8], out: &mut K) -> Result<(), Fault>
    ensures ends { IsWhole text.now result (K.written out.old) (K.written out.new) }
    ensures writes { RisesAt status.WriteFault (outcome result) (K.faults out.old) (K.faults out.new) }
{
    match out.write(text) {
        Ok(()) => Ok(()),
        Err(_failed) => Err(Fault::Write),
    }
}

/// Writes a text that was made. Where none was, nothing is written.
pub fn write_made<K: Sink>(made: Result<Vec<u8>, Fault>, out: &mut K) -> Result<(), Fault>
    requires { IfErr made (λ f. f ≢ Fault.Write) }
    ensures ends { IsWritten made (λ text. text.items) result (K.written out.old) (K.written out.new) }
    ensures writes { RisesAt status.WriteFault (outcome result) (K.faults out.old) (K.faults out.new) }
{
    match made {
        Ok(text) => write_whole(text.as_slice(), out),
        Err(fault) => Err(fault),
    }
}
