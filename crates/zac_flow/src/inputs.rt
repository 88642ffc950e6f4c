//! What a command is given: its card, its source, and its text.

ghost use Rattle.std.specs.Prelude.{◌≡◌, ◌≢◌, ◌<◌, ◌≤◌, ◌⊎◌, ℕ, List, Option, None, IfOk, IfErr, Some, length};
ghost use Rattle.zac_io.specs.Outside.{RoseWhere, is_missing, Holds, IsLonger};
ghost use Rattle.zac_flow.specs.Answers.{RisesAt, StraysRise};
ghost use Rattle.zac_flow.specs.Due.{two_files, three_files};
ghost use Rattle.zac_fault.specs.Statuses.{outcome};
ghost use Rattle.zac_flow.specs.Faults.{MeansByFiles, IsCardFile};
ghost use Rattle.zac_flow.specs.Inputs.{Gives, GivesCard, AreShort, IsShortCard};
ghost use Rattle.zac_flow.specs.Words.{FileWords};
ghost use Rattle.zac_fault.specs.declared.status.Status.TheVariants as status;

use std::alloc::Global;
use zac_fault::{Fault, InputFile};
use zac_gates::Bytes;
use zac_io::{ReadFault, Shelf, read_all};

/// The most bytes of a card.
const CARD_LIMIT: u32 = 65_536;

/// The most bytes of a source.
pub(crate) const SOURCE_LIMIT: u32 = 4_194_304;

/// The most bytes of the text of a program.
const ZAIR_LIMIT: u32 = 268_435_456;

/// The card of a command: a built-in one, or the bytes of a file.
#[derive(Drop)]
pub enum CardInput {
    /// The built-in card `@tiny`.
    Tiny,
    /// The built-in card `@standard`.
    Standard,
    /// A card's text.
    Text(Bytes),
}

/// What a command is given.
#[derive(Drop)]
pub struct Inputs {
    pub card: CardInput,
    pub source: Bytes,
    /// The text of a program, where the command has one.
    pub zair: Option<Bytes>,
}

/// The bytes of the file of this name.
fn file_from<S: Shelf>(
    alloc: Global,
    shelf: &mut S,
    name: &str,
    file: InputFile,
    limit: u32,
) -> Result<Bytes, Fault>
    ensures held { IfOk result (Holds (S.files shelf.old) name.now) }
    ensures short { IfOk result (λ bytes. length bytes ≤ limit) }
    ensures fault { IfErr result (λ f. (f ≡ Fault.Read file) ⊎ (f ≡ Fault.Memory) ⊎ ((f ≡ Fault.Long file) × IsLonger (S.files shelf.old) name.now limit)) }
    ensures reads { RisesAt status.ReadFault (outcome result) (S.faults shelf.old) (S.faults shelf.new) }
    ensures stray { RoseWhere (is_missing (S.files shelf.old) name.now) (S.strays shelf.old) (S.strays shelf.new) }
    ensures same_files { S.files shelf.new ≡ S.files shelf.old }
{
    match read_all(alloc, shelf, name, limit) {
        Ok(bytes) => Ok(bytes),
        Err(ReadFault::Failed) => Err(Fault::Read { file }),
        Err(ReadFault::TooLong) => Err(Fault::Long { file }),
        Err(ReadFault::Memory) => Err(Fault::Memory),
    }
}

/// The card that a word gives.
fn card_from<S: Shelf>(alloc: Global, shelf: &mut S, word: &str) -> Result<CardInput, Fault>
    ensures given { IfOk result (GivesCard (S.files shelf.old) word.now) }
    ensures short { IfOk result IsShortCard }
    ensures means { IfErr result (λ f. (source : List ℕ) (zair : Option (List ℕ)) → MeansByFiles (S.files shelf.old) (record { card = word.now; source = source; zair = zair }) f) }
    ensures no_write { IfErr result (λ f. f ≢ Fault.Write) }
    ensures file { IfErr result (λ _. IsCardFile word.now) }
    ensures reads { RisesAt status.ReadFault (outcome result) (S.faults shelf.old) (S.faults shelf.new) }
    ensures file_stray { IsCardFile word.now → RoseWhere (is_missing (S.files shelf.old) word.now) (S.strays shelf.old) (S.strays shelf.new) }
    ensures no_stray { ¬ IsCardFile word.now → S.strays shelf.new ≡ S.strays shelf.old }
    ensures same_files { S.files shelf.new ≡ S.files shelf.old }
{
    match word {
        "@tiny" => Ok(CardInput::Tiny),
        "@standard" => Ok(CardInput::Standard),
        _ => {
            let bytes = file_from(alloc, shelf, word, InputFile::Card, CARD_LIMIT)?;
            Ok(CardInput::Text(bytes))
        }
    }
}

/// The card and the source that two words give. The files are read in the order of the words, each whole.
pub fn inputs_from<S: Shelf>(
    alloc: Global,
    shelf: &mut S,
    card: &str,
    source: &str,
) -> Result<Inputs, Fault>
    ensures given { IfOk result (Gives (S.files shelf.old) (two_files card.now source.now)) }
    ensures short { IfOk result AreShort }
    ensures no_text { IfOk result (λ i. i.zair ≡ None) }
    ensures means { IfErr result (λ f. (zair : Option (List ℕ)) → MeansByFiles (S.files shelf.old) (record { card = card.now; source = source.now; zair = zair }) f) }
    ensures no_write { IfErr result (λ f. f ≢ Fault.Write) }
    ensures reads { RisesAt status.ReadFault (outcome result) (S.faults shelf.old) (S.faults shelf.new) }
    ensures strays { StraysRise (S.files shelf.old) (Some (two_files card.now source.now)) (S.strays shelf.old) (S.strays shelf.new) }
    ensures same_files { S.files shelf.new ≡ S.files shelf.old }
{
    let card = card_from(alloc, shelf, card)?;
    let source = file_from(alloc, shelf, source, InputFile::Source, SOURCE_LIMIT)?;
    Ok(Inputs {
        card,
        source,
        zair: None,
    })
}

/// The card, the source and the text that three words give, read alike.
pub fn texts_from<S: Shelf>(
    alloc: Global,
    shelf: &mut S,
    card: &str,
    source: &str,
    zair: &str,
) -> Result<Inputs, Fault>
    ensures given { IfOk result (Gives (S.files shelf.old) (three_files card.now source.now zair.now)) }
    ensures short { IfOk result AreShort }
    ensures with_text { IfOk result (λ i. i.zair ≢ None) }
    ensures means { IfErr result (MeansByFiles (S.files shelf.old) (three_files card.now source.now zair.now)) }
    ensures no_write { IfErr result (λ f. f ≢ Fault.Write) }
    ensures reads { RisesAt status.ReadFault (outcome result) (S.faults shelf.old) (S.faults shelf.new) }
    ensures strays { StraysRise (S.files shelf.old) (Some (three_files card.now source.now zair.now)) (S.strays shelf.old) (S.strays shelf.new) }
    ensures same_files { S.files shelf.new ≡ S.files shelf.old }
{
    let Inputs { card, source, .. } = inputs_from(alloc, shelf, card, source)?;
    let zair = file_from(alloc, shelf, zair, InputFile::Zair, ZAIR_LIMIT)?;
    Ok(Inputs {
        card,
        source,
        zair: Some(zair),
    })
}
