//! Replays bytes of one notation and writes the hands in another, using only the laws of
//! `Notation`.
ghost use Rattle.std.specs.Prelude.{IfErr, IfOk};
ghost use Rattle.std.specs.List.{AllByRecursion};
ghost use Rattle.hand_canon.specs.Sound.{IsSound};
ghost use Rattle.convert_core.specs.Answers.{Converts};
ghost use Rattle.convert_core.specs.Conversion.{IsPlaysRefusal, IsReadFault, ReadAsPlays};
ghost use Rattle.convert_core.specs.Records.{AreFew, AreOfFile};

use crate::convert_fault::ConvertFault;
use crate::lines::write_records;
use crate::notation::Notation;
use crate::retained_plays::plays_of;
use crate::sound_records::SoundRecords;
use hand_canon::{Keep, Play, WriteRefusal};
use std::alloc::Global;

/// Writes the hands of `bytes` in another notation, if it can express each fact to be kept. The
/// output reads back as the same number of hands, with the same traces and the kept notes: all
/// notes, or those that the target can express.
///
/// Equal outputs come from equal hands (`law_of_equal_outputs`), an output is converted to itself
/// (`law_of_converting_again`), and a conversion with all notes may go by way of another notation
/// (`law_of_converting_by_way`).
///
/// # Errors
///
/// The first fault of the bytes; or else the first refused hand, with its first fault; or else the
/// first hand with a fact to be kept that the target cannot express, and its first such fact; or
/// out of memory.
pub fn convert<N: Notation, M: Notation>(
    alloc: Global,
    from: &N,
    to: &M,
    keep: Keep,
    bytes: &[u8],
) -> Result<Vec<u8>, ConvertFault>
    ensures { Converts (N.meaning from.now) (M.meaning to.now) keep bytes.now
        (λ output. output.items) result }
{
    if to.has_lines() {
        // A target with lines needs one play at a time: each is a few thousand bytes.
        let records = read_records(alloc, from, bytes)?;
        return write_records(alloc, to, keep, records);
    }
    let plays = plays(alloc, from, bytes)?;
    match to.write(alloc, &plays, keep) {
        Ok(output) => Ok(output),
        Err(WriteRefusal::Unspelled { hand, fact }) => Err(ConvertFault::Unspelled { hand, fact }),
        Err(WriteRefusal::Memory(memory)) => Err(ConvertFault::Memory(memory)),
    }
}

/// The plays of the hands in `bytes`: each record with the trace that its script replays to.
///
/// # Errors
///
/// The first fault of the bytes; or else the first refused hand, with its first fault; or out of
/// memory.
pub fn plays<N: Notation>(alloc: Global, from: &N, bytes: &[u8]) -> Result<Vec<Play>, ConvertFault>
    ensures plays { IfOk result (λ plays.
        ReadAsPlays ((N.meaning from.now).Say bytes.now) plays.items) }
    ensures sound { IfOk result (λ plays. AllByRecursion IsSound plays.items) }
    ensures few { IfOk result (λ plays. AreFew plays.items) }
    ensures refused { IfErr result (IsPlaysRefusal ((N.meaning from.now).Say bytes.now)
        ((N.meaning from.now).HaveFault bytes.now)) }
{
    let records = read_records(alloc, from, bytes)?;
    Ok(plays_of(alloc, records)?)
}

/// The records in `bytes`.
///
/// # Errors
///
/// The first fault of the bytes; or out of memory.
pub fn read_records<N: Notation>(
    alloc: Global,
    from: &N,
    bytes: &[u8],
) -> Result<SoundRecords, ConvertFault>
    ensures said { IfOk result ((N.meaning from.now).Say bytes.now) }
    ensures of_file { IfOk result (AreOfFile (N.meaning from.now).rules) }
    ensures refused { IfErr result (IsReadFault ((N.meaning from.now).HaveFault bytes.now)) }
{
    match from.read(alloc, bytes) {
        Ok(records) => Ok(SoundRecords::new(records)),
        Err(fault) => {
            if let Some(memory) = fault.memory() {
                return Err(ConvertFault::Memory(memory));
            }
            Err(ConvertFault::Format(fault))
        }
    }
}
