//! Which sentence is said of how a command ended.

use crate::command_fault::CommandFault;
use crate::command_line::Mode;
use crate::parts::SplitFault;
use crate::sentences::analysis::{analysis_sentence, refusal_sentence};
use crate::sentences::kept::Kept;
use crate::sentences::kept_input::KeptInput;
use crate::sentences::repair::repair_sentence;
use crate::sentences::runs::refused_sentence;
use crate::sentences::work::{lost_sentence, work_sentence};
use crate::status::Status;
use analysis_words::{certificate_words, json_words, repair_fault_words, robust_words};
use fault_words::{check_words, text_words};
use prog_check::ProgramSet;
use run_words::{PartKind, extra_part_words, line_fault_words, missing_part_words, record_words};
use si_engine::{InputFault, MAX_INPUT_BYTES, PartFault};
use si_repair::Finding;
use std::alloc::{AllocError, Global};
use std::thread::Threads;

// What stands in the second part of a command's input, where it has one.
fn second_wanted(mode: Mode) -> Option<&'static str> {
    match mode {
        Mode::Check | Mode::Certify | Mode::Repair { .. } => None,
        Mode::Verify => Some("a certificate"),
        Mode::Run { .. } => Some("a script"),
        Mode::Audit => Some("records"),
        Mode::Work { .. } => Some("jobs"),
    }
}

// What the input of a command has.
fn wanted_parts(alloc: Global, mode: Mode) -> Result<String, AllocError> {
    match second_wanted(mode) {
        None => format!(in alloc; "a set alone"),
        Some(second) => format!(in alloc; "a set, one such line, and {second}"),
    }
}

fn part_kind(mode: Mode) -> PartKind {
    match mode {
        Mode::Audit => PartKind::Records,
        Mode::Work { .. } => PartKind::Jobs,
        Mode::Check | Mode::Certify | Mode::Verify | Mode::Repair { .. } | Mode::Run { .. } =>
            PartKind::Script,
    }
}

fn input_sentence(alloc: Global, fault: InputFault) -> Result<Option<String>, AllocError> {
    let words = match fault {
        InputFault::TooLong => {
            format!(in alloc; "the input has more than {MAX_INPUT_BYTES} bytes, the most\n")?
        }
        InputFault::ReadFault => {
            format!(in alloc; "the standard input could not be read to its end\n")?
        }
        InputFault::Memory => return Ok(None),
    };
    Ok(Some(words))
}

fn split_sentence(
    alloc: Global,
    mode: Mode,
    input: KeptInput<'_>,
    fault: SplitFault,
) -> Result<Option<String>, AllocError> {
    match fault {
        SplitFault::MissingPart => {
            let second = second_wanted(mode).unwrap_or("nothing");
            let words = missing_part_words(alloc, input.whole, second)?;
            Ok(Some(words))
        }
        SplitFault::ExtraPart => {
            let wanted = wanted_parts(alloc, mode)?;
            extra_part_words(alloc, input.whole, &wanted)
        }
    }
}

// A fault of what is found on a set, or of what stands behind it.
fn set_words(
    alloc: Global,
    mode: Mode,
    input: KeptInput<'_>,
    set: &ProgramSet,
    fault: CommandFault,
) -> Result<Option<String>, AllocError> {
    match fault {
        CommandFault::Repair(fault) => repair_fault_words(alloc, input.text, set, fault),
        CommandFault::Part(PartFault::Line(fault)) => {
            line_fault_words(alloc, part_kind(mode), set, input.part, fault)
        }
        CommandFault::Audit(fault) => record_words(alloc, set, input.part, fault),
        CommandFault::Certificate(fault) => {
            certificate_words(alloc, input.text, set, input.part.bytes, fault)
        }
        _ => Ok(None),
    }
}

// A fault in words.
fn words_of(
    alloc: Global,
    mode: Mode,
    input: KeptInput<'_>,
    fault: CommandFault,
) -> Result<Option<String>, AllocError> {
    match fault {
        CommandFault::Text(fault) => {
            let words = text_words(alloc, input.text, fault)?;
            Ok(Some(words))
        }
        CommandFault::Check(fault) => check_words(alloc, input.text, fault),
        CommandFault::Input(fault) | CommandFault::Part(PartFault::Input(fault)) => {
            input_sentence(alloc, fault)
        }
        CommandFault::Split(fault) => split_sentence(alloc, mode, input, fault),
        CommandFault::Analysis(fault) => analysis_sentence(alloc, fault),
        CommandFault::Work(fault) => work_sentence(alloc, fault),
        CommandFault::Json(fault) => {
            let words = String::from_str(alloc, json_words(fault))?;
            Ok(Some(words))
        }
        fault => match input.set(alloc) {
            Some(set) => set_words(alloc, mode, input, &set, fault),
            None => Ok(None),
        },
    }
}

// Why no serial order is sure; of a run that ended in a cycle, which lines do nothing.
fn unserializable_words(alloc: Global, kept: &Kept) -> Result<Option<String>, AllocError> {
    match (&kept.set, &kept.found) {
        (Some(set), Some(Finding::Refused(danger))) => {
            refusal_sentence(alloc, KeptInput::of(&kept.input).text, set, danger)
        }
        _ => refused_sentence(alloc, kept),
    }
}

// What a certificate shows that was found.
fn found_sentence(
    rt: &(impl AllocGlobal + Threads + Sync),
    kept: &Kept,
) -> Result<Option<String>, AllocError> {
    match (&kept.set, &kept.found) {
        (Some(set), Some(Finding::Robust(certificate))) => {
            let text = KeptInput::of(&kept.input).text;
            let words = robust_words(rt, rt.alloc(), text, set, certificate)?;
            Ok(Some(words))
        }
        _ => Ok(None),
    }
}

fn done_sentence(
    rt: &(impl AllocGlobal + Threads + Sync),
    mode: Mode,
    kept: &Kept,
) -> Result<Option<String>, AllocError> {
    match mode {
        Mode::Certify => found_sentence(rt, kept),
        Mode::Repair { promote } => repair_sentence(rt.alloc(), kept, promote),
        Mode::Run { .. } => refused_sentence(rt.alloc(), kept),
        Mode::Work { .. } => lost_sentence(rt.alloc(), kept),
        _ => Ok(None),
    }
}

// What is to be said of how a command ended, beside its cycle.
fn ending_words(
    rt: &(impl AllocGlobal + Threads + Sync),
    mode: Mode,
    kept: &Kept,
    ended: Result<Status, CommandFault>,
) -> Result<Option<String>, AllocError> {
    match ended {
        Ok(Status::Unserializable) => unserializable_words(rt.alloc(), kept),
        Ok(Status::Done) => done_sentence(rt, mode, kept),
        Ok(Status::Faulty | Status::Memory) => Ok(None),
        Err(fault) => words_of(rt.alloc(), mode, KeptInput::of(&kept.input), fault),
    }
}

/// Says on the standard error what is wrong with an input, why its set is refused, in which cycle
/// its commits end, or which lines do nothing, unless memory runs out for it.
pub fn explain(
    rt: &(impl AllocGlobal + Eprint + Threads + Sync),
    mode: Mode,
    kept: &Kept,
    ended: Result<Status, CommandFault>,
) {
    if let (Ok(Status::Unserializable), Some(cycle)) = (ended, &kept.cycle) {
        let _ = rt.eprint(cycle);
    }
    if let Ok(Some(words)) = ending_words(rt, mode, kept, ended) {
        let _ = rt.eprint(&words);
    }
}
