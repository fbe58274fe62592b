//! The faults of a record in words.
ghost use Rattle.std.specs.Prelude.{◌≡◌, IfNone, IfOk, IfSome, string_bytes};
ghost use Rattle.run_words.specs.PartPointing.{record_of_fault, HasNoRecordOf, PointsAtRecord};

use crate::in_input::{Part, input_line_text, point_in_part};
use crate::replay::ending;
use crate::shared_words::{cause_text, counted};
use fault_words::{cell_text, ordinal, program_name, program_params};
use history_book::{AuditFault, HistoryRow, MAX_ENDINGS, RowFault};
use prog_check::ProgramSet;
use prog_tree::Sequence;
use si_engine::{ItemList, Records, Reply, read_lines};
use std::alloc::{AllocError, Global};
use text_places::{line_number, record_place};
use version_store::Clash;

// The records of a part, cut before one of them, and this one.
#[derive(Drop)]
struct Cut {
    records: Records,
    row: HistoryRow,
}

fn cut_of_record(alloc: Global, set: &ProgramSet, part: &[u8], number: usize) -> Option<Cut> {
    let ItemList { rows, items } = read_lines::<Records>(alloc, set, part).ok()?;
    let mut records = items.into_vec();
    records.truncate(number.saturating_add(1));
    let row = records.pop()?;
    Some(Cut {
        records: ItemList {
            rows,
            items: Sequence::from_vec(records),
        },
        row,
    })
}

fn numbers_text(alloc: Global, numbers: &[i64]) -> Result<String, AllocError> {
    let mut text = String::new(alloc);
    for number in numbers {
        write!(text, " {number}")?;
    }
    if text.is_empty() {
        return format!(in alloc; " nothing");
    }
    Ok(text)
}

// How the instance of a record ends, in words.
fn ending_text(alloc: Global, set: &ProgramSet, cut: Cut) -> Result<String, AllocError> {
    let Cut { records, row } = cut;
    let name = program_name(set, row.program);
    let start = usize::try_from(row.start).unwrap_or(usize::MAX);
    let mut seen = records.items.into_vec();
    seen.truncate(start);
    let ending = ending(alloc, set, records.rows, seen, &row)?;
    match ending {
        Some(Reply::Ready(replies)) => {
            let would = numbers_text(alloc, replies.as_slice())?;
            let did = numbers_text(alloc, row.replies.as_slice())?;
            format!(in alloc;
                "on the rows that it saw `{name}` replies{would}, and here it gives{did}"
            )
        }
        Some(Reply::Aborted(cause)) => {
            let cause = cause_text(alloc, set, cause)?;
            format!(in alloc; "on the rows that it saw `{name}` aborts, {cause}")
        }
        _ => format!(in alloc; "on the rows that it saw `{name}` does something else"),
    }
}

fn argument_count(alloc: Global, set: &ProgramSet, row: &HistoryRow) -> Result<String, AllocError> {
    let name = program_name(set, row.program);
    let count = program_params(set.draft(), row.program).len();
    let wanted = counted(alloc, count, "parameter")?;
    let given = counted(alloc, row.args.len(), "argument")?;
    format!(in alloc; "`{name}` has {wanted}, and here it is given {given}")
}

fn late_start(alloc: Global, number: usize, start: u64) -> Result<String, AllocError> {
    let before = counted(alloc, number, "record")?;
    let stand = if number == 1 { "stands" } else { "stand" };
    format!(in alloc; "behind `at` stands {start}, and only {before} {stand} before it")
}

fn record_clash(
    alloc: Global,
    set: &ProgramSet,
    part: Part<'_>,
    clash: Clash,
) -> Result<String, AllocError> {
    let cell = cell_text(alloc, set, clash.cell)?;
    let commit = clash.number;
    let record = usize::try_from(commit).unwrap_or(0).saturating_sub(1);
    match record_place(part.bytes, record) {
        Some(place) => {
            let line = line_number(part.bytes, place);
            let whole = input_line_text(alloc, part, place)?;
            format!(in alloc;
                "commit {commit} in line {line}{whole} changed or kept {cell} too, unseen by this one"
            )
        }
        None => format!(in alloc; "commit {commit} changed or kept {cell} too, unseen by this one"),
    }
}

// What is wrong with a record, which was read.
fn read_row_sentence(
    alloc: Global,
    set: &ProgramSet,
    number: usize,
    cut: Cut,
    fault: RowFault,
) -> Result<String, AllocError> {
    match fault {
        RowFault::WrongArguments => argument_count(alloc, set, &cut.row),
        RowFault::StartTooLate => late_start(alloc, number, cut.row.start),
        _ => ending_text(alloc, set, cut),
    }
}

// What is wrong with a record.
fn row_sentence(
    alloc: Global,
    set: &ProgramSet,
    part: Part<'_>,
    number: usize,
    fault: RowFault,
) -> Result<String, AllocError> {
    match fault {
        RowFault::NoSuchProgram => format!(in alloc; "the set has no such program"),
        RowFault::Clashed(clash) => record_clash(alloc, set, part, clash),
        RowFault::WrongArguments
        | RowFault::StartTooLate
        | RowFault::NotReady
        | RowFault::WrongReplies => match cut_of_record(alloc, set, part.bytes, number) {
            Some(cut) => read_row_sentence(alloc, set, number, cut, fault),
            None => format!(in alloc; "no run of the set can have left this record"),
        },
    }
}

// That a record is the first above their limit.
fn too_many_records(alloc: Global) -> Result<String, AllocError> {
    let number = ordinal(alloc, MAX_ENDINGS + 1)?;
    format!(in alloc; "this is the {number} record, and there may be at most {MAX_ENDINGS}")
}

fn sentence(
    alloc: Global,
    set: &ProgramSet,
    part: Part<'_>,
    fault: AuditFault,
) -> Result<String, AllocError> {
    match fault {
        AuditFault::Full => too_many_records(alloc),
        AuditFault::Row { number, fault } => row_sentence(alloc, set, part, number, fault),
        AuditFault::Memory => format!(in alloc; "memory ran out"),
    }
}

// The record that the line of a fault names.
fn record_of_fault(fault: AuditFault) -> Option<usize>
    ensures { result ≡ record_of_fault fault }
{
    match fault {
        AuditFault::Full => Some(MAX_ENDINGS),
        AuditFault::Row { number, .. } => Some(number),
        AuditFault::Memory => None,
    }
}

/// What a fault of a record means, and the record in its part; nothing where it is not found.
pub fn record_words(
    alloc: Global,
    set: &ProgramSet,
    part: Part<'_>,
    fault: AuditFault,
) -> Result<Option<String>, AllocError>
    ensures said { IfOk result (λ said. IfSome said (λ words.
        PointsAtRecord part.entry (record_of_fault fault) (string_bytes words))) }
    ensures none { IfOk result (λ said. IfNone said
        (HasNoRecordOf part.entry.bytes.now (record_of_fault fault))) }
{
    let Some(number) = record_of_fault(fault) else {
        return Ok(None);
    };
    let Some(place) = record_place(part.bytes, number) else {
        return Ok(None);
    };
    let sentence = sentence(alloc, set, part, fault)?;
    let words = point_in_part(alloc, part, place, &sentence)?;
    Ok(Some(words))
}
