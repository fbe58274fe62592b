//! The numbers of commits at which instances can begin.

use crate::event_lines::EventLines;
use fault_words::program_params;
use history_book::{BeginFault, Book};
use prog_check::MAX_PARAMETERS;
use std::alloc::{AllocError, Global};

const ZEROS: [i64; MAX_PARAMETERS] = [0; MAX_PARAMETERS];

/// From which number to which instances can begin, and the line of the vacuum since which this is
/// so; none where no vacuum gave a number up.
#[derive(Clone, Copy, Debug, PartialEq, Eq)]
pub struct BeginNumbers {
    floor: u64,
    commits: u64,
    vacuum: Option<usize>,
}

/// The last vacuum that gave a number up.
#[derive(Clone, Copy)]
pub struct Vacuums {
    floor: u64,
    // The number of its event.
    last: Option<usize>,
    lines: EventLines,
}

// The least number at which an instance can begin, which a begin of the first program at 0 is told.
fn floor_of(book: &Book<'_>) -> u64 {
    let count = program_params(book.set().draft(), 0).len();
    let args = ZEROS.get(..count).unwrap_or(&[]);
    match book.refusal_at(0, 0, args) {
        Some(BeginFault::TooOld { floor }) => floor,
        _ => 0,
    }
}

impl Vacuums {
    /// There was none.
    pub fn new() -> Self {
        Vacuums {
            floor: 0,
            last: None,
            lines: EventLines::new(),
        }
    }

    /// Looks at a book behind a vacuum, the event of a number. Vacuums alone give numbers up.
    pub fn look(&mut self, book: &Book<'_>, event: usize) {
        let floor = floor_of(book);
        if floor > self.floor {
            self.last = Some(event);
        }
        self.floor = floor;
    }

    /// At which numbers instances can begin in a book, behind the last vacuum.
    pub fn numbers(&mut self, part: &[u8], book: &Book<'_>) -> BeginNumbers {
        let vacuum = match self.last {
            Some(event) => Some(self.lines.line_of(part, event)),
            None => None,
        };
        BeginNumbers {
            floor: self.floor,
            commits: book.commits(),
            vacuum,
        }
    }
}

/// Why no instance begins at a number.
pub fn number_words(
    alloc: Global,
    start: u64,
    numbers: BeginNumbers,
) -> Result<String, AllocError> {
    let BeginNumbers {
        floor,
        commits,
        vacuum,
    } = numbers;
    let mut text = String::new(alloc);
    if let Some(line) = vacuum {
        write!(text, "since the vacuum in line {line} ")?;
    }
    write!(text, "an instance can begin at {floor}")?;
    if floor < commits {
        write!(text, " to {commits}")?;
    } else {
        text.push_str(" alone")?;
    }
    write!(text, ", and not at {start}; no instance begins")?;
    Ok(text)
}
