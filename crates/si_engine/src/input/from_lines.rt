//! What the lines of a part make, line by line.
ghost use Rattle.std.specs.Prelude.{◌≡◌, ◌≤◌, ◌+◌, ◌↔◌, ℕ, List, [], Option, Result, true, false};
ghost use Rattle.std.specs.Prelude.{OnOk, IfOk, IfErr, IsErrOf};
ghost use Rattle.prog_tree.specs.Syntax.{DraftTree};
ghost use Rattle.prog_tree.specs.Tree.{draft_tree};
ghost use Rattle.si_engine.specs.Sources.{ForInput};
ghost use Rattle.si_engine.specs.LineFaults.{Reads};
ghost use Rattle.si_engine.specs.Sayings.{made_of, TakesUp, IsMisplaced, IsPart, IsPartFault};

use crate::input::line_fault::LineFault;
use crate::input::lines::{cut, without_return};
use crate::input::part_fault::PartFault;
use crate::input::source::{InputFault, Source, read_whole};
use crate::limits::MAX_READS;
use prog_check::ProgramSet;
use std::alloc::Global;

/// What the lines of a part make.
pub trait FromLines: Drop {
    ghost use Rattle.si_engine.specs.declared.input.line_fault.LineFault.{LineFault};

    /// What one line says.
    type Saying: Drop;

    /// What a line of a number says, or its fault.
    ghost says: { DraftTree → ℕ → List ℕ → Result Self.Saying LineFault };

    /// What is wrong with a saying behind others, or nothing.
    ghost wrong: { ℕ → List Self.Saying → Self.Saying → Option LineFault };

    /// What sayings make.
    ghost whole: { List Self.Saying → Self };

    fn none(alloc: Global) -> Self
        ensures { result ≡ whole [] };

    fn read_line(
        alloc: Global,
        set: &ProgramSet,
        line: usize,
        bytes: &[u8],
    ) -> Result<Self::Saying, LineFault>
        ensures { Reads (λ said. said) result (says (draft_tree set.now) line bytes.now) };

    /// Behind an error it is of no use.
    fn add(&mut self, line: usize, said: Self::Saying) -> Result<(), LineFault>
        ensures grows { OnOk result (TakesUp wrong whole line said self.old self.new) }
        ensures fault { IfErr result (λ fault. IsMisplaced wrong whole line said self.old fault) };
}

/// What the lines of a part at hand make, or its first fault.
pub fn read_lines<W: FromLines>(
    alloc: Global,
    set: &ProgramSet,
    part: &[u8],
) -> Result<W, LineFault>
    ensures { Reads (λ whole. whole) result
        (made_of (W.says (draft_tree set.now)) W.wrong W.whole part.now) }
{
    let mut whole = W::none(alloc);
    let mut line = 0;
    let mut rest = part;
    while !rest.is_empty() {
        line += 1;
        let (bytes, behind) = cut(rest, b'\n');
        let said = W::read_line(alloc, set, line, without_return(bytes))?;
        whole.add(line, said)?;
        rest = behind;
    }
    Ok(whole)
}

/// Reads all of a source as lines, or finds the first fault. Behind an error the source may have
/// been read in part.
pub fn read_part<W: FromLines, S: Source>(
    alloc: Global,
    set: &ProgramSet,
    source: &mut S,
) -> Result<W, PartFault>
    ensures whole { IfOk result (λ whole. ForInput (S.left source.old) (λ part.
        IsPart (made_of (W.says (draft_tree set.now)) W.wrong W.whole part) part whole)) }
    ensures fault { IfErr result (λ fault. S.has_failed source.new ≡ false
        → ForInput (S.left source.old) (λ part.
        IsPartFault (made_of (W.says (draft_tree set.now)) W.wrong W.whole part) part fault)) }
    ensures unread { S.has_failed source.new ≡ true
        ↔ IsErrOf result (PartFault.Input InputFault.ReadFault) }
    ensures reads { S.pulls source.new ≤ S.pulls source.old + MAX_READS }
{
    let part = read_whole(alloc, source)?;
    Ok(read_lines(alloc, set, &part)?)
}
