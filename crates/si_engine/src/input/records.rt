//! Lists of records.
ghost use Rattle.std.specs.Prelude.{◌≡◌, ◌≤◌, ◌+◌, ◌↔◌, true, false, IfOk, IfErr, IsErrOf};
ghost use Rattle.prog_tree.specs.Tree.{draft_tree};
ghost use Rattle.si_engine.specs.Sources.{ForInput};
ghost use Rattle.si_engine.specs.Records.{records_of};
ghost use Rattle.si_engine.specs.Sayings.{IsPart, IsPartFault};

use crate::input::from_lines::read_part;
use crate::input::item_list::ItemList;
use crate::input::part_fault::PartFault;
use crate::input::source::{InputFault, Source};
use crate::limits::MAX_READS;
use history_book::HistoryRow;
use prog_check::ProgramSet;
use std::alloc::Global;

/// The opening rows and the committed instances of a list of records.
pub type Records = ItemList<HistoryRow>;

/// Reads all of a source as a list of records for a set, or finds its first fault. Behind an error
/// the source may have been read in part.
pub fn read_records<S: Source>(
    alloc: Global,
    set: &ProgramSet,
    source: &mut S,
) -> Result<Records, PartFault>
    ensures records { IfOk result (λ records. ForInput (S.left source.old) (λ part.
        IsPart (records_of (draft_tree set.now) part) part records)) }
    ensures fault { IfErr result (λ fault. S.has_failed source.new ≡ false
        → ForInput (S.left source.old) (λ part.
        IsPartFault (records_of (draft_tree set.now) part) part fault)) }
    ensures unread { S.has_failed source.new ≡ true
        ↔ IsErrOf result (PartFault.Input InputFault.ReadFault) }
    ensures reads { S.pulls source.new ≤ S.pulls source.old + MAX_READS }
{
    read_part(alloc, set, source)
}
