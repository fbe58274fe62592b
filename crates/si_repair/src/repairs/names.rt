//! The names of new tables.
ghost use Rattle.std.specs.Prelude.{◌≡◌, IfOk};
ghost use Rattle.prog_tree.specs.Tree.{draft_tree};
ghost use Rattle.prog_check.specs.Names.{is_among};
ghost use Rattle.repair_laws.specs.Materialised.{IsLeastFree};
ghost use Rattle.si_repair.specs.Names.{new_names, taken_names};

use prog_check::ProgramSet;
use prog_tree::Name;
use repair_laws::NewTable;
use std::alloc::{AllocError, Global};

// Whether a new table has the name.
fn is_new(made: &[NewTable], name: &str) -> bool
    ensures { result ≡ is_among (new_names made.now) name.now }
{
    for new_table in made {
        if name == new_table.table.as_str() {
            return true;
        }
    }
    false
}

// Whether a table of the set or a new one has the name.
fn is_taken(set: &ProgramSet, made: &[NewTable], name: &str) -> bool
    ensures { result ≡ is_among (taken_names (draft_tree set.now) made.now) name.now }
{
    set.table_number(name).is_some() || is_new(made, name)
}

/// The first of `mat_0`, `mat_1` and so on that names no table, new tables counted.
pub fn free_name(alloc: Global, set: &ProgramSet, made: &[NewTable]) -> Result<Name, AllocError>
    ensures { IfOk result (IsLeastFree (taken_names (draft_tree set.now) made.now)) }
{
    let taken = set.draft().tables.len() + made.len();
    for number in 0..=taken {
        let name = format!(in alloc; "mat_{number}")?;
        if !is_taken(set, made, name.as_str()) {
            return Name::new(alloc, name.as_str());
        }
    }
    unreachable!()
}
