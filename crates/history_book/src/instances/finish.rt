//! How a book keeps what an instance ended in.

ghost use Rattle.std.specs.Prelude.{◌≡◌, ◌+◌, ◌-◌, ◌<◌, ◌≤◌, ◌^◌, [], ◌∷◌, ◌++◌, length, None};
ghost use Rattle.std.specs.Prelude.{IsSome, IfOk, OnOk, OnErr};
ghost use Rattle.std.specs.BTreeMap.{is_at};
ghost use Rattle.std.specs.Map.{lookup};
ghost use Rattle.std.specs.Ordering.{nat_cmp};
ghost use Rattle.prog_tree.specs.Tree.{draft_tree};
ghost use Rattle.version_store.specs.StandsFor.{StandsFor, InEachHistory, KeepsHistories};
ghost use Rattle.history_book.specs.Audit.{taken_up};
ghost use Rattle.history_book.specs.Runs.{ended_in, committed_in, IsCommit};
ghost use Rattle.history_book.specs.TrueBook.{IsTrueEnding, committed};
ghost use Rattle.history_book.specs.View.{history_of, instance_of, done_in, most_endings};
ghost use Rattle.history_book.specs.View.{most_begins};

use crate::book::Book;
use crate::instances::row::{Ending, HistoryRow};
use prog_run::Run;
use prog_tree::Changes;
use serial_orders::Trace;
use std::alloc::AllocError;
use version_store::Store;

// Adds a commit to rows, endings, traces and store; without memory to none of them.
fn add_commit(
    rows: &mut Vec<HistoryRow>,
    endings: &mut Vec<Ending>,
    traces: &mut Vec<Trace>,
    store: &mut Store,
    row: HistoryRow,
    trace: Trace,
    changes: &Changes,
) -> Result<u64, AllocError>
    requires { store.old.commits < 2 ^ 64 - 1 }
    ensures number { IfOk result (λ number. number ≡ store.old.commits + 1) }
    ensures rows { OnOk result (rows.new.items ≡ rows.old.items ++ row ∷ []) }
    ensures endings { OnOk result (endings.new.items
        ≡ endings.old.items ++ Ending.Committed (store.old.commits + 1) ∷ []) }
    ensures traces { OnOk result (traces.new.items ≡ traces.old.items ++ trace ∷ []) }
    ensures floor { store.new.floor ≡ store.old.floor }
    ensures stands { OnOk result (InEachHistory store.old (λ opening ws.
        StandsFor store.new opening (ws ++ changes.now ∷ []))) }
    ensures err_rows { OnErr result (rows.new.items ≡ rows.old.items) }
    ensures err_endings { OnErr result (endings.new.items ≡ endings.old.items) }
    ensures err_traces { OnErr result (traces.new.items ≡ traces.old.items) }
    ensures err_stands { OnErr result (KeepsHistories store.old store.new) }
{
    rows.reserve(1)?;
    endings.reserve(1)?;
    traces.reserve(1)?;
    let number = store.install(changes)?;
    rows.push_reserved(row);
    endings.push_reserved(Ending::Committed(number));
    traces.push_reserved(trace);
    Ok(number)
}

impl<'a> Book<'a> {
    /// Keeps how the active instance of a number ended.
    pub(crate) fn conclude(&mut self, number: u64, ending: Ending) -> Result<(), AllocError>
        requires active { IsSome (lookup (is_at (nat_cmp number)) self.old.active) }
        requires no_commit { committed (ending ∷ []) ≡ [] }
        requires is_true { IsTrueEnding (draft_tree self.old.set) self.old.opening
            (history_of self.old.rows) ending }
        ensures ok { OnOk result (self.new ≡ ended_in self.old number ending) }
        ensures err { OnErr result (self.new ≡ self.old) }
    {
        self.endings.push(ending)?;
        self.active.remove(number);
        Ok(())
    }

    /// Keeps the commit of the active instance of a number, and answers with the commit's number.
    pub(crate) fn install(
        &mut self,
        number: u64,
        row: HistoryRow,
        run: &Run<'_>,
    ) -> Result<u64, AllocError>
        requires active { IsSome (lookup (is_at (nat_cmp number)) self.old.active) }
        requires commit { IsCommit self.old row run.now.changes }
        requires looks { run.now.looks ≡ (done_in self.old (instance_of row)).looks }
        ensures number { IfOk result (λ n. n ≡ length self.old.rows + 1) }
        ensures ok { OnOk result (self.new ≡ committed_in self.old number row) }
        ensures err { OnErr result (self.new ≡ self.old) }
    {
        let trace = Trace::of(self.alloc, row.start, run)?;
        let commit = add_commit(
            &mut self.rows,
            &mut self.endings,
            &mut self.traces,
            &mut self.store,
            row,
            trace,
            run.changes(),
        )?;
        self.active.remove(number);
        Ok(commit)
    }

    /// Begins the instance of a row, and commits it by its run. It is no active one in between.
    pub(crate) fn take_up(&mut self, row: HistoryRow, run: &Run<'_>) -> Result<(), AllocError>
        requires none { self.old.active ≡ [] }
        requires commit { IsCommit self.old row run.now.changes }
        requires looks { run.now.looks ≡ (done_in self.old (instance_of row)).looks }
        requires above { self.old.floor ≤ row.start }
        requires room { length self.old.endings < most_endings }
        requires more { self.old.begun < most_begins }
        ensures { OnOk result (self.new ≡ taken_up self.old row) }
    {
        let trace = Trace::of(self.alloc, row.start, run)?;
        add_commit(
            &mut self.rows,
            &mut self.endings,
            &mut self.traces,
            &mut self.store,
            row,
            trace,
            run.changes(),
        )?;
        self.begun += 1;
        Ok(())
    }
}
