//! What a witness of a run is told.

use example_sets::set_of;
use history_book::Book;
use si_engine::{Bytes, Event, Port, Reply, Serializability, Witness, run_script_before};
use std::test::Fail;

const SET: &str = "table duty 1;
program Leave(mine, other) {
  let there = get duty[other] else 0;
  put duty[mine] = 0;
  reply there;
}
";

// Ten events.
const BOTH_LEAVE: &[u8] = b"row duty 1 = 1
row duty 2 = 1
begin Leave 1 2
begin Leave 2 1
step 0 3
step 1 3
commit 0
commit 1
";

/// Counts the replies, and keeps how many commits there were behind the last one, and the cycle.
#[derive(Drop)]
struct Listener {
    replies: usize,
    commits: u64,
    cycle: Vec<usize>,
}

impl Witness for Listener {
    fn answered(&mut self, _event: &Event, _reply: &Reply, book: &Book<'_>) {
        self.replies = self.replies.saturating_add(1);
        self.commits = book.commits();
    }

    fn cycle(&mut self, _book: &Book<'_>, cycle: &[usize]) {
        let _kept = self.cycle.extend_from_slice(cycle);
    }

    fn is_last(&self) -> bool {
        false
    }
}

#[test]
fn a_witness_is_told_each_reply_and_the_cycle(rt: HostRuntime) -> Result<(), Fail> {
    let alloc = rt.alloc();
    let set = set_of(alloc, SET)?;
    let mut sink = Port::new(Vec::new(alloc));
    let mut listener = Listener {
        replies: 0,
        commits: 0,
        cycle: Vec::new(alloc),
    };
    let source = &mut Bytes::new(BOTH_LEAVE);
    let ended = run_script_before(alloc, &set, source, &mut sink, &mut listener);
    drop(set);
    assert!(rt; ended == Ok(Serializability::Cycle));
    assert!(rt; listener.replies == 10 && listener.commits == 2);
    assert!(rt; listener.cycle.as_slice() == [1, 2].as_slice());
    Ok(())
}
