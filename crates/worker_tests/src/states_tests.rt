//! The list of states that threads know.

ghost use Rattle.std.specs.Prelude.{◌≡◌};

use crate::sets::rows_of;
use prog_tree::Rows;
use state_log::{Naming, Opened, Tells};
use std::marker::Brand;
use std::process::Abort;
use std::test::Fail;

// Rows tell themselves.
struct Themselves;

impl Tells<Rows> for Themselves {
    ghost state = { λ rows. rows };
}

// Adds the state of some rows.
fn check_added<J: Naming>(rt: &impl Abort, opened: Opened, rows: &Rows)
    requires { opened.seen.book ≡ J.book }
{
    let (head, none) = opened.named::<J>();
    let one = none
        .with_state::<Rows, Themselves>(&head, rows)
        .ok()
        .expect(rt, "a state");
    assert!(rt; none.len() == 0 && one.len() == 1);
    assert!(rt; one.agrees_at(&one.again(), 0) && !one.agrees_at(&none, 0));
    let longer = none.with_state::<Rows, Themselves>(&head, rows).err();
    assert!(rt; longer.is_some_and(|front| front.len() == 1 && front.agrees_at(&one, 0)));
}

#[test]
fn a_state_is_added_once(rt: HostRuntime) -> Result<(), Fail> {
    let rows = rows_of(rt.alloc(), &[(1, 0)])?;
    check_added::<Brand>(&rt, Opened::new(), &rows);
    Ok(())
}
