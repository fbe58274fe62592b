//! Lists of jobs, read.

use crate::jobs::lists::Call;
use crate::sets::{LOOK, REGISTERS, SET, cell};
use example_sets::set_of;
use si_engine::Bytes;
use si_workers::{Job, read_jobs};
use std::process::Abort;
use std::test::Fail;

const LIST: &[u8] = b"# jobs behind a row
row t 1 = 4
job 4294967295 Set 1 5
job 0 Look 1
";

const JOBS: [Call; 2] = [(SET, &[1, 5], u32::MAX), (LOOK, &[1], 0)];

fn is_read(job: &Job, wanted: &Call) -> bool {
    let (program, args, retries) = *wanted;
    job.program == program && job.args.as_slice() == args && job.retries == retries
}

fn check_jobs(rt: &impl Abort, jobs: &[Job]) {
    assert!(rt; jobs.len() == JOBS.len());
    for (job, wanted) in jobs.iter().zip(&JOBS) {
        assert!(rt; is_read(job, wanted));
    }
}

#[test]
fn a_list_of_jobs_is_read(rt: HostRuntime) -> Result<(), Fail> {
    let set = set_of(rt.alloc(), REGISTERS.text)?;
    let list = read_jobs(rt.alloc(), &set, &mut Bytes::new(LIST)).expect(&rt, "a list");
    drop(set);
    assert!(rt; list.rows.get(&cell(1)) == Some(4));
    check_jobs(&rt, list.items.as_slice());
    drop(list);
    Ok(())
}
