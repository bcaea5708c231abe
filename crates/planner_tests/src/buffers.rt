// Buffers that are too short, just long enough, and longer; and the destination's empty routes.
use crate::example::{code, example, opened, refusal};
use definitions::Failure;
use measures::Delay;
use networks::draft::Book;
use planner::planner::Planner;
use std::process::Abort;
use std::test::Fail;

fn routes(rt: &impl Abort, planner: &mut Planner<Book, Delay>) -> Result<(), Fail> {
    assert_eq!(rt; planner.plan(3)?, 4);
    let mut short = [9; 1];
    assert_eq!(rt; code(planner.route(0, &mut short)), refusal(16, 2));
    assert!(rt; short == [9]);
    let mut exact = [9; 2];
    assert_eq!(rt; planner.route(0, &mut exact)?, 2);
    assert!(rt; exact == [4, 3]);
    let mut long = [9; 4];
    assert_eq!(rt; planner.backup(0, &mut long)?, 2);
    assert!(rt; long == [0, 1, 9, 9]);
    Ok(())
}

fn at_the_destination(rt: &impl Abort, planner: &Planner<Book, Delay>) -> Result<(), Fail> {
    let mut places = [9; 1];
    assert_eq!(rt; planner.guarantee(3)?, 0);
    assert_eq!(rt; planner.route(3, &mut places)?, 0);
    assert_eq!(rt; planner.trace(3, Failure::OneGroup(31), &mut places)?.1, 0);
    assert!(rt; places == [9]);
    Ok(())
}

fn all(rt: &impl Abort, planner: &mut Planner<Book, Delay>) -> Result<(), Fail> {
    routes(rt, planner)?;
    at_the_destination(rt, planner)
}

#[test]
fn buffers_and_the_destination(rt: HostRuntime) -> Result<(), Fail> {
    let mut planner = opened(rt.alloc(), example(rt.alloc(), 0)?)?;
    let passed = all(&rt, &mut planner);
    drop(planner.close());
    passed
}
