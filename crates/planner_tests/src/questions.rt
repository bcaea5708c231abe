// The questions of every call, and their order where two are answered with no.
use crate::example::{code, example, opened, refusal};
use definitions::Failure;
use measures::Delay;
use networks::draft::Book;
use planner::planner::Planner;
use std::process::Abort;
use std::test::Fail;

// With no plan 12 comes before all else.
fn before_a_plan(rt: &impl Abort, planner: &mut Planner<Book, Delay>) {
    let mut none: [u16; 0] = [];
    assert_eq!(rt; code(planner.plan(4)), refusal(11, 4));
    assert_eq!(rt; code(planner.guarantee(4)), refusal(12, 0));
    assert_eq!(rt; code(planner.next(4)), refusal(12, 0));
    assert_eq!(rt; code(planner.route(4, &mut none)), refusal(12, 0));
    assert_eq!(rt; code(planner.backup(4, &mut none)), refusal(12, 0));
    assert_eq!(rt;
        code(planner.trace(4, Failure::OneGroup(32), &mut none)),
        refusal(12, 0)
    );
}

// Then 13, 15, 8, 17 and, last, 16.
fn with_a_plan(rt: &impl Abort, planner: &Planner<Book, Delay>) {
    let mut none: [u16; 0] = [];
    assert_eq!(rt; code(planner.guarantee(4)), refusal(13, 4));
    assert_eq!(rt; code(planner.next(3)), refusal(15, 3));
    assert_eq!(rt; code(planner.backup(3, &mut none)), refusal(15, 3));
    assert_eq!(rt; code(planner.route(0, &mut none)), refusal(16, 2));
    assert_eq!(rt; code(planner.backup(0, &mut none)), refusal(16, 2));
    assert_eq!(rt;
        code(planner.trace(0, Failure::OneLink(6), &mut none)),
        refusal(8, 6)
    );
    assert_eq!(rt;
        code(planner.trace(0, Failure::OneGroup(32), &mut none)),
        refusal(17, 32)
    );
    assert_eq!(rt;
        code(planner.trace(0, Failure::OneLink(3), &mut none)),
        refusal(16, 3)
    );
}

fn unreached(rt: &impl Abort, planner: &mut Planner<Book, Delay>) -> Result<(), Fail> {
    let mut none: [u16; 0] = [];
    planner.withdraw(4)?;
    assert_eq!(rt; planner.plan(3)?, 3);
    assert_eq!(rt; code(planner.route(0, &mut none)), refusal(14, 0));
    assert_eq!(rt;
        code(planner.trace(0, Failure::OneLink(6), &mut none)),
        refusal(14, 0)
    );
    assert_eq!(rt; planner.trace(1, Failure::OneLink(4), &mut [9; 1])?.0, 3);
    Ok(())
}

fn all(rt: &impl Abort, planner: &mut Planner<Book, Delay>) -> Result<(), Fail> {
    before_a_plan(rt, planner);
    assert_eq!(rt; planner.plan(3)?, 4);
    with_a_plan(rt, planner);
    unreached(rt, planner)
}

#[test]
fn questions_in_order(rt: HostRuntime) -> Result<(), Fail> {
    let mut planner = opened(rt.alloc(), example(rt.alloc(), 0)?)?;
    let passed = all(&rt, &mut planner);
    drop(planner.close());
    passed
}
