//! Examples, whose numbers were worked out by hand.
use crate::{Failure, GroupFacts, Histogram, Name, Summary, TraceFacts, step_of, upper_end};
use std::alloc::{AllocError, Global};
use std::process::Abort;
use std::test::Fail;

#[test]
fn steps(rt: HostRuntime) {
    for (time, step, end) in [
        (0, 0, 0),
        (127, 127, 127),
        (128, 128, 129),
        (255, 191, 255),
        (1000, 317, 1007),
        (1_000_000, 954, 1_007_615),
        (u64::MAX, 3775, u64::MAX),
    ] {
        assert_eq!(rt; step_of(time), step, "of {time}");
        assert_eq!(rt; upper_end(step_of(time)), end, "of {time}");
    }
}

#[test]
fn quantiles(rt: HostRuntime) -> Result<(), Fail> {
    let mut counts = Histogram::new(rt.alloc());
    for time in [1000, 40, 10, 30, 20] {
        counts.add(step_of(time), 1)?;
    }
    for (hundredths, time) in [
        (0, 10),
        (20, 10),
        (21, 20),
        (50, 30),
        (90, 1007),
        (100, 1007),
    ] {
        assert!(rt; hundredths <= 100);
        assert_eq!(rt; counts.quantile(hundredths), Some(time), "at {hundredths}");
    }
    Ok(())
}

/// A reply after 100 ticks, for which `db` ran 40 of them and without which it takes 50.
fn fast(alloc: Global) -> Result<TraceFacts, AllocError> {
    let mut groups = Vec::new(alloc);
    groups.push(GroupFacts {
        name: Name::new(alloc, b"db")?,
        spans: 2,
        is_on_path: true,
        ran: 40,
        queued: 10,
        time_then: 50,
    })?;
    Ok(TraceFacts {
        time: 100,
        failure: None,
        groups,
    })
}

/// What failed: `java.io.IOException`, in `db`.
fn failure(alloc: Global) -> Result<Failure, AllocError> {
    Ok(Failure {
        exception: Name::new(alloc, b"java.io.IOException")?,
        group: Name::new(alloc, b"db")?,
    })
}

/// A reply that failed after 300 ticks.
fn slow(alloc: Global) -> Result<TraceFacts, AllocError> {
    let mut groups = Vec::new(alloc);
    groups.push(GroupFacts {
        name: Name::new(alloc, b"db")?,
        spans: 1,
        is_on_path: false,
        ran: 0,
        queued: 0,
        time_then: 300,
    })?;
    Ok(TraceFacts {
        time: 300,
        failure: Some(failure(alloc)?),
        groups,
    })
}

fn holds(rt: &impl Abort, alloc: Global, both: &Summary) -> Result<(), Fail> {
    assert_eq!(rt; (both.replies.count, both.replies.failed), (2, 1));
    assert_eq!(rt; both.replies.times.at(step_of(300)), 1);
    assert_eq!(rt; both.failures.at(&failure(alloc)?), 1);
    assert!(rt; both.groups.get(&Name::new(alloc, b"web")?).is_none());
    match both.groups.get(&Name::new(alloc, b"db")?) {
        None => assert!(rt; false),
        Some(db) => {
            assert_eq!(rt; (db.traces, db.spans, db.paths, db.sooner), (2, 3, 1, 50));
            assert_eq!(rt;
                (db.ran.at(step_of(100)), db.queued.at(step_of(100))),
                (40, 10)
            );
            assert_eq!(rt;
                (db.ran.total(), db.times.total(), db.times_then.total()),
                (40, 2, 2)
            );
            assert_eq!(rt; db.times.at(step_of(300)), 1);
            assert_eq!(rt; db.times_then.at(step_of(50)), 1);
        }
    }
    Ok(())
}

#[test]
fn summaries(rt: HostRuntime) -> Result<(), Fail> {
    let alloc = rt.alloc();
    let first = Summary::of(alloc, &fast(alloc)?)?;
    let second = Summary::of(alloc, &slow(alloc)?)?;
    holds(&rt, alloc, &first.join(alloc, &second)?)?;
    holds(&rt, alloc, &second.join(alloc, &first)?)
}
