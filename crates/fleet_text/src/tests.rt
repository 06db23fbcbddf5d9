//! A summary of a trace, written, read back and joined with itself.
use crate::{Basis, JoinFault, PartSummary, ReadFault, join_parts, read_summary, write_summary};
use fleet_summary::{Failure, GroupBy, GroupFacts, Name, Summary, TraceFacts};
use std::alloc::{AllocError, Global};
use std::test::Fail;

/// What is written of `part`.
const TEXT: &str =
    r#"{"by":"span","failures":[{"exception":"java.io.IOException","group":"db","replies":1}],"groups":[{"name":"db","paths":1,"queued":[[164,10]],"ran":[[164,40]],"sooner":150,"spans":2,"times":[[164,1]],"timesThen":[[50,1]],"traces":1}],"replies":{"count":1,"failed":1,"times":[[164,1]]},"reply":"GET /cart","try":null,"unit":null,"whatif-fleet":2}"#;

/// A reply that failed after 200 ticks, for which `db` ran 40 of them, and without which it takes 50.
fn facts(alloc: Global) -> Result<TraceFacts, AllocError> {
    let mut groups = Vec::new(alloc);
    groups.push(GroupFacts {
        name: Name::new(alloc, b"db")?,
        spans: 2,
        is_on_path: true,
        ran: 40,
        queued: 10,
        time_then: 50,
    })?;
    Ok(TraceFacts {
        time: 200,
        failure: Some(Failure {
            exception: Name::new(alloc, b"java.io.IOException")?,
            group: Name::new(alloc, b"db")?,
        }),
        groups,
    })
}

fn part(alloc: Global) -> Result<PartSummary, AllocError> {
    Ok(PartSummary {
        basis: Basis {
            by: GroupBy::Span,
            reply: Some(Name::new(alloc, b"GET /cart")?),
            unit: None,
            tried: None,
        },
        summary: Summary::of(alloc, &facts(alloc)?)?,
    })
}

#[test]
fn written_and_read(rt: HostRuntime) -> Result<(), Fail> {
    let alloc = rt.alloc();
    let text = write_summary(alloc, &part(alloc)?)?;
    assert_eq!(rt; text.as_str(), TEXT);
    let back = read_summary(alloc, TEXT)?;
    assert_eq!(rt; write_summary(alloc, &back)?.as_str(), TEXT);
    Ok(())
}

#[test]
fn refused(rt: HostRuntime) -> Result<(), Fail> {
    let alloc = rt.alloc();
    for (old, new, fault) in [
        ("{\"by\"", "\"by\"", ReadFault::NotJson),
        ("whatif-fleet", "form", ReadFault::NoSummary),
        ("fleet\":2", "fleet\":1", ReadFault::OtherForm),
        ("\"by\":\"span\"", "\"by\":\"trace\"", ReadFault::Member),
        ("\"unit\":null,", "", ReadFault::Member),
        ("\"sooner\":150", "\"sooner\":1.5", ReadFault::Member),
        ("[[50,1]]", "[[50,1],[50,1]]", ReadFault::Unsound),
        ("[[50,1]]", "[[50,0]]", ReadFault::Unsound),
        ("[[50,1]]", "[[3776,1]]", ReadFault::Unsound),
        ("\"traces\":1", "\"traces\":0", ReadFault::Unsound),
    ] {
        let text = TEXT.replace(alloc, old, new)?;
        match read_summary(alloc, &text) {
            Ok(_) => assert!(rt; false, "{old} as {new}"),
            Err(own) => assert_eq!(rt; own, fault, "{old} as {new}"),
        }
    }
    Ok(())
}

#[test]
fn joined(rt: HostRuntime) -> Result<(), Fail> {
    let alloc = rt.alloc();
    let first = part(alloc)?;
    let mut others = Vec::new(alloc);
    others.push(part(alloc)?)?;
    let both = join_parts(alloc, &first, &others)?;
    assert_eq!(rt;
        (both.summary.replies.count, both.summary.replies.failed),
        (2, 2)
    );
    others[0].basis.unit = Some(Name::new(alloc, b"ms")?);
    match join_parts(alloc, &first, &others) {
        Ok(_) => assert!(rt; false),
        Err(fault) => assert_eq!(rt; fault, JoinFault::OtherBasis(0)),
    }
    Ok(())
}
