//! Joins: one stage for several.
ghost use Rattle.std.specs.Prelude.{◌≡◌, IfOk};
ghost use Rattle.trace_stages.specs.Joins.{finished, gathered, join_id, joined_of, plain_gathering, plain_joined, plain_joins};

use crate::walk::stage_id::StageId;
use std::alloc::{AllocError, Global};

/// The most sources of a join.
const MOST_SOURCES: usize = 1024;

/// Whose joins they are.
#[derive(Clone, Copy, PartialEq, Eq, Debug)]
pub enum JoinsOf {
    /// Those at the start of a span.
    Entry(usize),
    /// Those of what a span has.
    Holding(usize),
}

/// The stage that a join of a number is.
fn join_id(of: JoinsOf, number: usize) -> StageId
    ensures { result ≡ join_id of number }
{
    match of {
        JoinsOf::Entry(span) => StageId::Entry(span, number),
        JoinsOf::Holding(span) => StageId::Join(span, number),
    }
}

/// Joins, and the sources that are gathered for the next.
#[derive(Drop)]
struct Gathering {
    joins: Vec<Vec<StageId>>,
    together: Vec<StageId>,
}

/// Gathers one more source; a join that is full becomes the first source of the next.
fn gather(
    alloc: Global,
    of: JoinsOf,
    gathering: Gathering,
    source: StageId,
) -> Result<Gathering, AllocError>
    ensures { IfOk result (λ more. plain_gathering more ≡ gathered of (plain_gathering gathering) source) }
{
    let Gathering {
        mut joins,
        mut together,
    } = gathering;
    if together.len() < MOST_SOURCES {
        together.push(source)?;
        return Ok(Gathering { joins, together });
    }
    let full = join_id(of, joins.len());
    joins.push(together)?;
    let mut next = Vec::new(alloc);
    next.push(full)?;
    next.push(source)?;
    Ok(Gathering {
        joins,
        together: next,
    })
}

/// Joins, and the stage that stands for all sources.
#[derive(Drop)]
pub struct Joined {
    pub joins: Vec<Vec<StageId>>,
    pub stage: Option<StageId>,
}

/// One stage for what was gathered.
fn finish(of: JoinsOf, gathering: Gathering) -> Result<Joined, AllocError>
    ensures { IfOk result (λ joined. plain_joined joined ≡ finished of (plain_gathering gathering)) }
{
    let Gathering {
        mut joins,
        together,
    } = gathering;
    let stage = match together.as_slice() {
        [] => None,
        [only] => Some(*only),
        _ => Some(join_id(of, joins.len())),
    };
    if together.len() > 1 {
        joins.push(together)?;
    }
    Ok(Joined { joins, stage })
}

/// One stage for sources of which there are some.
fn join_some(
    alloc: Global,
    of: JoinsOf,
    joins: Vec<Vec<StageId>>,
    sources: &[StageId],
) -> Result<Joined, AllocError>
    ensures { IfOk result (λ joined. plain_joined joined ≡ joined_of of (plain_joins joins) sources.now) }
{
    let mut gathering = Gathering {
        joins,
        together: Vec::with_capacity(alloc, sources.len().min(MOST_SOURCES))?,
    };
    for source in sources {
        gathering = gather(alloc, of, gathering, *source)?;
    }
    finish(of, gathering)
}

/// One stage for several: a join, or more of them where there are more sources than one has.
///
/// A source that is alone stands for itself: most are, and nothing is gathered for them.
pub fn join_all(
    alloc: Global,
    of: JoinsOf,
    joins: Vec<Vec<StageId>>,
    sources: &[StageId],
) -> Result<Joined, AllocError>
    ensures { IfOk result (λ joined. plain_joined joined ≡ joined_of of (plain_joins joins) sources.now) }
{
    match sources {
        [] => Ok(Joined { joins, stage: None }),
        [only] => Ok(Joined {
            joins,
            stage: Some(*only),
        }),
        _ => join_some(alloc, of, joins, sources),
    }
}
