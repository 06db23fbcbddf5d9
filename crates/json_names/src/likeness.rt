//! Which of several names is most like a mistaken one.
ghost use Rattle.std.specs.Prelude.{◌≡◌, ◌+◌, ◌/◌, ◌<◌, ◌≤◌, length, IfOk, IfSome, IfNone, All};
ghost use Rattle.json_names.specs.Nearness.{FindsNearest, IsNearest, distance};

use std::alloc::{AllocError, Global};
use strsim::levenshtein;

/// The longest word, in bytes, for which a like name is looked for.
const LONGEST: usize = 64;

/// How many characters may be added, left out or changed in a word: a third of it, and one more.
fn room(word: &str) -> usize
    ensures { result ≡ length word.now / 3 + 1 }
{
    word.len() / 3 + 1
}

/// The name that is most like a word of at most 64 bytes, if one is like it: none of the names is nearer, and it differs in
/// no more characters than a third of the word's bytes and one.
pub fn nearest<'a>(
    alloc: Global,
    word: &str,
    names: &[&'a str],
) -> Result<Option<&'a str>, AllocError>
    ensures near { IfOk result (λ found. IfSome found (IsNearest (λ name. distance word.now name.now) (length word.now / 3 + 1) names.now)) }
    ensures none { IfOk result (λ found. IfNone found (length word.now ≤ LONGEST → All (λ name. length word.now / 3 + 1 < distance word.now name.now) names.now)) }
{
    if word.len() > LONGEST {
        return Ok(None);
    }
    nearest_within(alloc, word, names, room(word))
}

/// The name that is most like a word, among those that differ from it in no more than so many places.
fn nearest_within<'a>(
    alloc: Global,
    word: &str,
    names: &[&'a str],
    most: usize,
) -> Result<Option<&'a str>, AllocError>
    ensures { IfOk result (λ found. FindsNearest (λ name. distance word.now name.now) most names.now found) }
{
    let mut near = None;
    let mut least = most;
    for name in names {
        let distance = levenshtein(alloc, word, name)?;
        if distance < least || distance == least && near.is_none() {
            near = Some(*name);
            least = distance;
        }
    }
    Ok(near)
}
