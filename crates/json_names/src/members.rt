//! The members of objects.
ghost use Rattle.std.specs.Prelude.{◌≡◌, [], IfOk, map, option_and_then, option_map, take, false};
ghost use Rattle.std.specs.Map.{keys_of};
ghost use Rattle.serde_json.specs.Find.{as_array, get};
ghost use Rattle.json_names.specs.Circles.{items_of, list_of, name_of};
ghost use Rattle.json_names.specs.Members.{is_among, is_label, is_unread, member_names, unread_of};

use json_trees::{Items, Tree};
use std::alloc::{AllocError, Global};
use std::collections::BTreeMap;

/// The most members of one object that are told to be unread.
const MOST_UNREAD: usize = 65_536;

/// The elements of a member, where it is an array.
fn array_in<'t, 'a>(object: &Tree<'t, 'a>, member: &str) -> Option<Items<'t, 'a>>
    ensures { result ≡ option_and_then as_array (get member.now object.now) }
{
    object.get(member)?.as_array()
}

/// The elements of a member, and none where it is not there.
pub fn items_of<'t, 'a>(object: &Tree<'t, 'a>, member: &str) -> Items<'t, 'a>
    ensures { list_of result ≡ items_of member.now object.now }
{
    let Some(items) = array_in(object, member) else {
        return Items::none();
    };
    items
}

/// The name of a stage, where it has one.
pub fn name_of<'a>(stage: &Tree<'_, 'a>) -> Option<&'a str>
    ensures { option_map (λ name. name.now) result ≡ name_of stage.now }
{
    stage.get("name")?.as_str()
}

/// Whether the name of a member says that it is the writer's own, and not one that is to be read.
pub fn is_label(member: &[u8]) -> bool
    ensures { result ≡ is_label member.now }
{
    matches!(member, [b'$' | b'_', ..] | [b'x', b'-', ..])
}

/// Whether an object has a member that is no label, and not among those which are read there.
fn has_unread(object: &Tree<'_, '_>, read: &[&str]) -> bool
    ensures { result ≡ false → unread_of object.now read.now ≡ [] }
{
    let Some(mut members) = object.members() else {
        return false;
    };
    'members: while let Some((name, _)) = members.next() {
        if is_unread(name, read) {
            return true;
        }
    }
    false
}

/// The names of an object's members, in order, each once.
fn names_in<'a>(alloc: Global, object: &Tree<'_, 'a>) -> Result<BTreeMap<&'a str, ()>, AllocError>
    ensures { IfOk result (λ names. map (λ name. name.now) (keys_of names.entries) ≡ member_names object.now) }
{
    let mut names = BTreeMap::new(alloc);
    let Some(mut members) = object.members() else {
        return Ok(names);
    };
    'members: while let Some((name, _)) = members.next() {
        names.insert(name, ())?;
    }
    Ok(names)
}

/// The members of an object that are no labels, and not among those which are read there, in order: the first 65,536.
pub fn unread_members<'a>(
    alloc: Global,
    object: &Tree<'_, 'a>,
    read: &[&str],
) -> Result<Vec<&'a str>, AllocError>
    ensures { IfOk result (λ members. map (λ member. member.now) members.items ≡ take MOST_UNREAD (unread_of object.now read.now)) }
{
    let mut unread = Vec::new(alloc);
    // (of most objects all members are read, and none is to be put in order)
    if !has_unread(object, read) {
        return Ok(unread);
    }
    let names = names_in(alloc, object)?;
    for name in names.keys() {
        let member: &'a str = name;
        if unread.len() < MOST_UNREAD && is_unread(member, read) {
            unread.push(member)?;
        }
    }
    Ok(unread)
}

/// Whether a member is no label, and not among those that are read.
fn is_unread(member: &str, read: &[&str]) -> bool
    ensures { result ≡ is_unread read.now member.now }
{
    !is_label(member.as_bytes()) && !is_among(member, read)
}

/// Whether a text is one of several.
pub fn is_among(text: &str, names: &[&str]) -> bool
    ensures { result ≡ is_among text.now names.now }
{
    names.iter().any(|name| *name == text)
}
