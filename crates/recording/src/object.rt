//! The members of a JSON object, in the form that is required.
//!
//! Each reader returns `Fault::Shape` with the member that doesn't have its form.
ghost use Rattle.std.specs.Prelude.{◌≡◌, Some, None, option_map};
ghost use Rattle.recording.specs.Members.{member_of, of_form, required, optional};
ghost use Rattle.recording.specs.Reads.{IsRead};

use crate::from_json::FromJson;
use crate::unread::Unread;
use crate::{Fault, Member};
use json_trees::Tree;
use std::alloc::Global;

/// The value of a member that is present.
fn read_present<T: FromJson>(
    alloc: Global,
    value: &Tree<'_, '_>,
    member: Member,
) -> Result<T, Fault>
    ensures { IsRead result (of_form member T.form value.now) }
{
    match T::from_json(alloc, value) {
        Ok(read) => Ok(read),
        Err(Unread::Shape) => Err(Fault::Shape(member)),
        Err(Unread::Memory) => Err(Fault::Memory),
    }
}

/// A member that must be present, from the look-up that found it or not.
pub(crate) fn read_required<T: FromJson>(
    alloc: Global,
    object: &Tree<'_, '_>,
    found: &Option<Tree<'_, '_>>,
    member: Member,
) -> Result<T, Fault>
    requires { found.now ≡ member_of member object.now }
    ensures { IsRead result (required member T.form object.now) }
{
    match found {
        Some(value) => read_present(alloc, value, member),
        None => Err(Fault::Shape(member)),
    }
}

/// A member, or the default where the look-up found none.
pub(crate) fn read_optional<T: FromJson + Drop>(
    alloc: Global,
    object: &Tree<'_, '_>,
    found: &Option<Tree<'_, '_>>,
    member: Member,
    default: T,
) -> Result<T, Fault>
    requires { found.now ≡ member_of member object.now }
    ensures { IsRead result (optional member default T.form object.now) }
{
    match found {
        Some(value) => read_present(alloc, value, member),
        None => Ok(default),
    }
}

/// A member, or none where the look-up found none; null is not none.
pub(crate) fn read_if_present<T: FromJson>(
    alloc: Global,
    object: &Tree<'_, '_>,
    found: &Option<Tree<'_, '_>>,
    member: Member,
) -> Result<Option<T>, Fault>
    requires { found.now ≡ member_of member object.now }
    ensures { IsRead result (optional member None (λ value. option_map Some (T.form value)) object.now) }
{
    let Some(value) = found else {
        return Ok(None);
    };
    match T::from_json(alloc, value) {
        Ok(read) => Ok(Some(read)),
        Err(Unread::Shape) => Err(Fault::Shape(member)),
        Err(Unread::Memory) => Err(Fault::Memory),
    }
}

/// A member that must be present.
pub(crate) fn required<T: FromJson>(
    alloc: Global,
    object: &Tree<'_, '_>,
    member: Member,
) -> Result<T, Fault>
    ensures { IsRead result (required member T.form object.now) }
{
    read_required(alloc, object, &object.get(member.text()), member)
}

/// A member, or the default where the object has no such member.
pub(crate) fn optional<T: FromJson + Drop>(
    alloc: Global,
    object: &Tree<'_, '_>,
    member: Member,
    default: T,
) -> Result<T, Fault>
    ensures { IsRead result (optional member default T.form object.now) }
{
    read_optional(alloc, object, &object.get(member.text()), member, default)
}

/// A member, or none where the object has no such member; null is not none.
pub(crate) fn if_present<T: FromJson>(
    alloc: Global,
    object: &Tree<'_, '_>,
    member: Member,
) -> Result<Option<T>, Fault>
    ensures { IsRead result (optional member None (λ value. option_map Some (T.form value)) object.now) }
{
    read_if_present(alloc, object, &object.get(member.text()), member)
}
