//! Publishing a version: all of it that can fail.
ghost use Rattle.std.specs.Prelude.{◌≡◌, ◌+◌, ◌<◌, ◌^◌, ◌++◌, ◌∷◌, [], length, IfOk, OnOk};
ghost use Rattle.left_right.specs.Handles.{published as shown, pending};
ghost use Rattle.desk.specs.Publishing.{WillShow};
ghost use Rattle.desk.specs.Shelving.{IsShelved};

use crate::front::{Archive, Front};
use crate::known::Known;
use crate::name::Naming;
use crate::shelf::{Count, Shelf, Shelved, append, put};
use left_right::WriteHandle;
use share_tree::Again;
use std::alloc::AllocError;
use std::sync::Wait;
use version_store::{StateRepresentation, Version};

/// A version that lies on the shelf and that no reader sees yet: the list with it, what shows that it lies there, and the
/// version once more.
#[derive(Drop)]
pub(crate) struct Publication<N: Naming, R: StateRepresentation> {
    pub(crate) front: Front<N, R>,
    pub(crate) last: Shelved<N, R>,
    pub(crate) version: Version<R>,
}

/// Room for the version with this number on the shelf and in what is published.
fn make_room<N: Naming, R: StateRepresentation, W: Wait + Drop>(
    shelf: &Shelf<N, R>,
    published: &mut WriteHandle<Count, u64, W>,
    number: u32,
) -> Result<(), AllocError>
    ensures shown { (shown published.new).0 ≡ (shown published.old).0 }
    ensures next { OnOk result (WillShow (pending published.new) (number + 1)) }
{
    shelf.reserve_at(number as usize)?;
    append(published, u64::from(number) + 1)
}

/// A version twice.
fn twice<R: StateRepresentation>(
    version: &Version<R>,
) -> Result<(Version<R>, Version<R>), AllocError>
    ensures { IfOk result (λ copies. (copies.0 ≡ version.now) × (copies.1 ≡ version.now)) }
{
    let one = version.again()?;
    Ok((one, version.again()?))
}

/// The front with one version more, which the archive has then.
pub(crate) fn longer_front<N: Naming, R: StateRepresentation>(
    archive: &Archive<N, R>,
    front: &Front<N, R>,
    version: &Version<R>,
) -> Result<Front<N, R>, AllocError>
    requires { length front.now < 2 ^ 62 }
    ensures { IfOk result (λ longer. longer ≡ front.now ++ version.now ∷ []) }
{
    let mut longer = front.again();
    match longer.add(archive, version) {
        true => Ok(longer),
        false => Err(AllocError),
    }
}

/// Puts the version that comes next into the archive and on the shelf. Readers see nothing of it yet. All that may run out of
/// memory comes before the archive has it: were it not put on the shelf then, the archive would have a version that the table
/// has not, and the table would take no commit from then on; what is published would still lie on the shelf.
pub(crate) fn place<N: Naming, R: StateRepresentation, W: Wait + Drop, X: Wait>(
    rt: &X,
    archive: &Archive<N, R>,
    shelf: &Shelf<N, R>,
    published: &mut WriteHandle<Count, u64, W>,
    front: &Front<N, R>,
    version: &Version<R>,
) -> Result<Publication<N, R>, AllocError>
    requires { version.now.number ≡ length front.now }
    ensures front { IfOk result (λ placed. placed.front ≡ front.now ++ version.now ∷ []) }
    ensures last { IfOk result (λ placed. IsShelved shelf.now placed.last version.now) }
    ensures version { IfOk result (λ placed. placed.version ≡ version.now) }
    ensures shown { (shown published.new).0 ≡ (shown published.old).0 }
    ensures next { OnOk result (WillShow (pending published.new) (version.now.number + 1)) }
{
    make_room(shelf, published, version.number())?;
    let (one, other) = twice(version)?;
    let front = longer_front(archive, front, version)?;
    let last = put(rt, shelf, Known::new(one, &front))?;
    Ok(Publication {
        front,
        last,
        version: other,
    })
}
