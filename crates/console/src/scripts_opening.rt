//! The files of several scripts, of which what is read is kept.
ghost use Rattle.std.specs.Prelude.{◌≡◌, All, IfOk, length, vec_len};
ghost use Rattle.text_io.specs.Counted.{read_failures};

use crate::fault::Fault;
use crate::input::{Named, opened};
use crate::kept_script::{KeepingReader, KeptScript};
use crate::voice::Voice;
use std::alloc::{AllocError, Global};
use text_io::CountedReader;

/// What is kept of as many scripts, none of which was read yet.
pub fn unread_scripts(
    alloc: Global,
    count: usize,
    is_wanted: bool,
) -> Result<Vec<KeptScript>, AllocError> {
    let mut scripts = Vec::new(alloc);
    for _ in 0..count {
        scripts.push(KeptScript::new(alloc, is_wanted))?;
    }
    Ok(scripts)
}

/// The scripts' files in their order, each opened; what is read of one is kept in the script at its place. A path that has none there is a
/// mistake of the command line.
pub fn opened_scripts<'a>(
    rt: &HostRuntime,
    voice: Voice<'_>,
    paths: &[&str],
    scripts: &'a mut [KeptScript],
) -> Result<Vec<CountedReader<KeepingReader<'a>>>, Fault>
    ensures len { IfOk result (λ sources. vec_len sources ≡ length paths.now) }
    ensures new { IfOk result (λ sources. All (λ source. read_failures source ≡ 0) sources.items) }
{
    let mut sources = Vec::new(rt.alloc());
    let mut kept = scripts.iter_mut();
    for path in paths {
        let Some(script) = kept.next() else {
            return Err(Fault::CommandLine);
        };
        let file = opened(rt, voice, path, Named::Script)?;
        sources.reserve(1)?;
        sources.push_reserved(CountedReader::new(KeepingReader { file, script }));
    }
    Ok(sources)
}
