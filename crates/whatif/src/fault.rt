//! What scripts at once that ended early end the program with.
use console::Fault;
use many_scripts::ManyFault;

/// The end of several scripts.
pub(crate) fn ended(end: Result<(), ManyFault>) -> Result<(), Fault> {
    match end {
        Ok(()) => Ok(()),
        Err(ManyFault::NoThread) => Err(Fault::NoThread),
        Err(ManyFault::Write) => Err(Fault::Write(None)),
        Err(ManyFault::Read) => Err(Fault::Read(None)),
        Err(ManyFault::Missing) => Err(Fault::Missing),
        Err(ManyFault::Torn) => Err(Fault::Torn),
        Err(ManyFault::Memory) => Err(Fault::Memory),
    }
}
