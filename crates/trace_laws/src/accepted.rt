//! What holds of the stages that an import writes.
ghost use Rattle.trace_laws.specs.Accepted.{EachImportIsLoaded};
ghost use Rattle.trace_laws.specs.Read.{EachImportIsRead};

/// The stages of the spans of a trace are loaded, if neither spans nor stages are more than 65,536: none is refused.
pub fn each_import_is_loaded()
    ensures { EachImportIsLoaded }
{}

/// The text of the stages of a trace, if neither spans nor stages are more than 65,536 and it has 67,108,864 bytes at most, is
/// read as these stages, and none of them is refused. So it is with each text that an import writes.
pub fn each_import_is_read()
    ensures { EachImportIsRead }
{}
