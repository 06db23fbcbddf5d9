//! What holds of the text that an import writes, and of the graph that is read from it.
ghost use Rattle.trace_laws.specs.Imports.{EachExceptionHasItsName, EachImportIsAccepted, EachImportIsFaithful};

/// Who reads a recording that a trace makes reads a graph, unless memory is out.
pub fn each_import_is_accepted()
    ensures { EachImportIsAccepted }
{}

/// In the graph that is read from an import each stage completes as `each_trace_is_faithful` says; what that law leaves open
/// of answers and joins is open here too.
pub fn each_import_is_faithful()
    ensures { EachImportIsFaithful }
{}

/// The exception that a span tells is written by the name that the span tells, if that is one of an exception.
pub fn each_exception_has_its_name()
    ensures { EachExceptionHasItsName }
{}
