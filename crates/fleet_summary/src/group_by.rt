//! By what spans are in one group.

/// By what spans are in one group.
#[derive(Clone, Copy, Debug, PartialEq, Eq)]
pub enum GroupBy {
    /// By the service and the name.
    Span,
    /// By the service alone.
    Service,
}
