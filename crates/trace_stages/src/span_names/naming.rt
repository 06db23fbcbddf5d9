//! The name of each span's stage.
ghost use Rattle.std.specs.Prelude.{◌≡◌, ◌<◌, ◌-◌, IfOk};
ghost use Rattle.trace_stages.specs.Names.{names, with_number};

use crate::span_names::base::base_names;
use crate::span_names::numbers::{number_at, numbers_of};
use std::alloc::{AllocError, Global};
use std::fmt::Write;
use trace_spans::{Span, Text, TextList};

/// The most bytes of a dot and a number.
const LONGEST_NUMBER: usize = 21;

/// A base name with its number, from the second on.
fn with_number(alloc: Global, base: &Text, number: u64) -> Result<Text, AllocError>
    ensures { IfOk result (λ name. name ≡ with_number base.now number) }
{
    if number <= 1 {
        return Text::new(alloc, base.as_str());
    }
    let mut name = String::with_capacity(
        alloc,
        base.as_str().len().saturating_add(LONGEST_NUMBER),
    )?;
    name.push_str(base.as_str())?;
    write!(name, ".{number}")?;
    Ok(Text::of(name))
}

/// The name of each span's stage; the numbers go by an order of the spans.
#[tactic(auto, unfolding(crate::specs::Names::names))]
pub fn names(alloc: Global, spans: &[Span], order: &[usize]) -> Result<TextList, AllocError>
    ensures { IfOk result (λ all. all ≡ names spans.now order.now) }
{
    let bases = base_names(alloc, spans)?;
    let numbers = numbers_of(alloc, &bases, order)?;
    let mut names = TextList::new(alloc);
    for (place, base) in bases.as_slice().iter().enumerate() {
        let number = number_at(&numbers, place, base);
        names.push(with_number(alloc, base, number)?)?;
    }
    Ok(names)
}
