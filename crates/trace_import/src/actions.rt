//! The actions of stages.
ghost use Rattle.std.specs.Prelude.{◌≡◌, IfOk, codes};
ghost use Rattle.act_expr.specs.Expression.{throw};
ghost use Rattle.trace_import.specs.Actions.{exception_name, imported_action, name_told, throw_of};
ghost use Rattle.trace_import.specs.KeptActions.{AreActions};

use act_expr::{ExName, Expr, Form, Value};
use std::alloc::{AllocError, Global};
use trace_spans::Span;
use trace_stages::{Action, Exception};

/// What a failed span throws that tells no exception.
const SPAN_FAILED: &str = "SpanFailed";

/// The name of the exception that a span tells.
fn name_told(span: &Span) -> &str
    ensures { result.now ≡ name_told span.now.exception }
{
    match &span.exception {
        Some(name) => name.as_str(),
        None => SPAN_FAILED,
    }
}

/// The name of an exception.
fn exception_name<'a>(spans: &'a [Span], exception: Exception) -> &'a str
    ensures { result.now ≡ exception_name spans.now exception }
{
    match exception {
        Exception::SpanFailed => SPAN_FAILED,
        Exception::Of(place) => match spans.get(place) {
            Some(span) => name_told(span),
            None => SPAN_FAILED,
        },
    }
}

/// Actions that are made once, and shared by the stages that have them.
#[derive(Drop)]
pub(crate) struct Actions {
    null: Expr,
    first: Expr,
    failed: Expr,
}

/// The throw of the exception of a span that tells none.
fn span_failed(alloc: Global) -> Result<Expr, AllocError>
    ensures { IfOk result (λ expression. expression ≡ throw (codes "SpanFailed")) }
{
    match ExName::new(SPAN_FAILED) {
        Some(name) => Expr::new(alloc, Form::throw(alloc, name)?),
        // (it is a name of an exception)
        None => Err(AllocError),
    }
}

impl Actions {
    pub(crate) fn new(alloc: Global) -> Result<Actions, AllocError>
        ensures { IfOk result (λ actions. AreActions actions) }
    {
        Ok(Actions {
            null: Expr::new(alloc, Form::Literal(Value::Null))?,
            first: Expr::new(alloc, Form::Literal(Value::Num(0)))?,
            failed: span_failed(alloc)?,
        })
    }

    /// The throw of an exception.
    fn throw(&self, alloc: Global, spans: &[Span], exception: Exception) -> Result<Expr, AllocError>
        requires { AreActions self.now }
        ensures { IfOk result (λ expression. expression ≡ throw_of (exception_name spans.now exception)) }
    {
        match ExName::new(exception_name(spans, exception)) {
            Some(name) => Expr::new(alloc, Form::throw(alloc, name)?),
            None => self.failed.clone(),
        }
    }

    /// The action of a stage.
    pub(crate) fn imported(
        &self,
        alloc: Global,
        spans: &[Span],
        action: Action,
    ) -> Result<Expr, AllocError>
        requires { AreActions self.now }
        ensures { IfOk result (λ expression. expression ≡ imported_action spans.now action) }
    {
        match action {
            Action::Null => self.null.clone(),
            Action::PicksFirst => self.first.clone(),
            Action::Throws(exception) => self.throw(alloc, spans, exception),
            Action::ThrowsIfFailed(exception) => {
                let failed = Expr::new(alloc, Form::Failed)?;
                let thrown = self.throw(alloc, spans, exception)?;
                Expr::new(alloc, Form::If(failed, thrown, self.null.clone()?))
            }
        }
    }
}
