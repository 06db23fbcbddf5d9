//! Edits as JSON.
use act_expr::{Outcome, Value};
use stage_graph::{Act, Edit, End};
use std::fmt;

/// A value as JSON.
#[derive(Clone, Copy)]
struct ValueText(Value);

impl fmt::Display for ValueText {
    fn fmt<W: fmt::Write>(&self, f: &mut fmt::Formatter<W>) -> fmt::Result {
        match self.0 {
            Value::Null => f.write_str("null"),
            Value::Num(number) => write!(f, "{number}"),
        }
    }
}

/// A pinned result as JSON.
#[derive(Clone, Copy)]
struct ResultText(Option<Outcome>);

impl fmt::Display for ResultText {
    fn fmt<W: fmt::Write>(&self, f: &mut fmt::Formatter<W>) -> fmt::Result {
        match self.0 {
            None => f.write_str("null"),
            Some(Outcome::Value(value)) => {
                let value = ValueText(value);
                write!(f, "{{\"value\":{value}}}")
            }
            Some(Outcome::Bare(name)) => {
                let name = name.text();
                write!(f, "{{\"bare\":\"{name}\"}}")
            }
            Some(Outcome::Wrapped(name)) => {
                let name = name.text();
                write!(f, "{{\"wrapped\":\"{name}\"}}")
            }
        }
    }
}

/// A moment as JSON.
#[derive(Clone, Copy)]
struct MomentText(Option<u64>);

impl fmt::Display for MomentText {
    fn fmt<W: fmt::Write>(&self, f: &mut fmt::Formatter<W>) -> fmt::Result {
        match self.0 {
            None => f.write_str("null"),
            Some(tick) => write!(f, "{tick}"),
        }
    }
}

/// An end as JSON.
#[derive(Clone, Copy)]
struct EndText(End);

impl fmt::Display for EndText {
    fn fmt<W: fmt::Write>(&self, f: &mut fmt::Formatter<W>) -> fmt::Result {
        let at = self.0.at;
        match self.0.act {
            Act::Complete(value) => {
                let value = ValueText(value);
                write!(f, "{{\"at\":{at},\"do\":\"complete\",\"value\":{value}}}")
            }
            Act::CompleteExceptionally(name) => {
                let name = name.text();
                write!(
                    f,
                    "{{\"at\":{at},\"do\":\"completeExceptionally\",\"throws\":\"{name}\"}}"
                )
            }
            Act::Cancel => write!(f, "{{\"at\":{at},\"do\":\"cancel\"}}"),
            Act::OrTimeout { delay } => {
                write!(f, "{{\"at\":{at},\"do\":\"orTimeout\",\"delay\":{delay}}}")
            }
            Act::CompleteOnTimeout { delay, value } => {
                let value = ValueText(value);
                write!(
                    f,
                    "{{\"at\":{at},\"do\":\"completeOnTimeout\",\"delay\":{delay},\"value\":{value}}}"
                )
            }
        }
    }
}

/// Ends as JSON, with a comma between each two.
#[derive(Clone, Copy)]
struct EndsText<'a>(&'a [End]);

impl fmt::Display for EndsText<'_> {
    fn fmt<W: fmt::Write>(&self, f: &mut fmt::Formatter<W>) -> fmt::Result {
        let Some((first, others)) = self.0.split_first() else {
            return Ok(());
        };
        let text = EndText(*first);
        write!(f, "{text}")?;
        for end in others {
            let text = EndText(*end);
            write!(f, ",{text}")?;
        }
        Ok(())
    }
}

/// An edit as JSON, of those that words say; of any other there is nothing.
#[derive(Clone, Copy)]
pub(crate) struct EditText<'a>(pub(crate) &'a Edit);

impl fmt::Display for EditText<'_> {
    fn fmt<W: fmt::Write>(&self, f: &mut fmt::Formatter<W>) -> fmt::Result {
        match self.0 {
            Edit::PinResult { name, result } => {
                let name = name.as_str();
                let result = ResultText(*result);
                write!(
                    f,
                    "{{\"do\":\"pinResult\",\"stage\":\"{name}\",\"result\":{result}}}"
                )
            }
            Edit::PinMoment { name, moment } => {
                let name = name.as_str();
                let moment = MomentText(*moment);
                write!(
                    f,
                    "{{\"do\":\"pinMoment\",\"stage\":\"{name}\",\"at\":{moment}}}"
                )
            }
            Edit::SetTimes { name, queued, runs } => {
                let name = name.as_str();
                write!(
                    f,
                    "{{\"do\":\"setTimes\",\"stage\":\"{name}\",\"queued\":{queued},\"runs\":{runs}}}"
                )
            }
            Edit::SetEnds { name, ends } => {
                let name = name.as_str();
                let ends = EndsText(ends.as_slice());
                write!(
                    f,
                    "{{\"do\":\"setEnds\",\"stage\":\"{name}\",\"ends\":[{ends}]}}"
                )
            }
            Edit::SetAction { .. } | Edit::Add(_) | Edit::Remove(_) | Edit::Rewire { .. } => Ok(()),
        }
    }
}
