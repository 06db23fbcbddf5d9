//! Expressions: what the recorded action of a stage computes from its arguments.
//!
//! Numbers are those of Java's type `long`, and arithmetic is that of the Java Language Specification
//! (sections 15.17 to 15.21): sums, differences and products wrap at 64 bits, a quotient is truncated
//! toward zero. Operands are evaluated from left to right, and the first throw is the answer.
ghost use Rattle.std.specs.Prelude.{◌≡◌, ◌≤◌, ◌↔◌, IfOk, OnOk, IsTrue};
ghost use Rattle.act_expr.specs.Expression.{depth, nodes, cause_is, throw};
ghost use Rattle.act_expr.specs.declared.expr.Kept.TheVariants.{Nothing};
ghost use Rattle.act_expr.specs.Forms.{tree, kept_of, kept_on, number_of, value_kept, IsMade};
ghost use Rattle.act_expr.specs.Meaning.{meaning, on_values, on_numbers, check, fault_number};
ghost use Rattle.act_expr.specs.Throwing.{as_answer, name_of};

use crate::{ExName, Value};
use std::alloc::{AllocError, Global};
use std::marker::Model;
use std::sync::Arc;
use thiserror::Error;

/// The greatest depth of a sound expression.
const MOST_DEPTH: u32 = 32;

/// The most nodes of a sound expression.
const MOST_NODES: u32 = 256;

/// The most levels that an expression can be made with, so that none is too deep to be walked.
const MOST_MADE_DEPTH: u32 = 1024;

/// The most nodes that an expression can be made with, each counted as often as it is in the tree. The longest recording has
/// fewer.
const MOST_MADE_NODES: u32 = 67_108_864;

/// Which argument of the action.
#[derive(Clone, Copy, PartialEq, Eq, Debug)]
pub enum Position {
    First,
    Second,
}

/// An operator on two numbers. A null operand throws `java.lang.NullPointerException`.
#[derive(Clone, Copy, PartialEq, Eq, Debug)]
pub enum Operator {
    Add,
    Sub,
    Mul,
    /// The divisor 0 throws `java.lang.ArithmeticException`; the least number divided by -1 is itself.
    Div,
    /// 1 if the first number is less than the second, else 0.
    Lt,
    /// 1 if the numbers are equal, else 0.
    Eq,
}

/// The exception that an action is handed.
#[derive(Clone, Copy, PartialEq, Eq, Debug)]
pub struct Failure {
    /// Whether it is handed over as the cause of a `CompletionException`.
    pub wrapped: bool,
    pub name: ExName,
}

/// What an action is handed: null stands for a value that is not handed over.
#[derive(Clone, Copy, PartialEq, Eq, Debug)]
pub struct Args {
    pub first: Value,
    pub second: Value,
    pub failure: Option<Failure>,
}

/// What an expression gives or throws.
#[derive(Clone, Copy, PartialEq, Eq, Debug)]
pub enum Answer {
    Gives(Value),
    Throws(ExName),
}

/// What is thrown where an expression has no value. A name that stands in the expression is lent, since it is far larger than a
/// value, and each operand hands this on.
#[derive(Clone, Copy)]
pub enum Thrown<'a> {
    NullPointer,
    Arithmetic,
    Named(&'a ExName),
}

/// Why an expression is refused.
#[derive(Clone, Copy, PartialEq, Eq, Debug, Error)]
pub enum ExprFault {
    /// It is deeper than 32.
    #[error("the expression is deeper than 32")]
    TooDeep,
    /// It has more than 256 nodes.
    #[error("the expression has more than 256 nodes")]
    TooLarge,
}

/// An expression. Its owners share it, and contracts see it as a plain tree.
#[cycle(expr)]
#[derive(Drop)]
pub struct Expr {
    node: Arc<Node>,
    /// The number, where what is kept has one; whatever owns an expression has this at hand.
    number: i64,
    kept: Kept,
}

/// What the owners of an expression share.
#[cycle(expr)]
#[derive(Drop)]
struct Node {
    form: Form,
    /// How many nodes there are; those of a shared part count as often as it is in the tree.
    forms: u32,
    /// How deeply the forms are nested.
    levels: u16,
}

/// A literal or an argument.
#[derive(Clone, Copy)]
enum Operand {
    Null,
    /// The number that the expression keeps.
    Number,
    First,
    Second,
}

/// What an expression keeps of its form. Whoever owns an expression has this at hand, whereas the form lies in memory of its
/// own, and to wait for that is most of the time of an evaluation.
#[derive(Clone, Copy)]
enum Kept {
    /// The form is a literal or an argument.
    Operand(Operand),
    /// The form is an operator on two such, of which one at most is a number.
    Operation(Operator, Operand, Operand),
    /// Any other form, of which nothing is kept.
    Nothing,
}

impl Operand {
    /// Its value, where this number is kept.
    #[inline(always)]
    fn value(self, number: i64, args: &Args) -> Value
        ensures { result ≡ value_kept self number args.now }
    {
        match self {
            Operand::Null => Value::Null,
            Operand::Number => Value::Num(number),
            Operand::First => args.first,
            Operand::Second => args.second,
        }
    }
}

impl Kept {
    /// What is kept of an operator on expressions of which this is kept: there is room for one number.
    fn on(operator: Operator, left: Kept, right: Kept) -> Kept
        ensures { result ≡ kept_on operator left right }
    {
        match (left, right) {
            (Kept::Operand(Operand::Number), Kept::Operand(Operand::Number)) => Kept::Nothing,
            (Kept::Operand(left), Kept::Operand(right)) => Kept::Operation(operator, left, right),
            _ => Kept::Nothing,
        }
    }
}

/// The outermost form of an expression, with its operands.
#[cycle(expr)]
#[derive(Drop)]
pub enum Form {
    Literal(Value),
    Argument(Position),
    Binary(Operator, Expr, Expr),
    /// The second expression where the first gives a number other than 0, the third where it gives 0.
    /// Only that one is evaluated. A null condition throws `java.lang.NullPointerException`.
    If(Expr, Expr, Expr),
    /// 1 if the operand gives null, else 0.
    IsNull(Expr),
    /// 1 if the action was handed an exception, else 0.
    Failed,
    /// 1 if that exception was handed over as the cause of a `CompletionException`, else 0.
    IsWrapped,
    /// 1 if that exception, wrapped or not, has this name, else 0. The name lies apart, since it is far larger than what the
    /// other forms hold.
    CauseIs(Box<ExName>),
    Throw(Box<ExName>),
}

impl Model for Expr {
    ghost use Rattle.act_expr.specs.Expression.{Expression, nodes};
    ghost use Rattle.act_expr.specs.ExpressionCode.{coded_expression};

    ghost Value = { Expression };

    ghost coded = { coded_expression };

    ghost use Rattle.std.specs.Prelude.{◌≡◌};
    ghost use Rattle.act_expr.specs.Expression.{depth};
    ghost use Rattle.act_expr.specs.Forms.{tree, kept_of, number_of, IsMade};

    ghost view = { λ e. tree e.node.value.form };

    ghost invariant = { λ e. (e.node.value.levels ≡ depth (tree e.node.value.form)) × (e.node.value.forms ≡ nodes (tree e.node.value.form)) × (e.kept ≡ kept_of (tree e.node.value.form)) × (e.number ≡ number_of (tree e.node.value.form)) × IsMade (tree e.node.value.form) };

    ghost size = { nodes };

    ghost use Rattle.std.proofs.Common.{arith};

    ghost size_decreases = { λ e h. Prim.grind arith };
}

impl Expr {
    /// The expression of a form. It fails as if out of memory for an expression of more than 1,024 levels, or of more than
    /// 67,108,864 nodes, where a shared part counts as often as it is in the tree. So each expression can be walked, compared
    /// and dropped.
    pub fn new(alloc: Global, form: Form) -> Result<Expr, AllocError>
        ensures tree { IfOk result (λ e. e ≡ tree form) }
        ensures made { OnOk result (IsMade (tree form)) }
    {
        let levels = form.depth();
        let forms = form.nodes();
        if levels > MOST_MADE_DEPTH || forms > MOST_MADE_NODES {
            return Err(AllocError);
        }
        let kept = form.kept();
        let number = form.number();
        let node = Arc::new(
            alloc,
            Node {
                form,
                forms,
                levels: levels as u16,
            },
        )?;
        Ok(Expr { node, number, kept })
    }

    /// The outermost form.
    pub fn form(&self) -> &Form
        ensures { tree result.now ≡ self.now }
    {
        &self.node.form
    }

    /// Whether two expressions are the same tree, shared or not.
    pub fn same(&self, other: &Expr) -> bool
        ensures { IsTrue result ↔ (self.now ≡ other.now) }
    {
        match (self.form(), other.form()) {
            (Form::Literal(a), Form::Literal(b)) => a == b,
            (Form::Argument(a), Form::Argument(b)) => a == b,
            (Form::Binary(o, a, b), Form::Binary(p, c, d)) => o == p && a.same(c) && b.same(d),
            (Form::If(a, b, c), Form::If(d, e, f)) => a.same(d) && b.same(e) && c.same(f),
            (Form::IsNull(a), Form::IsNull(b)) => a.same(b),
            (Form::Failed, Form::Failed) => true,
            (Form::IsWrapped, Form::IsWrapped) => true,
            (Form::CauseIs(a), Form::CauseIs(b)) => a == b,
            (Form::Throw(a), Form::Throw(b)) => a == b,
            _ => false,
        }
    }

    /// Refuses an expression that is too deep, or else too large. Each form is a node; a form without
    /// operands has depth 1.
    pub fn check(&self) -> Result<(), ExprFault>
        ensures { result ≡ check self.now }
    {
        if self.depth() > MOST_DEPTH {
            Err(ExprFault::TooDeep)
        } else if self.nodes() > MOST_NODES {
            Err(ExprFault::TooLarge)
        } else {
            Ok(())
        }
    }

    /// What the expression gives or throws for these arguments.
    pub fn eval(&self, args: &Args) -> Answer
        ensures { result ≡ meaning self.now args.now }
    {
        match self.value(args) {
            Ok(value) => Answer::Gives(value),
            Err(thrown) => Answer::Throws(thrown.name()),
        }
    }

    /// The depth: how deeply the forms are nested.
    fn depth(&self) -> u32
        ensures depth { result ≡ depth self.now }
        ensures made { IsMade self.now }
    {
        u32::from(self.node.levels)
    }

    /// How many nodes there are.
    fn nodes(&self) -> u32
        ensures nodes { result ≡ nodes self.now }
        ensures made { IsMade self.now }
    {
        self.node.forms
    }

    /// The value, or what is thrown instead, which is lent. Of a literal, of an argument and of an operator on such it is taken
    /// from what the expression keeps of its form.
    #[cycle(value)]
    #[inline(always)]
    pub fn value<'a>(&'a self, args: &Args) -> Result<Value, Thrown<'a>>
        ensures { as_answer result ≡ meaning self.now args.now }
    {
        match self.kept {
            Kept::Operand(operand) => Ok(operand.value(self.number, args)),
            // most actions
            Kept::Operation(operator, Operand::First, Operand::Number) => {
                operator.on_values(args.first, Value::Num(self.number))
            }
            Kept::Operation(operator, Operand::First, Operand::Second) => {
                operator.on_values(args.first, args.second)
            }
            Kept::Operation(operator, left, right) => {
                let first = left.value(self.number, args);
                let second = right.value(self.number, args);
                operator.on_values(first, second)
            }
            Kept::Nothing => self.value_by_form(args),
        }
    }

    /// The value of an expression of whose form nothing is kept, or what is thrown instead.
    #[cycle(value)]
    #[inline(never)]
    fn value_by_form<'a>(&'a self, args: &Args) -> Result<Value, Thrown<'a>>
        requires { kept_of self.now ≡ Nothing }
        ensures { as_answer result ≡ meaning self.now args.now }
    {
        match self.form() {
            Form::Literal(_) | Form::Argument(_) => unreachable!(),
            Form::Binary(operator, left, right) => {
                let left = left.value(args)?;
                let right = right.value(args)?;
                operator.on_values(left, right)
            }
            Form::If(condition, first, second) => match condition.value(args)? {
                Value::Null => Err(Thrown::NullPointer),
                Value::Num(0) => second.value(args),
                Value::Num(_) => first.value(args),
            },
            Form::IsNull(operand) => {
                let value = operand.value(args)?;
                Ok(Value::truth(matches!(value, Value::Null)))
            }
            Form::Failed => Ok(Value::truth(args.failure.is_some())),
            Form::IsWrapped => match &args.failure {
                Some(failure) => Ok(Value::truth(failure.wrapped)),
                None => Ok(Value::truth(false)),
            },
            Form::CauseIs(name) => match &args.failure {
                Some(failure) => Ok(Value::truth(failure.name == **name)),
                None => Ok(Value::truth(false)),
            },
            Form::Throw(name) => Err(Thrown::Named(name)),
        }
    }
}

impl Thrown<'_> {
    /// The name of the exception.
    pub fn name(self) -> ExName
        ensures { result ≡ name_of self.entry }
    {
        match self {
            Thrown::NullPointer => ExName::null_pointer(),
            Thrown::Arithmetic => ExName::arithmetic(),
            Thrown::Named(name) => *name,
        }
    }
}

/// A clone shares the tree.
impl Clone for Expr {
    ghost is_clone = { λ e f. f ≡ e };

    fn clone(&self) -> Result<Expr, AllocError> {
        Ok(Expr {
            node: Arc::try_clone(&self.node)?,
            number: self.number,
            kept: self.kept,
        })
    }
}

impl Form {
    /// The test for an exception's name.
    pub fn cause_is(alloc: Global, name: ExName) -> Result<Form, AllocError>
        ensures { IfOk result (λ form. tree form ≡ cause_is name) }
    {
        Ok(Form::CauseIs(Box::new(alloc, name)?))
    }

    /// The throw of an exception.
    pub fn throw(alloc: Global, name: ExName) -> Result<Form, AllocError>
        ensures { IfOk result (λ form. tree form ≡ throw name) }
    {
        Ok(Form::Throw(Box::new(alloc, name)?))
    }

    /// What an expression of this form keeps of it.
    fn kept(&self) -> Kept
        ensures { result ≡ kept_of (tree self.now) }
    {
        match self {
            Form::Literal(Value::Null) => Kept::Operand(Operand::Null),
            Form::Literal(Value::Num(_)) => Kept::Operand(Operand::Number),
            Form::Argument(Position::First) => Kept::Operand(Operand::First),
            Form::Argument(Position::Second) => Kept::Operand(Operand::Second),
            Form::Binary(operator, left, right) => Kept::on(*operator, left.kept, right.kept),
            _ => Kept::Nothing,
        }
    }

    /// The number that a literal is, or that the literal operand of an operator is; 0 where there is none.
    fn number(&self) -> i64
        ensures { result ≡ number_of (tree self.now) }
    {
        match self {
            Form::Literal(Value::Num(number)) => *number,
            Form::Binary(_, left, right) => match left.kept {
                Kept::Operand(Operand::Number) => left.number,
                _ => right.number,
            },
            _ => 0,
        }
    }

    /// The depth of the expression of this form.
    fn depth(&self) -> u32
        ensures { result ≡ depth (tree self.now) }
    {
        match self {
            Form::Binary(_, left, right) => left.depth().max(right.depth()) + 1,
            Form::If(condition, first, second) => {
                condition.depth().max(first.depth().max(second.depth())) + 1
            }
            Form::IsNull(operand) => operand.depth() + 1,
            _ => 1,
        }
    }

    /// The number of nodes of the expression of this form.
    fn nodes(&self) -> u32
        ensures { result ≡ nodes (tree self.now) }
    {
        match self {
            Form::Binary(_, left, right) => left.nodes() + right.nodes() + 1,
            Form::If(condition, first, second) => {
                condition.nodes() + first.nodes() + second.nodes() + 1
            }
            Form::IsNull(operand) => operand.nodes() + 1,
            _ => 1,
        }
    }
}

impl ExprFault {
    /// The number of the refusal.
    pub fn number(self) -> u32
        ensures { result ≡ fault_number self }
    {
        match self {
            ExprFault::TooDeep => 1,
            ExprFault::TooLarge => 2,
        }
    }
}

impl Operator {
    /// What the operator makes of two values.
    #[inline(always)]
    fn on_values<'a>(self, left: Value, right: Value) -> Result<Value, Thrown<'a>>
        ensures { as_answer result ≡ on_values self left right }
    {
        match (left, right) {
            (Value::Num(left), Value::Num(right)) => self.on_numbers(left, right),
            _ => Err(Thrown::NullPointer),
        }
    }

    /// What the operator makes of two numbers.
    fn on_numbers<'a>(self, left: i64, right: i64) -> Result<Value, Thrown<'a>>
        ensures { as_answer result ≡ on_numbers self left right }
    {
        match self {
            Operator::Add => Ok(Value::Num(left.wrapping_add(right))),
            Operator::Sub => Ok(Value::Num(left.wrapping_sub(right))),
            Operator::Mul => Ok(Value::Num(left.wrapping_mul(right))),
            Operator::Div if right == 0 => Err(Thrown::Arithmetic),
            Operator::Div => Ok(Value::Num(left.wrapping_div(right))),
            Operator::Lt => Ok(Value::truth(left < right)),
            Operator::Eq => Ok(Value::truth(left == right)),
        }
    }
}
