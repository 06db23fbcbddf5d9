//! Expressions, names and outcomes.
use act_expr::{Answer, Args, ExName, Expr, ExprFault, Failure, Form, Operator, Outcome, Value};
use std::alloc::{AllocError, Global};
use std::process::Abort;
use std::test::Fail;

fn number(alloc: Global, n: i64) -> Result<Expr, AllocError> {
    Expr::new(alloc, Form::Literal(Value::Num(n)))
}

fn binary(
    alloc: Global,
    operator: Operator,
    left: Value,
    right: Value,
) -> Result<Expr, AllocError> {
    let left = Expr::new(alloc, Form::Literal(left))?;
    let right = Expr::new(alloc, Form::Literal(right))?;
    Expr::new(alloc, Form::Binary(operator, left, right))
}

/// What an expression gives to no value and this failure.
fn answer(expr: &Expr, failure: Option<Failure>) -> Answer {
    let args = Args {
        first: Value::Null,
        second: Value::Null,
        failure,
    };
    expr.eval(&args)
}

/// Whether an expression gives a number to this failure.
fn gives(expr: &Expr, failure: Option<Failure>, wanted: i64) -> bool {
    match answer(expr, failure) {
        Answer::Gives(Value::Num(number)) => number == wanted,
        _ => false,
    }
}

/// Whether an expression throws an exception of a name.
fn throws(expr: &Expr, wanted: &str) -> bool {
    match answer(expr, None) {
        Answer::Throws(name) => name.text() == wanted,
        _ => false,
    }
}

/// What operators give to two numbers, by the Java Language Specification, 15.17.2 and 15.18.2: the first two rows are of the
/// quotient, the others of what wraps.
const ARITHMETIC: [(Operator, i64, i64, i64); 5] = [
    (Operator::Div, i64::MIN, -1, i64::MIN),
    (Operator::Div, -7, 2, -3),
    (Operator::Add, i64::MAX, 1, i64::MIN),
    (Operator::Sub, i64::MIN, 1, i64::MAX),
    (Operator::Mul, i64::MIN, -1, i64::MIN),
];

fn arithmetic_wraps(rt: &impl Abort, alloc: Global) -> Result<(), AllocError> {
    for (operator, left, right, wanted) in ARITHMETIC {
        let expr = binary(alloc, operator, Value::Num(left), Value::Num(right))?;
        assert!(rt; gives(&expr, None, wanted));
    }
    Ok(())
}

/// The quotient by zero, by the same pages.
fn same_pin_and_arithmetic(rt: &impl Abort, alloc: Global) -> Result<(), AllocError> {
    let expr = binary(alloc, Operator::Div, Value::Num(1), Value::Num(0))?;
    assert!(rt; throws(&expr, "java.lang.ArithmeticException"));
    Ok(())
}

/// The null check comes before the check of the divisor.
fn a_null_operand_throws(rt: &impl Abort, alloc: Global) -> Result<(), AllocError> {
    let expr = binary(alloc, Operator::Div, Value::Null, Value::Num(0))?;
    assert!(rt; throws(&expr, "java.lang.NullPointerException"));
    Ok(())
}

/// An action of `handle`: 9 without an exception, and else whether it is wrapped
/// and whether it is of the name.
fn handle(alloc: Global, name: ExName) -> Result<Expr, AllocError> {
    let wrapped = Expr::new(alloc, Form::IsWrapped)?;
    let cause = Expr::new(alloc, Form::cause_is(alloc, name)?)?;
    let both = Expr::new(alloc, Form::Binary(Operator::Add, wrapped, cause))?;
    let failed = Expr::new(alloc, Form::Failed)?;
    let nine = number(alloc, 9)?;
    Expr::new(alloc, Form::If(failed, both, nine))
}

fn copy_and_handle(rt: &impl Abort, alloc: Global) -> Result<(), AllocError> {
    let name = ExName::new("X").expect(rt, "a name");
    let action = handle(alloc, name)?;
    assert!(rt; gives(&action, None, 9));
    for (wrapped, wanted) in [(false, 1), (true, 2)] {
        assert!(rt; gives(&action, Some(Failure { wrapped, name }), wanted));
    }
    Ok(())
}

/// Whether a text is a name of exceptions.
fn is_name(text: &str) -> bool {
    ExName::new(text).is_some()
}

fn exception_names(rt: &impl Abort) {
    let name = ExName::new("java.lang.Error$1_").expect(rt, "a name");
    assert!(rt; name.text() == "java.lang.Error$1_");
    let too_long = str::from_utf8(&[b'x'; 129]).expect(rt, "a text");
    assert!(rt; is_name(&too_long[..128]));
    let wrapper = "java.util.concurrent.CompletionException";
    for text in ["", "a b", "a-b", wrapper, too_long] {
        assert!(rt; !is_name(text));
    }
}

/// An expression of this many levels.
fn nested(alloc: Global, levels: u32) -> Result<Expr, AllocError> {
    let mut expr = number(alloc, 1)?;
    for _ in 1..levels {
        expr = Expr::new(alloc, Form::IsNull(expr))?;
    }
    Ok(expr)
}

/// An expression that is added to itself repeatedly.
fn doubled(alloc: Global, times: u32) -> Result<Expr, AllocError> {
    let mut expr = number(alloc, 1)?;
    for _ in 0..times {
        expr = Expr::new(alloc, Form::Binary(Operator::Add, expr.clone()?, expr))?;
    }
    Ok(expr)
}

fn a_depth_of_32_is_accepted(rt: &impl Abort, alloc: Global) -> Result<(), AllocError> {
    let expr = nested(alloc, 32)?;
    let deeper = nested(alloc, 33)?;
    assert!(rt; expr.check() == Ok(()));
    assert!(rt; deeper.check() == Err(ExprFault::TooDeep));
    assert!(rt; expr.same(&expr) && !expr.same(&deeper));
    Ok(())
}

fn a_size_of_256_is_accepted(rt: &impl Abort, alloc: Global) -> Result<(), AllocError> {
    let largest = Expr::new(alloc, Form::IsNull(doubled(alloc, 7)?))?;
    assert!(rt; largest.check() == Ok(()));
    let larger = Expr::new(alloc, Form::IsNull(largest))?;
    assert!(rt; larger.check() == Err(ExprFault::TooLarge));
    Ok(())
}

/// With 60 doublings, or 31, an expression would have more nodes than can be walked.
fn shared_parts_count_as_often_as_they_stand(
    rt: &impl Abort,
    alloc: Global,
) -> Result<(), AllocError> {
    for times in [60, 31, 26] {
        assert!(rt; doubled(alloc, times).is_err());
    }
    let largest = doubled(alloc, 25)?;
    assert!(rt; largest.check() == Err(ExprFault::TooLarge));
    let some = doubled(alloc, 16)?;
    assert!(rt; some.same(&doubled(alloc, 16)?) && !some.same(&largest));
    Ok(())
}

/// An expression of a million levels could not be walked or dropped.
fn a_million_levels_are_refused(rt: &impl Abort, alloc: Global) -> Result<(), AllocError> {
    for levels in [1_000_000, 1025] {
        assert!(rt; nested(alloc, levels).is_err());
    }
    let deepest = nested(alloc, 1024)?;
    assert!(rt; deepest.check() == Err(ExprFault::TooDeep));
    assert!(rt; deepest.same(&deepest.clone()?));
    Ok(())
}

fn is_printed(alloc: Global, outcome: Outcome, printed: &str) -> Result<bool, AllocError> {
    let text = format!(in alloc; "{outcome}")?;
    Ok(text.as_str() == printed)
}

fn outcomes_are_printed(rt: &impl Abort, alloc: Global) -> Result<(), AllocError> {
    let bare = Outcome::Bare(ExName::new("X").expect(rt, "a name"));
    assert!(rt; is_printed(alloc, Outcome::Value(Value::Null), "value:null")?);
    assert!(rt; is_printed(alloc, Outcome::Value(Value::Num(-7)), "value:-7")?);
    assert!(rt; is_printed(alloc, bare, "bare:X")?);
    assert!(rt; is_printed(alloc, bare.wrap(), "wrapped:X")?);
    Ok(())
}

#[test]
fn expressions(rt: HostRuntime) -> Result<(), Fail> {
    let alloc = rt.alloc();
    same_pin_and_arithmetic(&rt, alloc)?;
    arithmetic_wraps(&rt, alloc)?;
    a_null_operand_throws(&rt, alloc)?;
    copy_and_handle(&rt, alloc)?;
    exception_names(&rt);
    a_depth_of_32_is_accepted(&rt, alloc)?;
    a_size_of_256_is_accepted(&rt, alloc)?;
    shared_parts_count_as_often_as_they_stand(&rt, alloc)?;
    a_million_levels_are_refused(&rt, alloc)?;
    outcomes_are_printed(&rt, alloc)?;
    Ok(())
}
