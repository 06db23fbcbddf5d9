//! Words of the command line that are values, and what people are told of those that are none.
use crate::fault::Fault;
use act_expr::Value;
use change_words::{Wrong, value_of};
use diagnosis::Quoted;
use std::alloc::{AllocError, Global};

/// What is wrong with a word that is no value.
fn why_no_value(
    alloc: Global,
    option: &str,
    word: &str,
    wrong: Wrong,
) -> Result<String, AllocError> {
    let quoted = Quoted(word);
    match wrong {
        Wrong::TooLarge => {
            format!(in alloc;
                "{option} {quoted} is a number of more than 64 bits; a whole number is wanted, or null"
            )
        }
        _ => format!(in alloc; "{option} {quoted} is no value; a whole number is wanted, or null"),
    }
}

/// The value that the word of an option is: a whole number or null, and null where the option is left out.
pub fn value_in(alloc: Global, option: &str, word: Option<&str>) -> Result<Value, Fault> {
    let Some(word) = word else {
        return Ok(Value::Null);
    };
    match value_of(word) {
        Ok(value) => Ok(value),
        Err(wrong) => Err(Fault::Word(why_no_value(alloc, option, word, wrong)?)),
    }
}
