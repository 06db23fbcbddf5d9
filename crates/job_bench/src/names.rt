//! Names of stages, as services have them.

use crate::random::mixed;
use std::alloc::{AllocError, Global};
use std::fmt::Write;

/// What names begin with.
const SUBJECTS: [&str; 16] = [
    "customer",
    "basket",
    "stock",
    "price",
    "discount",
    "delivery",
    "invoice",
    "payment",
    "session",
    "catalogue",
    "recommendation",
    "address",
    "shipment",
    "voucher",
    "warehouse",
    "notification",
];

/// What they go on with.
const WORKS: [&str; 16] = [
    "-cache",
    "-database",
    "-lookup",
    "-service-call",
    "-retry",
    "-fallback",
    "-timeout-guard",
    "-parsed",
    "-validated",
    "-merged",
    "-north",
    "-south",
    "-from-replica",
    "-rendered",
    "-audit",
    "",
];

/// The word at a place of a table, the first one for places behind its end.
fn word<'a>(words: &[&'a str; 16], place: u64) -> &'a str {
    words[(place % 16) as usize]
}

/// Adds the name of the stage of a number: 8 to 40 letters, which no other stage has.
pub(crate) fn push_name(text: &mut String, seed: u32, number: u32) -> Result<(), AllocError> {
    let hash = mixed(u64::from(seed).wrapping_add(u64::from(number).wrapping_mul(0x1_0000_0001)));
    text.push_str(word(&SUBJECTS, hash))?;
    text.push_str(word(&WORKS, hash >> 8))?;
    text.push_str("-")?;
    push_number(text, u64::from(number))
}

/// Adds a number.
pub(crate) fn push_number(text: &mut String, number: u64) -> Result<(), AllocError> {
    write!(text, "{number}")
}

/// The name of the stage of a number.
pub(crate) fn name(alloc: Global, seed: u32, number: u32) -> Result<String, AllocError> {
    let mut text = String::new(alloc);
    push_name(&mut text, seed, number)?;
    Ok(text)
}
