//! Recordings, as text: the shapes that recorded runs have.

use crate::joins::{push_hubbed, push_joined, push_windowed};
use crate::names::push_name;
use crate::random::Random;
use std::alloc::{AllocError, Global};
use std::fmt::Write;

/// How the stages of a recording wait for each other.
#[derive(Clone, Copy, PartialEq, Eq)]
pub(crate) enum Shape {
    /// Each stage waits for the one before.
    Chain,
    /// Layers of 64: each stage waits for two of the layer before.
    Layers,
    /// Many trees of seven stages: a root, two children, four leaves.
    Trees,
    /// Every operation, over the last few stages, with timeouts, retries and failures.
    Mixed,
    /// One source, so many hubs that wait for it, and joins of all hubs.
    Hubs(u32),
    /// Each stage waits for so many before it, or for all where there are fewer.
    Window(u32),
    /// Roots, hubs that wait for one of them, and joins of 2 to 200 of the stages before.
    Joins,
}

/// A recording that is written.
#[derive(Clone, Copy)]
pub(crate) struct Plan {
    pub shape: Shape,
    pub stages: u32,
    /// What its names and numbers follow from.
    pub seed: u32,
}

/// The width of a layer.
const LAYER: u32 = 64;

/// Exceptions that services throw.
const EXCEPTIONS: [&str; 4] = [
    "java.util.concurrent.TimeoutException",
    "com.shop.stock.StockServiceDown",
    "java.net.SocketTimeoutException",
    "com.shop.CacheMiss",
];

/// Adds a list of names of stages, as a member.
pub(crate) fn push_stages(
    text: &mut String,
    seed: u32,
    member: &str,
    numbers: &[u32],
) -> Result<(), AllocError> {
    write!(text, ",\"{member}\":[")?;
    let mut between = "\"";
    for number in numbers {
        text.push_str(between)?;
        push_name(text, seed, *number)?;
        between = "\",\"";
    }
    if !numbers.is_empty() {
        text.push_str("\"")?;
    }
    text.push_str("]")
}

/// Adds the beginning of a stage: its name and operation.
pub(crate) fn push_head(
    text: &mut String,
    seed: u32,
    number: u32,
    operation: &str,
) -> Result<(), AllocError> {
    if number > 0 {
        text.push_str(",\n")?;
    }
    text.push_str("{\"name\":\"")?;
    push_name(text, seed, number)?;
    write!(text, "\",\"op\":\"{operation}\"")
}

/// Adds a stage that waits for nothing.
pub(crate) fn push_root(
    text: &mut String,
    seed: u32,
    number: u32,
    runs: u32,
) -> Result<(), AllocError> {
    push_head(text, seed, number, "supplyAsync")?;
    write!(text, ",\"queued\":1,\"runs\":{runs},\"action\":4}}")
}

/// Adds a stage that waits for another one.
pub(crate) fn push_applied(
    text: &mut String,
    seed: u32,
    number: u32,
    source: u32,
    runs: u32,
) -> Result<(), AllocError> {
    push_head(text, seed, number, "thenApply")?;
    push_stages(text, seed, "sources", &[source])?;
    write!(
        text,
        ",\"runs\":{runs},\"action\":[\"add\",[\"arg\",0],1]}}"
    )
}

/// Adds a stage that waits for two others.
pub(crate) fn push_combined(
    text: &mut String,
    seed: u32,
    number: u32,
    sources: &[u32],
    runs: u32,
) -> Result<(), AllocError> {
    push_head(text, seed, number, "thenCombine")?;
    push_stages(text, seed, "sources", sources)?;
    write!(
        text,
        ",\"runs\":{runs},\"action\":[\"add\",[\"arg\",0],[\"arg\",1]]}}"
    )
}

/// Adds the stage of a number in layers.
fn push_layered(
    text: &mut String,
    plan: &Plan,
    random: &mut Random,
    number: u32,
) -> Result<(), AllocError> {
    let runs = 1 + random.below(9);
    let column = number % LAYER;
    if number == 0 {
        return push_root(text, plan.seed, number, runs);
    }
    if number < LAYER {
        return push_applied(text, plan.seed, number, 0, runs);
    }
    let before = number.saturating_sub(column).saturating_sub(LAYER);
    let other = (column * 7 + 1) % LAYER;
    let sources = [before.saturating_add(column), before.saturating_add(other)];
    push_combined(text, plan.seed, number, &sources, runs)
}

/// Adds the stage of a number in trees.
fn push_in_tree(
    text: &mut String,
    plan: &Plan,
    random: &mut Random,
    number: u32,
) -> Result<(), AllocError> {
    let runs = 1 + random.below(9);
    let at = number % 7;
    if at == 0 {
        return push_root(text, plan.seed, number, runs);
    }
    let top = number.saturating_sub(at);
    push_applied(
        text,
        plan.seed,
        number,
        top.saturating_add((at - 1) / 2),
        runs,
    )
}

/// A stage that is one of the last forty before a number.
fn near(random: &mut Random, number: u32) -> u32 {
    let back = 1 + random.below(number.min(40));
    number.saturating_sub(back)
}

/// The operations of one source.
const OF_ONE: [&str; 8] = [
    "thenApply",
    "thenApplyAsync",
    "thenAccept",
    "thenRun",
    "copy",
    "handle",
    "whenComplete",
    "exceptionally",
];

/// The operations of two sources.
const OF_TWO: [&str; 8] = [
    "thenCombine",
    "thenCombineAsync",
    "thenAcceptBoth",
    "runAfterBoth",
    "applyToEither",
    "acceptEither",
    "runAfterEither",
    "applyToEitherAsync",
];

/// The word at a place of a table.
fn word<'a>(words: &[&'a str; 8], place: u32) -> &'a str {
    words[(place % 8) as usize]
}

/// The exception at a place of the table.
fn exception(place: u32) -> &'static str {
    EXCEPTIONS[(place % 4) as usize]
}

/// Adds what an action computes.
fn push_action(text: &mut String, random: &mut Random) -> Result<(), AllocError> {
    match random.below(8) {
        0 => write!(
            text,
            ",\"action\":[\"if\",[\"failed\"],{},[\"arg\",0]]",
            random.below(5000)
        ),
        1 => {
            let name = exception(random.below(4));
            write!(
                text,
                ",\"action\":[\"if\",[\"causeis\",\"{name}\"],0,[\"arg\",0]]"
            )
        }
        2 => text.push_str(
            ",\"action\":[\"sub\",[\"mul\",[\"arg\",0],[\"arg\",0]],[\"if\",[\"lt\",[\"arg\",0],100],500,0]]",
        ),
        3 => write!(text, ",\"action\":{}", random.below(100_000)),
        _ => write!(
            text,
            ",\"action\":[\"if\",[\"isnull\",[\"arg\",0]],{},[\"sub\",[\"arg\",0],1]]",
            random.below(3)
        ),
    }
}

/// Adds how long a stage is queued and runs.
fn push_times(text: &mut String, random: &mut Random) -> Result<(), AllocError> {
    let queued = random.below(4);
    let runs = random.below(60);
    write!(text, ",\"queued\":{queued},\"runs\":{runs}")
}

/// Adds a call of another service, which may fail or time out.
fn push_call(
    text: &mut String,
    plan: &Plan,
    random: &mut Random,
    number: u32,
) -> Result<(), AllocError> {
    push_head(text, plan.seed, number, "supplyAsync")?;
    let created = random.below(1000);
    write!(text, ",\"created\":{created}")?;
    push_times(text, random)?;
    match random.below(4) {
        0 => write!(
            text,
            ",\"action\":[\"throw\",\"{}\"]",
            exception(random.below(4))
        )?,
        _ => write!(text, ",\"action\":{}", random.below(10_000))?,
    }
    if random.below(3) == 0 {
        let delay = random.below(80);
        write!(
            text,
            ",\"ends\":[{{\"at\":{created},\"do\":\"orTimeout\",\"delay\":{delay}}}]"
        )?;
    }
    text.push_str("}")
}

/// Adds a stage that waits for others in some way.
fn push_waiting(
    text: &mut String,
    plan: &Plan,
    random: &mut Random,
    number: u32,
) -> Result<(), AllocError> {
    let around = [
        near(random, number),
        near(random, number),
        near(random, number),
        near(random, number),
    ];
    let [first, second, third, fourth] = around;
    match random.below(9) {
        0..4 => {
            let operation = word(&OF_ONE, random.below(8));
            push_head(text, plan.seed, number, operation)?;
            push_stages(text, plan.seed, "sources", &[first])?;
            if operation == "copy" {
                return text.push_str("}");
            }
        }
        4..7 => {
            push_head(text, plan.seed, number, word(&OF_TWO, random.below(8)))?;
            push_stages(text, plan.seed, "sources", &[first, second])?;
        }
        7 => {
            let operation = if random.below(2) == 0 {
                "allOf"
            } else {
                "anyOf"
            };
            push_head(text, plan.seed, number, operation)?;
            push_stages(text, plan.seed, "sources", &[first, second, third, fourth])?;
            return text.push_str("}");
        }
        _ => {
            let operation = if random.below(2) == 0 {
                "thenCompose"
            } else {
                "exceptionallyCompose"
            };
            push_head(text, plan.seed, number, operation)?;
            push_stages(text, plan.seed, "sources", &[first])?;
            push_stages(text, plan.seed, "inner", &[second, third])?;
        }
    }
    push_times(text, random)?;
    push_action(text, random)?;
    text.push_str("}")
}

/// Adds the stage of a number in a recording of every operation.
fn push_mixed(
    text: &mut String,
    plan: &Plan,
    random: &mut Random,
    number: u32,
) -> Result<(), AllocError> {
    if number < 4 || random.below(10) == 0 {
        push_call(text, plan, random, number)
    } else {
        push_waiting(text, plan, random, number)
    }
}

/// Adds the stage of a number.
fn push_stage(
    text: &mut String,
    plan: &Plan,
    random: &mut Random,
    number: u32,
) -> Result<(), AllocError> {
    match plan.shape {
        Shape::Chain => {
            let runs = 1 + random.below(9);
            match number.checked_sub(1) {
                Some(before) => push_applied(text, plan.seed, number, before, runs),
                None => push_root(text, plan.seed, number, runs),
            }
        }
        Shape::Layers => push_layered(text, plan, random, number),
        Shape::Trees => push_in_tree(text, plan, random, number),
        Shape::Mixed => push_mixed(text, plan, random, number),
        Shape::Hubs(hubs) => push_hubbed(text, plan, hubs, number),
        Shape::Window(width) => push_windowed(text, plan, width, number),
        Shape::Joins => push_joined(text, plan, random, number),
    }
}

/// The recording of a plan.
pub(crate) fn recording(alloc: Global, plan: &Plan) -> Result<String, AllocError> {
    let mut random = Random::new(plan.seed);
    let mut text = String::from_str(alloc, "{\"form\":2,\"stages\":[\n")?;
    for number in 0..plan.stages {
        push_stage(&mut text, plan, &mut random, number)?;
    }
    text.push_str("\n]}\n")?;
    Ok(text)
}
