//! What is found beside each other.
ghost use Rattle.std.specs.Prelude.{◌≡◌, All, IfOk};
ghost use Rattle.std.specs.List.{range_with_len};
ghost use Rattle.level_pool.specs.Runs.{IsPlainMap};

use level_pool::{NoGate, Runner, Scoped, Workers};
use std::alloc::{AllocError, Global};
use std::thread::Threads;

/// The numbers below one.
fn numbers_below(alloc: Global, count: u32) -> Result<Vec<u32>, AllocError>
    ensures { IfOk result (λ numbers. numbers.items ≡ range_with_len 0 count) }
{
    let mut numbers = Vec::with_capacity(alloc, count as usize)?;
    for number in 0..count {
        numbers.push(number)?;
    }
    Ok(numbers)
}

/// What is found at each number below a count, in order: so many workers find it beside each other.
pub fn found_beside<H: Threads + Sync, T: Send + Drop, F: Fn(u32) -> T + Sync>(
    alloc: Global,
    threads: &H,
    workers: Workers,
    count: u32,
    f: &F,
) -> Result<Vec<T>, AllocError>
    requires { All (λ number. F.pre f.now number) (range_with_len 0 count) }
    ensures { IfOk result (λ found. IsPlainMap (λ number one. F.post f.now number one) (range_with_len 0 count) found.items) }
{
    let numbers = numbers_below(alloc, count)?;
    let runner = Scoped::new(threads, workers.count(), NoGate);
    match runner.run(alloc, numbers.as_slice(), f) {
        Ok(found) => Ok(found),
        Err(_) => Err(AllocError),
    }
}
