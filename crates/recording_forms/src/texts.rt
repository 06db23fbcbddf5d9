//! The recordings that are printed, each a file of `examples/`.

/// That of `examples/new.json`.
pub(crate) const FIRST: &str = r#"{
  "x-about": "A run to begin with: change it, a stage at a time, into one of yours. Nothing reads a member whose name begins with x-.",
  "x-form": "In form 2 a stage says how long it was queued, and how long it ran. A tick is a millisecond here, from the start of the run.",
  "form": 2,
  "stages": [
    {"x-is": "supplyAsync(() -> logIn(), pool): made at the start, it ran 20 ticks, and gave 4211, the customer's number.",
     "name": "session", "op": "supplyAsync", "runs": 20, "action": 4211},
    {"x-is": "session.thenApplyAsync(id -> readCart(id), pool): it waited 5 ticks for a thread, ran 30, and found 3 items.",
     "name": "cart", "op": "thenApplyAsync", "sources": ["session"], "queued": 5, "runs": 30, "action": 3},
    {"x-is": "cart.thenApplyAsync(items -> askPrices(items), pool): 700 for each item, computed from what the cart gives.",
     "name": "prices", "op": "thenApplyAsync", "sources": ["cart"], "runs": 45, "action": ["mul", ["arg", 0], 700]},
    {"x-is": "session.thenApplyAsync(id -> askPoints(id), pool): it threw this exception after 15 ticks.",
     "name": "points-call", "op": "thenApplyAsync", "sources": ["session"], "runs": 15, "action": ["throw", "com.shop.PointsDown"]},
    {"x-is": "pointsCall.handle((points, thrown) -> thrown != null ? 0 : points): it runs however its source ended.",
     "name": "points", "op": "handle", "sources": ["points-call"], "action": ["if", ["failed"], 0, ["arg", 0]]},
    {"x-is": "prices.thenCombine(points, (cents, points) -> cents - points): it waits for both.",
     "name": "total", "op": "thenCombine", "sources": ["prices", "points"], "action": ["sub", ["arg", 0], ["arg", 1]]},
    {"x-is": "supplyAsync(() -> askStock(), pool).orTimeout(100, MILLISECONDS): made at tick 10, and given up at 110.",
     "name": "stock-call", "op": "supplyAsync", "created": 10, "runs": 240, "action": 12,
     "ends": [{"at": 10, "do": "orTimeout", "delay": 100}]},
    {"x-is": "stockCall.exceptionally(thrown -> ..): 1 for a timeout, and for all else an exception of its own.",
     "name": "stock", "op": "exceptionally", "sources": ["stock-call"],
     "action": ["if", ["causeis", "java.util.concurrent.TimeoutException"], 1, ["throw", "com.shop.NoStock"]]},
    {"x-is": "allOf(total, stock): it waits for all of them, and gives null.",
     "name": "all", "op": "allOf", "sources": ["total", "stock"]},
    {"x-is": "all.thenApply(nothing -> pageOf(total.join(), stock.join())): the reply, whose value no stage reads.",
     "name": "reply", "op": "thenApply", "sources": ["all"], "runs": 5, "action": 200}
  ]
}
"#;

/// That of `examples/modelling-timeout-fixed.json`.
pub(crate) const TIMEOUT: &str = r#"{
  "form": 2,
  "stages": [
    {"name": "session", "op": "supplyAsync", "runs": 20, "action": 4211},
    {"name": "stock-call", "op": "supplyAsync", "created": 20, "runs": 240, "action": 12,
     "ends": [{"at": 20, "do": "orTimeout", "delay": 100}]},
    {"name": "stock", "op": "thenCompose", "sources": ["session"], "inner": ["stock-call"], "action": 0},
    {"name": "page", "op": "thenApply", "sources": ["stock"], "runs": 5, "action": 200}
  ]
}
"#;

/// That of `examples/modelling-timeout-moving.json`.
pub(crate) const TIMER: &str = r#"{
  "form": 2,
  "stages": [
    {"name": "session", "op": "supplyAsync", "runs": 20, "action": 4211},
    {"name": "stock-call", "op": "thenApplyAsync", "sources": ["session"], "runs": 240, "action": 12},
    {"name": "stock-limit", "op": "handle", "sources": ["session"], "runs": 100,
     "action": ["throw", "java.util.concurrent.TimeoutException"]},
    {"name": "stock", "op": "anyOf", "sources": ["stock-call", "stock-limit"]},
    {"name": "page", "op": "thenApply", "sources": ["stock"], "runs": 5, "action": 200}
  ]
}
"#;

/// That of `examples/modelling-retry.json`.
pub(crate) const RETRY: &str = r#"{
  "form": 2,
  "stages": [
    {"name": "attempt-1", "op": "supplyAsync", "runs": 40, "action": ["throw", "com.shop.StockServiceDown"]},

    {"name": "call-2", "op": "handle", "sources": ["attempt-1"], "queued": 30, "runs": 400, "action": 12},
    {"name": "limit-2", "op": "handle", "sources": ["attempt-1"], "runs": 150,
     "action": ["throw", "java.util.concurrent.TimeoutException"]},
    {"name": "attempt-2", "op": "anyOf", "sources": ["call-2", "limit-2"]},
    {"name": "first-two", "op": "exceptionallyCompose", "sources": ["attempt-1"], "inner": ["attempt-2"], "action": 0},

    {"name": "attempt-3", "op": "handle", "sources": ["first-two"], "queued": 60, "runs": 45, "action": 12},
    {"name": "stock", "op": "exceptionallyCompose", "sources": ["first-two"], "inner": ["attempt-3"], "action": 0}
  ]
}
"#;

/// That of `examples/modelling-fallback.json`.
pub(crate) const FALLBACK: &str = r#"{
  "form": 2,
  "stages": [
    {"name": "live-price", "op": "supplyAsync", "runs": 35, "action": ["throw", "com.shop.PriceServiceDown"]},
    {"name": "price", "op": "exceptionally", "sources": ["live-price"], "runs": 4,
     "action": ["if", ["causeis", "com.shop.PriceServiceDown"], 1999, ["throw", "com.shop.NoPrice"]]},
    {"name": "reply", "op": "thenApply", "sources": ["price"], "action": ["add", ["arg", 0], 500]}
  ]
}
"#;

/// That of `examples/modelling-breaker.json`.
pub(crate) const BREAKER: &str = r#"{
  "form": 2,
  "stages": [
    {"name": "cart", "op": "supplyAsync", "runs": 20, "action": 3},
    {"name": "shipping-gate", "op": "thenApply", "sources": ["cart"], "action": ["throw", "com.shop.BreakerOpen"]},
    {"name": "shipping-call", "op": "thenApplyAsync", "sources": ["shipping-gate"], "runs": 180,
     "action": ["mul", ["arg", 0], 250]},
    {"name": "shipping", "op": "exceptionally", "sources": ["shipping-call"], "action": 499},
    {"name": "prices", "op": "thenApplyAsync", "sources": ["cart"], "runs": 60, "action": ["mul", ["arg", 0], 1999]},
    {"name": "total", "op": "thenCombine", "sources": ["prices", "shipping"],
     "action": ["add", ["arg", 0], ["arg", 1]]}
  ]
}
"#;

/// That of `examples/modelling-cache.json`.
pub(crate) const CACHE: &str = r#"{
  "form": 2,
  "stages": [
    {"name": "session", "op": "supplyAsync", "runs": 20, "action": 4211},
    {"name": "found", "op": "thenApplyAsync", "sources": ["session"], "runs": 3, "action": null},
    {"name": "hit", "op": "copy", "sources": ["found"]},
    {"name": "database", "op": "thenApplyAsync", "sources": ["found"], "runs": 90, "action": 17},
    {"name": "customer", "op": "thenCompose", "sources": ["found"], "inner": ["hit", "database"],
     "action": ["isnull", ["arg", 0]]},
    {"name": "basket", "op": "thenApplyAsync", "sources": ["session"], "runs": 40, "action": 3},
    {"name": "page", "op": "thenCombine", "sources": ["customer", "basket"], "runs": 5, "action": 200}
  ]
}
"#;

/// That of `examples/modelling-queue.json`.
pub(crate) const QUEUE: &str = r#"{
  "form": 2,
  "stages": [
    {"name": "price", "op": "supplyAsync", "runs": 20, "action": 1999},
    {"name": "mail", "op": "supplyAsync", "runs": 120, "action": null},
    {"name": "mail-ended", "op": "handle", "sources": ["mail"], "action": null},
    {"name": "tax", "op": "thenCombineAsync", "sources": ["price", "mail-ended"], "runs": 6,
     "action": ["div", ["mul", ["arg", 0], 19], 100]},
    {"name": "points", "op": "thenApplyAsync", "sources": ["price"], "queued": 70, "runs": 4,
     "action": ["div", ["arg", 0], 100]},
    {"name": "total", "op": "thenCombine", "sources": ["tax", "points"],
     "action": ["add", ["arg", 0], ["arg", 1]]}
  ]
}
"#;

/// That of `examples/modelling-race.json`.
pub(crate) const RACE: &str = r#"{
  "form": 2,
  "stages": [
    {"name": "north", "op": "supplyAsync", "runs": 140, "action": 7},
    {"name": "south", "op": "supplyAsync", "runs": 30, "action": ["throw", "com.shop.StockServiceDown"]},
    {"name": "quickest", "op": "anyOf", "sources": ["north", "south"]},
    {"name": "reply", "op": "thenApply", "sources": ["quickest"], "runs": 5, "action": ["arg", 0]}
  ]
}
"#;

/// That of `examples/modelling-batch.json`.
pub(crate) const BATCH: &str = r#"{
  "form": 2,
  "stages": [
    {"name": "part-1", "op": "supplyAsync", "runs": 110, "action": 40},
    {"name": "part-2", "op": "supplyAsync", "runs": 15, "action": ["throw", "com.shop.BadRow"]},
    {"name": "part-3", "op": "supplyAsync", "runs": 180, "action": 25},
    {"name": "all", "op": "allOf", "sources": ["part-1", "part-2", "part-3"]},
    {"name": "sum", "op": "thenApply", "sources": ["all"], "action": 65}
  ]
}
"#;
