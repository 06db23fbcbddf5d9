//! Recordings that several tests edit.

/// Two stages, of which the second adds 1 to what the first gives.
pub const FIRST_RUN: &str = r#"{"stages":[{"name":"a","op":"async","takes":10,"action":4},
    {"name":"b","op":"thenApply","sources":["a"],"takes":5,"action":["add",["arg",0],1]}]}"#;

/// One stage after the other.
pub const CHAIN: &str = r#"{"stages":[{"name":"z","op":"completed","value":1},
    {"name":"a","op":"thenApply","sources":["z"],"takes":1,"action":["add",["arg",0],1]},
    {"name":"b","op":"thenApply","sources":["a"],"takes":1,"action":["mul",["arg",0],10]}]}"#;

/// A stage that picks one of two inner stages.
pub const COMPOSE_PICKS: &str = r#"{"stages":[{"name":"s","op":"async","takes":2,"action":0},
    {"name":"i0","op":"async","takes":10,"action":7},
    {"name":"i1","op":"async","takes":1,"action":["throw","Z"]},
    {"name":"c","op":"thenCompose","sources":["s"],"inner":["i0","i1"],"takes":3,"action":["arg",0]}]}"#;

/// `a` is near its source, `l2` two stages away; `q` waits for both, `b` for `a`.
pub const REWIRED: &str = r#"{"stages":[{"name":"z","op":"completed","value":1},
    {"name":"l1","op":"thenApply","sources":["z"],"takes":1,"action":["arg",0]},
    {"name":"l2","op":"thenApply","sources":["l1"],"takes":1,"action":["arg",0]},
    {"name":"a","op":"thenApply","sources":["z"],"action":["arg",0]},
    {"name":"q","op":"thenCombine","sources":["a","l2"],"action":["arg",0]},
    {"name":"b","op":"thenApply","sources":["a"],"action":["arg",0]}]}"#;

/// `a` goes behind `l2`.
pub const REWIRE_A: &str = r#"{"do":"rewire","session":1,"stage":"a","sources":["l2"],"inner":[]}"#;
