//! What it means that the exception of a stage did not arise.
ghost use Rattle.reply_rescue.specs.Laws.{EachKeepsItsMoment};

/// With `Change::NoFailure` a stage that no end completed has the value, at the very moment at which it completed.
pub fn each_keeps_its_moment()
    ensures { EachKeepsItsMoment }
{}
