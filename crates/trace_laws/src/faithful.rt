//! Laws of the definitions by which traces become recordings.
ghost use Rattle.trace_laws.specs.Circles.{EachSourceIsAStage, NoTraceHasACircle};
ghost use Rattle.trace_laws.specs.Faithful.{EachTraceIsFaithful};
ghost use Rattle.trace_laws.specs.Present.{EachSpanHasItsStages};

/// Each span of a trace has a stage that ends when it did, and one that starts when it did where it has two.
pub fn each_span_has_its_stages()
    ensures { EachSpanHasItsStages }
{}

/// What a stage of a trace waits for is a stage, where there are no more than 65,536.
pub fn each_source_is_a_stage()
    ensures { EachSourceIsAStage }
{}

/// The stages of a trace wait for each other in no circle.
pub fn no_trace_has_a_circle()
    ensures { NoTraceHasACircle }
{}

/// Evaluation is faithful to a trace, by the times of its spans once clocks are moved and late ends are cut. NAME.start
/// completes when the span started, with null. NAME is pending if the span is open; else it completes when the span ended,
/// and fails exactly if the span did, with the exception that the span tells, if it tells one. NAME.limit completes as NAME
/// does, and NAME.tried as the last attempt did; own work completes with null at the tick at which what comes after it
/// started. NAME.answer completes no earlier than the span ended, or never; a join completes, but one of a span that was
/// given up may be pending. When a join completes, and with what an answer or a join does, the law leaves open.
pub fn each_trace_is_faithful()
    ensures { EachTraceIsFaithful }
{}
