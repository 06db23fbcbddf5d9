//! Laws of the definitions by which this crate reads.
ghost use Rattle.recording.specs.Written.{EachIsReadBack};
ghost use Rattle.recording.specs.WrittenStages.{EachRecordingIsReadBack};
ghost use Rattle.recording.specs.WrittenSteps.{EachStepIsReadBack};

/// Each expression of longs and exception names can be read back from its JSON value.
pub fn each_expression_is_read_back()
    ensures { EachIsReadBack }
{}

/// Each recording can be read back from its JSON value.
pub fn each_recording_is_read_back()
    ensures { EachRecordingIsReadBack }
{}

/// Each step can be read back from its JSON value.
pub fn each_step_is_read_back()
    ensures { EachStepIsReadBack }
{}
