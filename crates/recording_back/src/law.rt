//! What holds of the definition by which recordings are written.
ghost use Rattle.recording_back.specs.Accepted.{EachGraphIsAccepted, EachStaysRanked};
ghost use Rattle.recording_back.specs.Packed.{EachGraphIsLoaded, EachGraphIsReadBack, EachObjectHasItsTokens};
ghost use Rattle.recording_back.specs.ReadBack.{EachIsReadBack, EachPlainTextHasNoLabels, EachTextHasItsTokens};

/// The text of each recording has the tokens of its JSON, whatever its lines.
pub fn each_text_has_its_tokens()
    ensures { EachTextHasItsTokens }
{}

/// Each recording is what is read from its text, whatever labels it bears, unless the text is too long.
pub fn each_text_is_read_back()
    ensures { EachIsReadBack }
{}

/// The text of a recording that bears no labels is the case of none.
pub fn each_plain_text_has_no_labels()
    ensures { EachPlainTextHasNoLabels }
{}

/// The named stages of each sound graph are loaded as that graph, without its empty places.
pub fn each_graph_is_loaded()
    ensures { EachGraphIsLoaded }
{}

/// Each sound graph, without its empty places, is what is read from the text of a recording of it, whatever labels that bears,
/// unless the text is too long.
pub fn each_graph_is_read_back()
    ensures { EachGraphIsReadBack }
{}

/// A sound graph without a cycle has none without its empty places either.
pub fn each_ranked_graph_stays_ranked()
    ensures { EachStaysRanked }
{}

/// The text of a recording of each sound graph without a cycle is accepted as that graph, without its empty places, unless
/// the text is too long: `read_recording` can't refuse it.
pub fn each_graph_is_accepted()
    ensures { EachGraphIsAccepted }
{}

/// Each answer that has a sound graph as a recording has the tokens of its JSON.
pub fn each_object_has_its_tokens()
    ensures { EachObjectHasItsTokens }
{}
