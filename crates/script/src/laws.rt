ghost use Rattle.script.specs.Laws.{EachTextHasOneOutcome, CleanTextsAreTheirOwn, ScriptsReadAgain, EventsStandAtTheirLines};

/// A text is clean or has exactly one first refusal.
pub fn each_text_has_one_outcome()
    ensures { EachTextHasOneOutcome }
{}

/// A clean text is the one text of the script that it says.
pub fn clean_texts_are_their_own()
    ensures { CleanTextsAreTheirOwn }
{}

/// The text of a script is clean and says that script.
pub fn scripts_read_again()
    ensures { ScriptsReadAgain }
{}

/// An event stands at its line.
pub fn events_stand_at_their_lines()
    ensures { EventsStandAtTheirLines }
{}
