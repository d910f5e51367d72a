// Worked rows of the report as terms.
ghost use Rattle.report_terms.specs.EventRows.{AliasIsTold, KillIsTold, MessageIsTold, RefusalIsTold, TimeoutIsTold, TimerIsTold};
ghost use Rattle.report_terms.specs.FirstTerms.{NodesAreTold, PromptStatesAreTold, SamplesAreTold, StatesAreTold, StatesStop, StatesTakeMemory, TreeStops, TreeTakesMemory};
ghost use Rattle.report_terms.specs.LastTerms.{CleanOfAll, CleanToDepth, ErrorsAreFound, ErrorsOfAll, ErrorsToDepth, NothingIsCounted, NothingIsFound, RunawayIsCounted, StopIsIncomplete};
ghost use Rattle.report_terms.specs.StringRows.{AtomIsQuoted, BothAreEscaped, NoStepIsEmpty, OthersArePlain, StepsHaveBlanks, TermsHaveCommas};

/// Texts, terms and schedules as strings are what was worked out by hand.
pub fn strings_are_so()
    ensures both { BothAreEscaped }
    ensures others { OthersArePlain }
    ensures atom { AtomIsQuoted }
    ensures terms { TermsHaveCommas }
    ensures steps { StepsHaveBlanks }
    ensures no_step { NoStepIsEmpty }
{}

/// Lines of events are what was worked out by hand.
pub fn event_lines_are_so()
    ensures message { MessageIsTold }
    ensures timeout { TimeoutIsTold }
    ensures refusal { RefusalIsTold }
    ensures kill { KillIsTold }
    ensures alias { AliasIsTold }
    ensures timer { TimerIsTold }
{}

/// First lines, of the tree, of states and of random schedules, are what was worked out by hand.
pub fn first_terms_are_so()
    ensures nodes { NodesAreTold }
    ensures states { StatesAreTold }
    ensures prompt { PromptStatesAreTold }
    ensures tree_stops { TreeStops }
    ensures tree_memory { TreeTakesMemory }
    ensures states_stop { StatesStop }
    ensures states_memory { StatesTakeMemory }
    ensures samples { SamplesAreTold }
{}

/// Lines of sums and last lines are what was worked out by hand.
pub fn last_terms_are_so()
    ensures nothing { NothingIsCounted }
    ensures runaway { RunawayIsCounted }
    ensures clean { CleanOfAll }
    ensures errors { ErrorsOfAll }
    ensures clean_to_depth { CleanToDepth }
    ensures errors_to_depth { ErrorsToDepth }
    ensures incomplete { StopIsIncomplete }
    ensures nothing_found { NothingIsFound }
    ensures errors_found { ErrorsAreFound }
{}
