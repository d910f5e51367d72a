// Laws of reports.
ghost use Rattle.report_text.specs.Clean.{LastLinesSayIt};
ghost use Rattle.report_text.specs.FirstLines.{CutStatesAreCounted, NodesAreCounted, PromptStatesAreCounted, PromptStopIsTold, PromptStopIsToldAlike, StateLimitIsTold, StatesAreCounted, StatesTakeMemory, StopIsToldAlike};
ghost use Rattle.report_text.specs.LastLines.{CutIsToDepth, ErrorsAreOfAll, ErrorsAreOfPrompt, StatesAreOfAll, StatesAreOfPrompt, TreeIsOfAll};
ghost use Rattle.report_text.specs.NoExcuses.{NoExcusesTellNothing};
ghost use Rattle.report_text.specs.SampleLines.{ErrorsAreTold, ExcusedIsListed, ExcusedIsNothing, NothingIsTold, SamplesAreCounted, UnreadIsListed};

/// Whatever is excused, the last line of an explained report is `result: clean, all schedules` exactly where signals were
/// delivered at any time, all nodes or states were visited, none shows an error that counts, and the depth cuts off
/// nothing; and it is `result: clean, all prompt schedules` exactly where they were delivered at once, and all the rest
/// is so.
pub fn last_lines_say_it()
    ensures { LastLinesSayIt }
{}

/// Where nothing is excused, a report lists all errors and then the refusals, and says how many there are of both.
pub fn no_excuses_tell_nothing()
    ensures { NoExcusesTellNothing }
{}

/// First lines of reports, of nodes and of states, are what was worked out by hand.
pub fn first_lines_are_so()
    ensures nodes { NodesAreCounted }
    ensures states { StatesAreCounted }
    ensures limit { StateLimitIsTold }
    ensures memory { StatesTakeMemory }
    ensures cut { CutStatesAreCounted }
    ensures stop { StopIsToldAlike }
    ensures prompt { PromptStatesAreCounted }
    ensures prompt_stop { PromptStopIsTold }
    ensures prompt_alike { PromptStopIsToldAlike }
{}

/// Last lines of explained reports, of all schedules and of prompt ones, are what was worked out by hand.
pub fn last_lines_are_so()
    ensures tree { TreeIsOfAll }
    ensures states { StatesAreOfAll }
    ensures errors { ErrorsAreOfAll }
    ensures prompt { StatesAreOfPrompt }
    ensures prompt_errors { ErrorsAreOfPrompt }
    ensures cut { CutIsToDepth }
{}

/// The first and the last line of reports of random schedules, and a whole report, are what was worked out by hand.
pub fn sample_lines_are_so()
    ensures first { SamplesAreCounted }
    ensures nothing { NothingIsTold }
    ensures errors { ErrorsAreTold }
    ensures excused { ExcusedIsNothing }
    ensures report { ExcusedIsListed }
    ensures unread { UnreadIsListed }
{}
