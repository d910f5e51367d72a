// What holds of all that random schedules show.
ghost use Rattle.search_samples.specs.Samples.{SamplesAreShown};

/// Each error and each refusal is shown by the schedule beside it.
pub fn samples_are_shown()
    ensures { SamplesAreShown }
{}
