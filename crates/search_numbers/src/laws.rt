// What a step of one world did is taken over for another one.
ghost use Rattle.search_numbers.specs.Local.{StepsAreTakenOver};

/// A step that was planned and done in one world does the same in each world that is the same at the places which the
/// step reads, and from which what it writes is seen: it has the same deed and shows the same, what is kept of these
/// places is what it left there, and what is kept of all other places stays.
pub fn steps_are_taken_over()
    ensures { StepsAreTakenOver }
{}
