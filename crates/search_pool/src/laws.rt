// The laws of the pool.
ghost use Rattle.search_pool.specs.Explorations.{OneHasTheSameNodes, OneShowsTheSame};
ghost use Rattle.search_pool.specs.Sums.{LegalAddsUp, LegalSumsUp};

/// Wherever a legal list leads, what is done, open and out adds up to the job at its beginning.
pub fn legal_lists_add_up()
    ensures nodes { LegalAddsUp }
    ensures sums { LegalSumsUp }
{}

/// Where the parts of a module are in its text changes nothing of its tree, nor of what is found in it.
pub fn places_do_not_matter()
    ensures nodes { OneHasTheSameNodes }
    ensures findings { OneShowsTheSame }
{}
