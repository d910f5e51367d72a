// The headline: how the calls of tables are judged in every run.
ghost use Rattle.world_model.specs.Headline.{TableCallsAreJudged};

use core_semantics::laws::only_calls_that_are_read_are_asked;

/// In every run of a module that is read, a call of a table is served exactly where no rule fails, with its answer, and
/// else refused by the first rule that fails, with the owner of that moment where the rule reports it. So no call of a
/// table meets another refusal.
pub fn table_calls_are_judged()
    ensures { TableCallsAreJudged }
{
    only_calls_that_are_read_are_asked();
}
