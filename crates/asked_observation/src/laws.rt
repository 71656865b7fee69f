// Laws of lists of questions that are observed.
ghost use Rattle.asked_list.specs.declared.list.AskedList.{AskedList as ListIs};
ghost use Rattle.asked_observation.specs.Observed.{IsObservedList};
ghost use Rattle.event_log.specs.declared.log.Event.{Event};
ghost use Rattle.observation.specs.Growing.{GrowingView, TakesBatch};
ghost use Rattle.run_model.specs.Run.{Name};
ghost use Rattle.std.specs.Prelude.{List};
ghost use Rattle.asked_observation.specs.Laws.{AnswersAreTheLists};

/// What is observed for a list of questions stays so as batches are taken.
pub fn a_list_stays_observed()
    ensures { (list : ListIs) (names : List Name) (before after : GrowingView)
        (batch : List Event) → TakesBatch before after batch → IsObservedList list names before
        → IsObservedList list names after }
{}

/// The answer on what is observed for a list of questions is one by which each of them is told.
pub fn an_answer_is_the_lists()
    ensures { AnswersAreTheLists }
{}
