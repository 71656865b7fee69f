// Laws of lists of questions.
ghost use Rattle.asked_list.specs.Lists.{IsAskedList, asked_each, disjuncts_in};
ghost use Rattle.asked_list.specs.declared.list.AskedList.{AskedList as ListIs};
ghost use Rattle.event_log.specs.declared.log.Header.{Header};
ghost use Rattle.rctl_names.specs.Resolving.{IsResolved, scope_of};
ghost use Rattle.rctl_parts.specs.MadeFor.{AreMadeFor};
ghost use Rattle.rctl_parts.specs.Pieces.{disjuncts_of};
ghost use Rattle.rctl_parts.specs.declared.part.Resolved.{Resolved as ResolvedIs};
ghost use Rattle.run_model.specs.Run.{Name};
ghost use Rattle.std.specs.Prelude.{List};

/// What is asked of a list of questions, once its names were looked up, is made for the header and
/// the watches, so that it can be observed as one formula.
pub fn asked_lists_are_made_for_the_header()
    ensures { (list : ListIs) → IsAskedList list → (header : Header) (watches : List Name)
        (resolved : ResolvedIs) → IsResolved header watches (disjuncts_in list) resolved
        → AreMadeFor (scope_of header resolved.watch_process)
        (asked_each list.forms (disjuncts_of resolved.disjuncts)) }
{}
