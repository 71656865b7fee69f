// Laws of instances and of their tally.
ghost use Rattle.asked_instances.specs.Instances.{AreInstances, Source, pairs_asked};
ghost use Rattle.asked_instances.specs.declared.asking.Instance.{Instance as InstanceIs};
ghost use Rattle.instance_outcomes.specs.Answers.{AreKnown, HoldsFor, IsTally};
ghost use Rattle.instance_outcomes.specs.declared.tallied.Tally.{Tally as TallyIs};
ghost use Rattle.part_pulls.specs.declared.observed.Observed.{Observed};
ghost use Rattle.run_model.specs.Run.{Watches};
ghost use Rattle.std.specs.List.{AllByRecursion};
ghost use Rattle.std.specs.Prelude.{◌≡◌, ◌↔◌, ◌≤◌, [], List, length};
ghost use Rattle.pota_base.specs.Limits.{most_instances, most_processes};

/// No instance fails exactly where the question holds of the run for each of them.
pub fn none_fails_where_each_holds()
    ensures { (seen : Observed) (is : List InstanceIs) (t : TallyIs) → IsTally seen is t
        → (watches : Watches) → (t.fails ≡ 0) ↔ AllByRecursion (HoldsFor seen watches) is }
{}

/// The instances of a question over processes have the names that they use, and there are at most
/// 4,096 of them.
pub fn instances_are_known()
    ensures known { (s : Source) (is : List InstanceIs) → s.watches ≡ []
        → AreInstances s (pairs_asked s) is → AreKnown s.header is }
    ensures few { (s : Source) (is : List InstanceIs) → length s.header.procs ≤ most_processes
        → AreInstances s (pairs_asked s) is → length is ≤ most_instances }
{}
