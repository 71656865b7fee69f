// Laws of what is due of the text of a log.
ghost use Rattle.std.specs.Prelude.{◌≡◌, ℕ, List, Option, true, None};
ghost use Rattle.rctl_grammar.specs.declared.fault.FormulaFault.{FormulaFault};
ghost use Rattle.event_log.specs.declared.log.Header.{Header};
ghost use Rattle.event_log.specs.declared.log.Log.{Log};
ghost use Rattle.counter_preds.specs.declared.values.Variable.{Variable};
ghost use Rattle.log_rules.specs.Judgement.{with_rules};
ghost use Rattle.log_rules.specs.Readings.{log_reading};
ghost use Rattle.log_rules.specs.Due.{due};
ghost use Rattle.log_rules.specs.WholeLogs.{IsLogFor, IsDueOfLog};

/// Of a log without a fault that has the names, the log after each batch is due and no fault.
pub fn no_fault_is_due_of_a_log()
    ensures { (names : Header → Option FormulaFault) (counters : Header → List Variable)
        (bytes : List ℕ) (log : Log) → IsLogFor names counters bytes log
        → IsDueOfLog log (due log_reading (with_rules names counters) true bytes) }
{}

/// Bytes of which no fault is due are the text of such a log.
pub fn no_fault_due_is_a_log()
    ensures { (names : Header → Option FormulaFault) (counters : Header → List Variable)
        (bytes : List ℕ) → (due log_reading (with_rules names counters) true bytes).fault ≡ None
        → (log : Log) × IsLogFor names counters bytes log }
{}
