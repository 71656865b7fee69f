// Laws of readings; the functions do nothing.
ghost use Rattle.std.specs.Prelude.{◌≡◌, ℕ, ◌<◌, ◌≤◌, Bool, List, length, Option};
ghost use Rattle.pota_base.specs.Limits.{longest_log};
ghost use Rattle.rctl_grammar.specs.declared.fault.FormulaFault.{FormulaFault};
ghost use Rattle.event_log.specs.declared.item.LogFault.{LogFault};
ghost use Rattle.event_log.specs.declared.log.Header.{Header};
ghost use Rattle.event_log.specs.LogText.{log_items};
ghost use Rattle.counter_preds.specs.declared.values.Variable.{Variable};
ghost use Rattle.fault_kinds.specs.declared.refusal.Refusal.TheVariants as refusal;
ghost use Rattle.log_rules.specs.Judgement.{Prefix, Rules, with_rules, waiting, refused};
ghost use Rattle.log_rules.specs.Judgement.{judged};
ghost use Rattle.log_rules.specs.Readings.{IsReading};
ghost use Rattle.log_rules.specs.Due.{due};
ghost use Rattle.log_rules.specs.Reported.{HasOneReport};
ghost use Rattle.form_readings.specs.Clocks.{clocks_reading};
ghost use Rattle.form_readings.specs.Sources.{merged_of, merged_log_of, merged_reading};

/// Records of two lines are read so that a fault stays, and a text without one has at most 64 MiB.
pub fn clocks_are_read()
    ensures { IsReading longest_log clocks_reading }
{}

/// So are several logs one behind another.
pub fn sources_are_read()
    ensures { IsReading longest_log merged_reading }
{}

/// A fault of a batch of the merged log stands at one of its events, so that it has an origin.
pub fn faults_have_an_origin()
    ensures { (names : Header → Option FormulaFault) (counters : Header → List Variable)
        (bytes : List ℕ) (past : Option Prefix) (f : LogFault)
        → judged (with_rules names counters) waiting (log_items (merged_log_of bytes))
        ≡ refused past (refusal.Log f)
        → (0 < f.line) × (f.line ≤ length (merged_of bytes).origins) }
{}

/// There is one report at most, on all events, and it is due exactly where a batch is.
pub fn one_report_is_due()
    ensures clocks { (rules : Rules) (ended : Bool) (bytes : List ℕ)
        → HasOneReport (due clocks_reading rules ended bytes) }
    ensures sources { (rules : Rules) (ended : Bool) (bytes : List ℕ)
        → HasOneReport (due merged_reading rules ended bytes) }
{}
