// A law of logs that were read.
ghost use Rattle.asked_log.specs.Logs.{CanObserve};
ghost use Rattle.event_log.specs.declared.log.Log.{Log as LogIs};
ghost use Rattle.log_input.specs.Inputs.{IsFilled};
ghost use Rattle.log_input.specs.declared.form.Form.{Form as FormIs};
ghost use Rattle.std.specs.Prelude.{ℕ, List};

/// A log that was read can be observed.
pub fn read_logs_are_observed()
    ensures { (form : FormIs) (bytes : List ℕ) (log : LogIs) → IsFilled form bytes log
        → CanObserve log }
{}
