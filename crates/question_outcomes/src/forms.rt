//! What follows from the form of a question.
ghost use Rattle.question_meaning.specs.Asking.{is_turned};
ghost use Rattle.question_outcome.specs.Outcomes.{tells_nothing};
ghost use Rattle.std.specs.Prelude.{◌≡◌};

use question_meaning::Form;

/// Whether the question holds where what is asked is false.
pub fn is_turned(form: Form) -> bool
    ensures { result ≡ is_turned form }
{
    match form {
        Form::Never | Form::AlwaysByNegation | Form::Surely => true,
        Form::Can | Form::Always | Form::AtEnd | Form::Plain => false,
    }
}

/// Whether the answer alone says nothing of the run.
pub fn tells_nothing(form: Form, holds: bool) -> bool
    ensures { result ≡ tells_nothing form holds }
{
    match form {
        Form::Never | Form::AlwaysByNegation => holds,
        Form::Can => !holds,
        Form::Always | Form::Surely | Form::AtEnd | Form::Plain => false,
    }
}
