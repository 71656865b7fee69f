// The text of reports that is due of the bytes of a log: `IsDueText` of `specs/Texts.antt` says
// which text goes with what is due (`due` of `log_rules`). The laws say that there is one due text,
// and that more bytes give more of it.
//
// Not said here: how the text is made and written.
#![tactic(auto)]

pub mod text_laws;
