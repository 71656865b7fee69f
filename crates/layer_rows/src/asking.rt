//! What a command line asks for, in words.

use command_words::{Form, Inquiry, Product, Reporting, Request, Sizes, Task, read_request};
use std::alloc::{AllocError, Global};

// How the input is read, where that isn't as the text of one log.
fn form_text(form: Form) -> &'static str {
    match form {
        Form::Text => "",
        Form::Clocks => " vclog",
        Form::Merged => " merged",
    }
}

fn reports_text(alloc: Global, form: Form, reporting: &Reporting) -> Result<String, AllocError> {
    let mut text = String::from_str(alloc, "check")?;
    text.push_str(form_text(form))?;
    if reporting.shown.slice {
        text.push_str(" slice")?;
    }
    if reporting.shown.witness {
        text.push_str(" witness")?;
    }
    if reporting.each_batch {
        text.push_str(" each-batch")?;
    }
    Ok(text)
}

fn inquiry_text(alloc: Global, inquiry: &Inquiry) -> Result<String, AllocError> {
    match &inquiry.product {
        Product::Reports(reporting) => reports_text(alloc, inquiry.form, reporting),
        Product::Certificate => String::from_str(alloc, "certify"),
    }
}

fn task_text(alloc: Global, task: &Task) -> Result<String, AllocError> {
    match task {
        Task::Read(inquiry) => inquiry_text(alloc, inquiry),
        Task::Bench(
            Sizes {
                seed,
                procs,
                events,
            },
        ) => format!(in alloc; "bench seed {} procs {} events {}", seed, procs, events),
    }
}

fn request_text(alloc: Global, request: &Request<'_>) -> Result<String, AllocError> {
    let task = task_text(alloc, &request.task)?;
    format!(in alloc;
        "{} workers {} formula {}",
        task.as_str(),
        request.workers,
        request.formula
    )
}

/// `refused`, or the command with what belongs to it, `workers` and their number, `formula` and its
/// text.
pub fn asked(alloc: Global, words: &[String]) -> Result<String, AllocError> {
    match read_request(alloc, words) {
        Err(_) => Err(AllocError),
        Ok(None) => String::from_str(alloc, "refused"),
        Ok(Some(request)) => request_text(alloc, &request),
    }
}
