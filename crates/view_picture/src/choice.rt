//! Which events of a run are shown.
ghost use Rattle.std.specs.Prelude.{◌≡◌, ℕ, ◌<◌, ◌≤◌, ◌++◌, [], length, map, get_or};
ghost use Rattle.std.specs.Prelude.{OnOk, IfOk, IfSome};
ghost use Rattle.std.specs.List.{AllByRecursion, count_by, list_any};
ghost use Rattle.std.specs.Option.{option_copied};
ghost use Rattle.pota_base.specs.Shape.{HasEvent};
ghost use Rattle.report.specs.Spelling.{IsWellFormed};
ghost use Rattle.view_parts.specs.Each.{own_places, places};
ghost use Rattle.view_parts.specs.Parts.{place, IsReportOf};
ghost use Rattle.view_picture.specs.Choice.{keeps, kept_count, is_open, is_whole, keeps_all};
ghost use Rattle.view_picture.specs.Choice.{limit_of, shown_above, end_of, span_of, spans_of};
ghost use Rattle.view_picture.specs.Choice.{choice_of};
ghost use Rattle.view_picture.specs.Choice.{is_within, is_place, wants};

use crate::told::{first_drawn, goal_of, named_in};
use cut_lattice::Cut;
use event_log::States;
use pota_base::{EventId, List, NoMemory};
use rctl_grammar::Token;
use report::Report;
use std::alloc::Global;
use view_parts::{Extent, Sought, is_about, names};

/// Where more events are kept than that, not all of them are shown.
const MANY_KEPT: usize = 60;

/// How many of each process are shown then.
const LAST_KEPT: u32 = 12;

/// The events of a process behind its first `above` ones, up to event `upto`.
#[derive(Clone, Copy, Debug, PartialEq, Eq)]
pub struct Span {
    pub above: u32,
    pub upto: u32,
}

/// Which events of a run are shown.
#[derive(Debug, Drop)]
pub struct Choice {
    /// Whether each event is kept, and not only those that the formula is about.
    pub all: bool,
    /// For each process, between which of its events kept ones are shown.
    pub spans: List<Span>,
    /// Events that the report names. They are shown wherever they stand.
    pub named: List<EventId>,
}

/// A run, the tokens of a formula, and which events are shown by these.
#[derive(Clone, Copy)]
pub struct Chooser<'a> {
    pub states: &'a States,
    pub tokens: &'a [Token],
    pub choice: &'a Choice,
}

// Appends the first events of a process.
fn put_own(events: &mut List<EventId>, process: u32, count: u32) -> Result<(), NoMemory>
    ensures { OnOk result (events.new ≡ events.old ++ own_places process count) }
{
    for before in 0..count {
        let position = before + 1;
        events.push(EventId { process, position })?;
    }
    Ok(())
}

/// All events of a run.
pub fn all_events(alloc: Global, states: &States) -> Result<List<EventId>, NoMemory>
    ensures { IfOk result (λ events. events ≡ places (map length states.now.events)) }
{
    let mut events = List::new(alloc);
    for process in 0..states.shape().procs() {
        put_own(&mut events, process, states.shape().len_of(process))?;
    }
    Ok(events)
}

// Whether the event is kept: the formula is about it, or each is kept.
fn keeps(states: &States, tokens: &[Token], all: bool, event: EventId) -> bool
    requires { HasEvent (map length states.now.events) event }
    ensures { result ≡ keeps states.now tokens.now all event }
{
    all || is_about(states, tokens, event)
}

// How many of these events are kept.
fn kept_among(states: &States, tokens: &[Token], all: bool, events: &[EventId]) -> usize
    requires { AllByRecursion (HasEvent (map length states.now.events)) events.now }
    ensures { result ≡ count_by (keeps states.now tokens.now all) events.now }
{
    let mut kept = 0;
    for k in 0..events.len() {
        if keeps(states, tokens, all, events[k]) {
            kept += 1;
        }
    }
    kept
}

// How many events of a run are kept.
fn kept_count(states: &States, tokens: &[Token], all: bool, events: &[EventId]) -> usize
    requires { events.now ≡ places (map length states.now.events) }
    ensures { result ≡ kept_count states.now tokens.now all }
{
    kept_among(states, tokens, all, events)
}

// Whether the formula is about each event, or about none.
fn is_open(states: &States, tokens: &[Token], events: &[EventId]) -> bool
    requires { events.now ≡ places (map length states.now.events) }
    ensures { result ≡ is_open states.now tokens.now }
{
    names(Sought::Next, tokens) || kept_count(states, tokens, false, events) == 0
}

fn is_whole(extent: Extent) -> bool
    ensures { result ≡ is_whole extent }
{
    match extent {
        Extent::Folded | Extent::Last(_) => false,
        Extent::Whole => true,
    }
}

// Whether each event is kept.
fn keeps_all(states: &States, tokens: &[Token], extent: Extent, events: &[EventId]) -> bool
    requires { events.now ≡ places (map length states.now.events) }
    ensures { result ≡ keeps_all states.now tokens.now extent }
{
    is_whole(extent) || is_open(states, tokens, events)
}

// How many kept events of each process are shown at most, where so many are kept in all.
fn limit_of(extent: Extent, kept: usize) -> Option<u32>
    ensures { result ≡ limit_of extent kept }
{
    match extent {
        Extent::Folded if kept <= MANY_KEPT => None,
        Extent::Folded => Some(LAST_KEPT),
        Extent::Last(limit) => Some(limit),
        Extent::Whole => None,
    }
}

// The position above which lie the last so many kept ones of the first events of a process.
fn shown_above(
    states: &States,
    tokens: &[Token],
    all: bool,
    process: u32,
    limit: u32,
    events: u32,
) -> u32
    requires process { process < length states.now.events }
    requires events { events ≤ length (get_or states.now.events process []) }
    ensures { result ≡ shown_above (λ position. keeps states.now tokens.now all
        (place process position)) limit events }
{
    let (mut left, mut position) = (limit, events);
    while left > 0 && position > 0 {
        if keeps(states, tokens, all, EventId { process, position }) {
            left -= 1;
        }
        position -= 1;
    }
    position
}

// How many events of a process the goal has, and all where there is no goal.
fn end_of(states: &States, goal: Option<&Cut>, process: u32) -> u32
    requires process { process < length states.now.events }
    requires goal { IfSome (option_copied goal) (λ cut. process < length cut) }
    ensures { result ≡ end_of states.now (option_copied goal.entry) process }
{
    match goal {
        None => states.shape().len_of(process),
        Some(goal) => goal.get(process),
    }
}

// Between which events of a process kept ones are shown.
fn span_of(
    states: &States,
    tokens: &[Token],
    all: bool,
    limit: Option<u32>,
    goal: Option<&Cut>,
    process: u32,
) -> Span
    requires process { process < length states.now.events }
    requires goal { IfSome (option_copied goal) (λ cut. process < length cut) }
    requires within { end_of states.now (option_copied goal) process
        ≤ length (get_or states.now.events process []) }
    ensures { result ≡ span_of states.now tokens.now all limit (option_copied goal.entry) process }
{
    let Some(limit) = limit else {
        return Span {
            above: 0,
            upto: states.shape().len_of(process),
        };
    };
    let upto = end_of(states, goal, process);
    Span {
        above: shown_above(states, tokens, all, process, limit, upto),
        upto,
    }
}

// The same of each process.
fn spans_of(
    alloc: Global,
    states: &States,
    tokens: &[Token],
    all: bool,
    limit: Option<u32>,
    goal: Option<&Cut>,
) -> Result<List<Span>, NoMemory>
    requires goal { IfSome (option_copied goal) (λ cut. length cut ≡ length states.now.events) }
    requires within { (process : ℕ) → process < length states.now.events
        → end_of states.now (option_copied goal) process
        ≤ length (get_or states.now.events process []) }
    ensures { IfOk result (λ spans. spans
        ≡ spans_of states.now tokens.now all limit (option_copied goal.entry)) }
{
    let mut spans = List::new(alloc);
    for process in 0..states.shape().procs() {
        spans.push(span_of(states, tokens, all, limit, goal, process))?;
    }
    Ok(spans)
}

/// Which events of a run are shown by a report of it, of which these are the formula's tokens.
pub fn choice_of(
    alloc: Global,
    states: &States,
    tokens: &[Token],
    extent: Extent,
    report: &Report,
    events: &[EventId],
) -> Result<Choice, NoMemory>
    requires formed { IsWellFormed report.now }
    requires fits { IsReportOf states.now report.now }
    requires events { events.now ≡ places (map length states.now.events) }
    ensures { IfOk result (λ choice. choice
        ≡ choice_of states.now tokens.now extent report.now) }
{
    let all = keeps_all(states, tokens, extent, events);
    let limit = limit_of(extent, kept_count(states, tokens, all, events));
    let goal = goal_of(first_drawn(report.witnesses.as_slice()));
    let named = named_in(alloc, report)?;
    let spans = spans_of(alloc, states, tokens, all, limit, goal)?;
    Ok(Choice { all, spans, named })
}

fn is_within(span: Span, position: u32) -> bool
    ensures { result ≡ is_within span position }
{
    span.above < position && position <= span.upto
}

/// Whether the two are one event.
pub fn is_place(event: EventId, other: EventId) -> bool
    ensures { result ≡ is_place event other }
{
    other.process == event.process && other.position == event.position
}

impl Chooser<'_> {
    // Whether the event is within the span of its process.
    fn is_in_span(&self, event: EventId) -> bool
        ensures { result ≡ is_within
            (get_or self.now.choice.now.spans event.process (record { above = 0; upto = 0 }))
            event.position }
    {
        match self.choice.spans.as_slice().get(event.process as usize) {
            None => is_within(Span { above: 0, upto: 0 }, event.position),
            Some(span) => is_within(*span, event.position),
        }
    }

    // Whether it is one that the report names.
    fn is_named(&self, event: EventId) -> bool
        ensures { result ≡ list_any (is_place event) self.now.choice.now.named }
    {
        let named = self.choice.named.as_slice();
        named.iter().any(|named| is_place(event, *named))
    }

    /// Whether the event is shown.
    pub fn wants(&self, event: EventId) -> bool
        requires { HasEvent (map length self.now.states.now.events) event }
        ensures { result ≡ wants self.now.states.now self.now.tokens.now self.now.choice.now event }
    {
        keeps(self.states, self.tokens, self.choice.all, event) && self.is_in_span(event)
            || self.is_named(event)
    }
}
