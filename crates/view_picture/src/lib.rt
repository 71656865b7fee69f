//! A view of a run as a picture: one SVG image of as much of it as is asked for.
//!
//! `view_picture` gives the picture that is stated of a run, a report of it and an extent
//! (`IsPictureOf`): of the events that are wanted (`is_wanted`: those that the formula is about,
//! or the last of them, and those that the report names), with the order among them as arrows and
//! ties. Inside, `columns_of` gives each of them a column above that of each event that happened
//! before it, and right behind that of a shown one of those: the length of the longest chain of
//! shown events that ends with it (`AreColumns`; `columns_are_one`).
//!
//! Laws: exactly the wanted events get a mark, and one, and what is told as left out is not shown
//! (`shown_events_once`); no two marks lie on each other (`marks_are_apart`), and all lie within
//! the picture (`marks_are_inside`); the line of a goal is drawn between those of the least and the
//! greatest cut where it is between them (`goals_are_on_their_side`); a formula adds no tag
//! (`escaped_has_no_tag`). That lines, arrows and ties draw exactly what happened before is said in
//! `picture_laws`.
//!
//! Not said: that what is left out changes nothing that the formula says, which is a law of
//! `kept_runs` about its names; how much memory there is, and how long a call takes.
#![tactic(auto)]

mod arrows;
mod choice;
mod columns;
mod edges;
mod frame;
mod heading;
mod lanes;
mod laws;
mod left_out;
mod legend;
mod lines;
mod lost;
mod marks;
mod numbers;
mod svg;
mod ties;
mod told;
mod view;

pub use laws::{
    columns_are_one, escaped_has_no_tag, goals_are_on_their_side, marks_are_apart,
    marks_are_inside, shown_events_once,
};
pub use view::view_picture;
