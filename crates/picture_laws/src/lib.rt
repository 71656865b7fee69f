//! Laws of the picture of a run, as contracts of functions that do nothing.
//!
//! Exactly the events that are asked for have a mark, and one (`marks_are_of_wanted`). Each message
//! whose send and receipt are shown has exactly one arrow, from mark to mark, and no other arrow is
//! drawn (`messages_have_one_arrow`). The order that lines, arrows and ties draw among the shown
//! events is exactly what happened before, and each tie is one that no other line shows
//! (`the_order_is_drawn`). Exactly a message that is sent and not
//! received has a short arrow (`lost_messages_have_short_arrows`). Each of the first 40 edges of a
//! run's report has exactly one dashed line (`first_edges_have_one_line`). The text of a picture is
//! well-formed XML, and so is each picture that `view_top` writes (`pictures_are_well_formed`), by
//! a grammar whose documents have as many `>` as `<` (`documents_close_their_tags`).
//!
//! Not said: how the picture is written, and that it is this one. `view_picture` says so.
#![tactic(auto)]

ghost use Rattle.picture_laws.specs.Laws.{MarksAreOfWanted, ArrowsAreDrawn, MessagesHaveOneArrow};
ghost use Rattle.picture_laws.specs.Laws.{ArrowsAreOfMessages, ShortArrowsAreOfLost};
ghost use Rattle.picture_laws.specs.Laws.{EdgeLinesAreDrawn, FirstEdgesHaveTheirLines};
ghost use Rattle.picture_laws.specs.Laws.{EachFirstEdgeHasOneLine};
ghost use Rattle.picture_laws.specs.Order.{OrderIsDrawn, TiesAreListed, TiesAreNeeded};
ghost use Rattle.picture_laws.specs.WellFormed.{PicturesAreWellFormed, PicturesOfRunsAreWellFormed};
ghost use Rattle.picture_laws.specs.WellFormed.{WrittenPicturesAreWellFormed};
ghost use Rattle.picture_laws.specs.Xml.{TagsAreClosed, DocumentsArePrinted};

/// An event that the formula is about, as far as it is asked for, or that the report names has one
/// mark, and no other event has one.
pub fn marks_are_of_wanted()
    ensures { MarksAreOfWanted }
{}

/// A message whose send and receipt are shown has one arrow from the mark of its send to the mark
/// of its receipt, and each arrow is one of a message.
pub fn messages_have_one_arrow()
    ensures drawn { ArrowsAreDrawn }
    ensures one { MessagesHaveOneArrow }
    ensures no_other { ArrowsAreOfMessages }
{}

/// Among the shown events the lines of processes, the arrows and the ties lead from one to another
/// exactly where it happened before it. Exactly the ties of shown events are drawn, and none of
/// them follows from other lines.
pub fn the_order_is_drawn()
    ensures order { OrderIsDrawn }
    ensures ties { TiesAreListed }
    ensures needed { TiesAreNeeded }
{}

/// An event has a short arrow to the lane of a process exactly where it sends a message there that
/// no event receives.
pub fn lost_messages_have_short_arrows()
    ensures { ShortArrowsAreOfLost }
{}

/// Among the first 40 edges of the report, an edge has one dashed line each time that it stands
/// there, from the mark of its cause to the mark of its effect. So each of them has one where the
/// report's slice is that of a run.
pub fn first_edges_have_one_line()
    ensures drawn { EdgeLinesAreDrawn }
    ensures as_listed { FirstEdgesHaveTheirLines }
    ensures one { EachFirstEdgeHasOneLine }
{}

/// Where processes and variables have names and the formula has printed bytes alone, the text of
/// the picture is well-formed XML. So it is of each run whose log has a text, and each well-formed
/// report; and so is each picture that the program writes, whatever it reads.
pub fn pictures_are_well_formed()
    ensures text { PicturesAreWellFormed }
    ensures of_runs { PicturesOfRunsAreWellFormed }
    ensures written { WrittenPicturesAreWellFormed }
{}

/// The grammar says something of the bytes: a document has as many `>` as `<`, and printed bytes
/// and line feeds alone.
pub fn documents_close_their_tags()
    ensures tags { TagsAreClosed }
    ensures printed { DocumentsArePrinted }
{}
