//! Laws of the picture, as contracts of functions that do nothing.
ghost use Rattle.view_picture.specs.Laws.{ShownEventsOnce, ChosenAreShown, LastIsShown};
ghost use Rattle.view_picture.specs.Laws.{MarksAreApart, MarksAreInside};
ghost use Rattle.view_picture.specs.Laws.{ColumnsAreOne, EscapedHasNoTag};
ghost use Rattle.view_picture.specs.Laws.{GoalsAreBehindTheLeast, GoalsAreBeforeTheGreatest};
ghost use Rattle.view_picture.specs.Laws.{GoalsBeyondAreBeyond};

/// Each event that is to be shown gets one mark, and no other event gets one. What is told to be
/// left out on a lane is not shown.
pub fn shown_events_once()
    ensures once { ShownEventsOnce }
    ensures chosen { ChosenAreShown }
    ensures left_out { LastIsShown }
{}

/// A run has one assignment of columns to what is shown.
pub fn columns_are_one()
    ensures { ColumnsAreOne }
{}

/// No two marks lie on each other.
pub fn marks_are_apart()
    ensures { MarksAreApart }
{}

/// All marks lie within the picture.
pub fn marks_are_inside()
    ensures { MarksAreInside }
{}

/// The line of a goal is drawn on the side of the other lines where the goal is.
pub fn goals_are_on_their_side()
    ensures behind { GoalsAreBehindTheLeast }
    ensures before { GoalsAreBeforeTheGreatest }
    ensures beyond { GoalsBeyondAreBeyond }
{}

/// A formula adds no tag to the picture.
pub fn escaped_has_no_tag()
    ensures { EscapedHasNoTag }
{}
