// What a client may rely on in the table of steps.
ghost use Rattle.map_model.specs.Laws.{StepsAreBetween};
ghost use Rattle.map_model.specs.StepLaws.{AppendsAreReadBack, FirstRefusalIsAnswered, OnlyOwnCellsChange, PushesKeepTheWriter, ReadsChangeNothing, ReadsGiveTheContent, RefusedChangesNothing, ReopeningsAllowNothingElse, StepsAllowNothingElse, WritesAreReadBack};

/// The first refusal that applies to a command is its answer.
pub fn first_refusal_is_answered()
    ensures { FirstRefusalIsAnswered }
{}

/// A command that is refused changes nothing, and the refusal applied.
pub fn refused_changes_nothing()
    ensures { RefusedChangesNothing }
{}

/// A block that no command of a run names keeps its cell.
pub fn only_own_cells_change()
    ensures { OnlyOwnCellsChange }
{}

/// A read leaves the cell, whatever it answers.
pub fn reads_change_nothing()
    ensures { ReadsChangeNothing }
{}

/// What a read gives is the content of the cell.
pub fn reads_give_the_content()
    ensures { ReadsGiveTheContent }
{}

/// A push keeps the writer's stamp, base and reserved length, or gives the writer up.
pub fn pushes_keep_the_writer()
    ensures { PushesKeepTheWriter }
{}

/// What was pushed to a fresh write and finished is read back, and it is no longer than was
/// reserved.
pub fn writes_are_read_back()
    ensures { WritesAreReadBack }
{}

/// What was pushed to an append and finished is read back behind what was there.
pub fn appends_are_read_back()
    ensures { AppendsAreReadBack }
{}

/// After a command, whatever it answered, a block is read as it might have been before, or as the
/// command was to leave it.
pub fn steps_allow_nothing_else()
    ensures { StepsAllowNothingElse }
{}

/// A reopening leaves no block that may be read otherwise than before.
pub fn reopenings_allow_nothing_else()
    ensures { ReopeningsAllowNothingElse }
{}

/// What a block is read as after a command, whatever it answered, is between the cell before it
/// and the cell that it was to leave.
pub fn steps_are_between()
    ensures { StepsAreBetween }
{}
