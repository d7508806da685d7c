//! What the list of all commands keeps.
ghost use Rattle.command_tasks.specs.Tasks.{OnlyBlankAsksNothing};

/// Each command but that of a blank line asks something: none is missing from the list.
pub fn each_command_asks()
    ensures { OnlyBlankAsksNothing }
{}
