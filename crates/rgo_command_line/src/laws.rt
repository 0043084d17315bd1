//! What holds of the definitions by themselves.

ghost use Rattle.rgo_command_line.specs.Laws.{AskExactly, AskForCommands, AskForNothing};

/// Which words ask for which command.
pub fn words_asked()
    ensures exactly { AskExactly }
    ensures commands { AskForCommands }
    ensures nothing { AskForNothing }
{}
