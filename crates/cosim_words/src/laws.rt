// A law of the words of commands.
ghost use Rattle.std.specs.Prelude.{◌≡◌};
ghost use Rattle.cosim_words.specs.Words.{Command, IsInRange, words_of};

/// Words are those of one command at most, so the command that keeps its promise is the one that was asked for.
pub fn one_command()
    ensures { (c d : Command) → IsInRange c → IsInRange d → words_of c ≡ words_of d → c ≡ d }
{}
