// The commands of a script.
use text_words::{Words, line_of};

// How many commands there are.
const COMMANDS: usize = 15;

// A command.
#[derive(Clone, Copy, Debug, PartialEq, Eq)]
pub enum Command {
    // Compares what the last call answered with what the line says.
    Expect,
    // Shows words of a table, or how many of the pool are not zero.
    Words,
    // Shows the ledger.
    Ledger,
    // Writes a word by hand.
    Put,
    // Writes a ledger number by hand.
    Enter,
    // The call check.
    Check,
    // The call look up.
    Look,
    // The call list.
    List,
    // The call page image.
    Image,
    // The call make.
    Make,
    // The call map.
    Map,
    // The call map, with frame and flags 0.
    Unmap,
    // The call modify, on tables that are not live.
    Modify,
    // The call modify, on live tables.
    Live,
    // The call compact.
    Compact,
}

// Each command's name with the values that it takes, in the order of Command::ALL; what may be left out stands in brackets. One text,
// as a person reads it: both the names and the counts are read off it.
const USAGE: &[u8] = b"expect accepted|refused [VALUE] [VALUE] [VALUE] [VALUE] [VALUE]
words [TABLE] [FIRST] [COUNT]
ledger
put TABLE WORD VALUE
enter TABLE NUMBER
check
look ADDRESS
list START END
image TABLE
make TABLES BASE LEVEL lower|upper
map START END FRAME FLAGS [noblocks]
unmap START END
modify START END SET CLEAR
live START END SET CLEAR
compact
";

impl Command {
    // Every command, in the order of the enum.
    const ALL: [Command; COMMANDS] = [
        Command::Expect,
        Command::Words,
        Command::Ledger,
        Command::Put,
        Command::Enter,
        Command::Check,
        Command::Look,
        Command::List,
        Command::Image,
        Command::Make,
        Command::Map,
        Command::Unmap,
        Command::Modify,
        Command::Live,
        Command::Compact,
    ];

    // The command of a name.
    pub(crate) fn named(name: &[u8]) -> Option<Self> {
        Command::ALL
            .into_iter()
            .find(|command| Words::of(command.usage()).next() == Some(name))
    }

    // How the command is used.
    pub(crate) fn usage(self) -> &'static [u8] {
        line_of(USAGE, self as usize)
    }

    // Whether the command takes so many values.
    pub(crate) fn takes(self, count: usize) -> bool {
        let words = Words::of(self.usage());
        let most = words.skip(1).count();
        let least = words.skip(1).filter(|word| !word.starts_with(b"[")).count();
        least <= count && count <= most
    }
}
