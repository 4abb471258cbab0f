//! What the program says of each number.

use faults::FaultKind;
use std::fmt;

/// The explanation of a number: when it comes, an example, and what to do. It is displayed as four lines.
#[derive(Clone, Copy)]
pub struct Page(pub FaultKind);

/// The lines that say when a number comes, and what to do.
#[derive(Clone, Copy)]
pub struct Brief(pub FaultKind);

impl fmt::Display for Page {
    fn fmt<W: fmt::Write>(&self, f: &mut fmt::Formatter<W>) -> fmt::Result {
        writeln!(f, "{}\nwhen:    {}", self.0, texts_of(self.0))
    }
}

impl fmt::Display for Brief {
    fn fmt<W: fmt::Write>(&self, f: &mut fmt::Formatter<W>) -> fmt::Result {
        let text = texts_of(self.0);
        let (rest, remedy) = text.split_once("\ndo:      ").unwrap_or((text, ""));
        let (cause, _) = rest.split_once('\n').unwrap_or((rest, ""));
        writeln!(f, "  when: {cause}\n  do:   {remedy}")
    }
}

// When a fault comes, an example, and what to do: a row for each kind.
macro_rules! in_pages {
    ($value:expr; $($kind:ident $cause:literal $example:literal $remedy:literal),*) => {
        match $value {
            $(FaultKind::$kind => concat!($cause, "\nexample: ", $example, "\ndo:      ", $remedy),)*
        }
    };
}

fn texts_of(kind: FaultKind) -> &'static str {
    in_pages!(kind;
        NoSlash "a prefix has no slash"
            "the prefix `10.0.0.0`, which should be `10.0.0.0/8`"
            "write the address, a slash and the length",
        BadAddress "an address is not four numbers of 0 to 255 with points between them, or a number has a leading zero"
            "`10.0.0`, `10.0.0.256`, `10.01.0.0`, `2001:db8::`"
            "write all four numbers, as in `10.0.0.0`; the program reads no IPv6",
        BadLength "the length of a prefix is not a number of 0 to 32, or has a leading zero"
            "`10.0.0.0/33`, `10.0.0.0/08`, `10.0.0.0/`"
            "write a length of 0 to 32",
        HostBits "the address of a prefix has a bit set after the prefix's length"
            "`10.0.0.1/8`, which should be `10.0.0.0/8`"
            "clear the bits after the length, or write the length that you mean: `10.0.0.1/32` is one address",
        BadCost "the cost of a link or of an attachment is outside 1 to 65535"
            "`cost a b 0`, the link `a b 65536 1`, and the prefix `10.0.0.0/8 a 0`"
            "write a whole number of 1 to 65535",
        UnknownRouter "a step, a look-up or a trace has a router's number that the network does not have"
            "none in a script: it names routers, and an unknown name is fault 45"
            "report it, because the program does not let it happen",
        UnknownLink "a step has a link's or a port's number that the network does not have"
            "none in a script: it names routers, and two routers without a link are fault 45"
            "report it, because the program does not let it happen",
        NoThread "the system gave no thread for a forwarding worker"
            "`dualnet run FILE --workers 16` when threads or memory are limited"
            "ask for fewer workers, or raise the limit (`ulimit -u`, `ulimit -v`, a container's limit of processes)",
        AlreadyUp "`up A B`, but the link is up"
            "`up a b`, and then `up a b` again"
            "leave the second out, or write `try up A B`, which prints the refusal and goes on",
        IsDown "`down A B` or `cost A B C`, but the link is down"
            "`down a b` as the first command, because all links are down at first"
            "write `up A B` before it, or write `try` in front of it, which prints the refusal and goes on",
        SessionsSpent "`up A B`, but the link has come up 65,535 times: no number is left for its next session"
            "the 65,536th `up a b` of a shell or of a journal"
            "open the network anew, because then sessions begin at 1 again",
        NothingToDeliver "`deliver A B`, but nothing waits for A from B; or `deliver A A`, but A has no notice to take"
            "`deliver a b` twice after one `up a b`, which gives each end one notice"
            "see with `report` what is queued, or write `settle`, which delivers all",
        NothingDue "`publish A`, but the rows that A chose are published, and all messages that it holds may leave"
            "`publish a`, and then `publish a` again"
            "publish after A has taken news, or write `settle`, which publishes all that is due",
        NothingRipe "`release A`, but A holds no message, or has not published since it holds the oldest"
            "`release a` before `publish a`"
            "write `publish A` before it, because A holds each message until its rows are in force",
        JournalFull "a million steps were done, and the journal has room for no more"
            "256 routers in a grid, each with a prefix of its own: all 480 links come up, and then they `settle`"
            "write `settle` after every few links that come up, because all at once take far more steps; or say `--no-journal`, which has no such limit",
        NoMemory "the system refused memory, of which the journal needs 12 MB when a network is opened"
            "`(ulimit -v 8000; dualnet run FILE)`"
            "give the program more memory",
        Busy "a router was asked for a step while its publication was under way"
            "none, because the program does not let it happen"
            "report it",
        Stale "an image is later than the router's last publication"
            "none, because the program does not let it happen"
            "report it",
        NoReaderPlace "an image has no place for one more reader"
            "none, because the program opens fewer readers than there are places"
            "report it",
        BadRouters "the scenario has no router, or more than 256"
            "`routers = []`"
            "name 1 to 256 routers",
        BadLink "a link names an unknown router, names one router twice, or joins two routers that an earlier link joins"
            "`links = [\"a a 1 1\"]`, and `links = [\"a b 1 1\", \"b a 1 1\"]`"
            "name two routers of the list `routers`, and write one link for any two",
        TooManyLinks "the scenario has more than 1,024 links, or one router has more than 32"
            "a star of 34 routers, because the one in the middle has 33 links"
            "take links away, or put more routers into the middle of the star",
        BadOwner "a router has a prefix twice, or there are more than 4,096 prefixes or 16,384 attachments"
            "`prefixes = [\"10.0.0.0/8 a 1\", \"10.0.0.0/8 a 5\"]`"
            "give a router each prefix once; several routers may have the same one, and `attach` changes a cost",
        UnknownPrefix "a step names a prefix that the network does not have"
            "none in a script: its prefixes are read first, and an unknown one is fault 45"
            "report it, because the program does not let it happen",
        NotAttached "`detach A PREFIX`, but A is not attached to the prefix"
            "`detach a 10.0.0.0/8`, and then `detach a 10.0.0.0/8` again"
            "leave the second out, or write `try detach A PREFIX`, which prints the refusal and goes on",
        Stranger "a worker answered a packet that nobody gave it"
            "none, because the program does not let it happen"
            "report it",
        Doubled "workers answered one packet twice"
            "none, because the program does not let it happen"
            "report it",
        Missing "no worker answered a packet"
            "none, because the program does not let it happen"
            "report it",
        Closed "the queue to the workers gave a packet back"
            "none, because the program does not let it happen"
            "report it",
        NoImage "a router's image is gone"
            "none, because the program does not let it happen"
            "report it",
        WrongTicket "a publication ends with the ticket of another one"
            "none, because the program does not let it happen"
            "report it",
        BadToml "the file is not a TOML document in UTF-8"
            "`routers = [\"a\"`, in which the closing bracket is missing"
            "look at quotes, brackets and commas",
        BadKey "the keys of a scenario are not exactly `routers`, `links`, `prefixes` and `script`, a document of times has other keys than its five, or a value has another type"
            "an empty file, `router = [\"a\"]`, `links = 1`"
            "write all four keys of a scenario, with `[]` for an empty list",
        BadName "a router's name is not 1 to 16 small letters and digits with a letter first, or two routers have it"
            "`routers = [\"Edge\"]`, `routers = [\"a\", \"a\"]`"
            "choose another name",
        BadLine "a line of `links`, `prefixes` or, in a document of times, `routers` is not written as below, or names what the scenario does not have"
            "the link `a b 1`, the prefix `10.0.0.0/8 z 1`"
            "write a link as `A B C1 C2` and a prefix as `PREFIX ROUTER COST`, in a document of times `A B THERE BACK` and `ROUTER DELAY`, with whole numbers and single spaces",
        BadCommand "a line of the script is no command, a line of the changes is not `MOMENT STEP`, or one names a router, link or prefix that the scenario does not have"
            "`setle`, `up`, `up a z`, `up  a b`, `state a 11.0.0.0/8`"
            "see `dualnet --help` for the commands; `dualnet check FILE --explain` says what is wrong with a line of the script; a change is a moment and `up A B`, `down A B`, `cost A B C`, `attach A PREFIX COST` or `detach A PREFIX`",
        TooLarge "the file has more than 4,194,304 bytes, a journal has more than 268,435,456, or there are more than 10,000 commands or changes"
            "a script of 10,001 lines, `dualnet run /dev/zero`"
            "make the file smaller, or write fewer lines; one `settle` does many steps",
        Unreadable "the file is not there, is a folder, or may not be read"
            "`dualnet run no-such-file.toml`"
            "check the path and its permissions; `-` is the standard input, which is read once",
        BadJournal "the file is no journal, or has a line that is no step of this scenario's network"
            "`dualnet replay two-routers.toml ring.journal`"
            "give the scenario whose run wrote the journal, and leave the journal as it was written",
        Unwritable "the journal or the page could not be written, or would have replaced a file that is read"
            "`dualnet run FILE --journal /no-such-folder/journal`"
            "check the path, its permissions and the free space on the disk",
        PastMoment "in simulated time, a change is given for a moment before the present one"
            "a link is to go down at 100 microseconds, and the clock shows 250"
            "give the change for the present moment, or a later one",
        TimeSpent "in simulated time, the next event is due at 2^64 - 1 microseconds or later, which the clock cannot show"
            "a direction of a link with a delay of 18,446,744,073,709,551,615 microseconds"
            "give shorter delays, and earlier moments",
        JournalKept "`save` or `restore`, but the steps are kept for a journal, which cannot go back"
            "`save` in a script or a shell without `--no-journal`"
            "say `--no-journal`: the steps are then counted and not kept",
        NothingSaved "`restore`, but nothing was saved"
            "`restore` as the first command"
            "write `save` before it")
}
