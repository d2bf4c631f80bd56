//! A script: behind `== ` its name, how its lines are performed, and the stores over which they are; and then the lines.

/// A script.
#[derive(Clone, Copy)]
pub(crate) struct Script<'a> {
    /// Its name.
    pub(crate) name: &'a str,
    /// How its lines are performed.
    pub(crate) way: Way,
    /// The stores, with spaces between.
    pub(crate) stores: &'a str,
    /// Its lines.
    pub(crate) lines: &'a str,
}

/// How the lines of a script are performed.
#[derive(Clone, Copy)]
pub(crate) enum Way {
    /// On a host.
    Host(HostWay),
    /// On a repository without a host.
    Repository(RepositoryWay),
    /// On a host, whose pages and calls are counted.
    Counted,
    /// On connections with a handler that repeats what it was asked.
    Tell,
}

/// How lines are performed on a host.
#[derive(Clone, Copy)]
pub(crate) enum HostWay {
    /// As those that `ask` reads.
    Ask,
    /// As exchanges, one after the other.
    Exchange,
    /// The same, and one that fails is made once more.
    ExchangeAgain,
    /// As exchanges, those up to each line `run` as one run.
    Run,
    /// As exchanges, and as parts that are saved and restored.
    Save,
    /// As those that `trace` reads.
    Trace,
    /// As pieces of connections, each by its text.
    Connect,
}

/// What is written of a line that is performed on a repository.
#[derive(Clone, Copy)]
pub(crate) enum RepositoryWay {
    /// Its whole answer.
    Answer,
    /// What it comes to, and the clock behind it.
    Outcome,
    /// Its whole answer, or what the repository has behind a part that is restored.
    Restore,
}

impl<'a> Script<'a> {
    /// The script in the text: its first line, and the others.
    pub(crate) fn read(text: &'a str) -> Script<'a> {
        let (head, lines) = text.split_once('\n').unwrap_or((text, ""));
        let (name, head) = head.split_once(' ').unwrap_or((head, ""));
        let (way, stores) = head.split_once(' ').unwrap_or((head, ""));
        Script {
            name,
            way: way_named(way),
            stores,
            lines,
        }
    }
}

fn way_named(name: &str) -> Way {
    match name {
        "ask" => Way::Host(HostWay::Ask),
        "exchange-again" => Way::Host(HostWay::ExchangeAgain),
        "run" => Way::Host(HostWay::Run),
        "save" => Way::Host(HostWay::Save),
        "count" => Way::Counted,
        "tell" => Way::Tell,
        "trace" => Way::Host(HostWay::Trace),
        "connect" => Way::Host(HostWay::Connect),
        "repository" => Way::Repository(RepositoryWay::Answer),
        "restore" => Way::Repository(RepositoryWay::Restore),
        "outcome" => Way::Repository(RepositoryWay::Outcome),
        _ => Way::Host(HostWay::Exchange),
    }
}
