//! The worked configuration, and the shorthand in which transcripts write documents.
use std::alloc::{AllocError, Global};

/// A configuration of three repositories: `a` has seconds, keeps deleted records and has a format of
/// journals, `b` has days and keeps nothing of deleted records, and `c` has seconds, keeps deleted
/// records until they are purged, and has room for two items.
pub fn worked_configuration() -> &'static str {
    r#"{"base":"http://host.example","cache":1,"repositories":[
{"name":"a","repositoryName":"Archive A","adminEmail":["a@host.example"],
 "earliestDatestamp":"2024-01-01T00:00:00Z","deletedRecord":"persistent",
 "granularity":"seconds","chunk":2,"lifetime":60,"lists":1,"items":1000,
 "formats":[{"prefix":"jnl","schema":"http://host.example/jnl.xsd",
  "namespace":"http://host.example/jnl/","root":"article","fields":["volume","pages"]}]},
{"name":"b","repositoryName":"Archive B","adminEmail":["b@host.example"],
 "earliestDatestamp":"2024-01-01","deletedRecord":"no",
 "granularity":"days","chunk":2,"lifetime":60,"lists":1,"items":1000,"formats":[]},
{"name":"c","repositoryName":"Archive C","adminEmail":["c@host.example"],
 "earliestDatestamp":"2024-01-01T00:00:00Z","deletedRecord":"transient",
 "granularity":"seconds","chunk":2,"lifetime":60,"lists":2,"items":2,"formats":[]}]}"#
}

/// What every document begins with (OAI-PMH 2.0, section 3.2).
pub fn document_head() -> &'static str {
    "<?xml version=\"1.0\" encoding=\"UTF-8\"?>\n<OAI-PMH xmlns=\"http://www.openarchives.org/OAI/2.0/\" xmlns:xsi=\"http://www.w3.org/2001/XMLSchema-instance\" xsi:schemaLocation=\"http://www.openarchives.org/OAI/2.0/ http://www.openarchives.org/OAI/2.0/OAI-PMH.xsd\">"
}

/// The start tag of a record in oai_dc.
fn dublin_core() -> &'static str {
    "<oai_dc:dc xmlns:oai_dc=\"http://www.openarchives.org/OAI/2.0/oai_dc/\" xmlns:dc=\"http://purl.org/dc/elements/1.1/\" xmlns:xsi=\"http://www.w3.org/2001/XMLSchema-instance\" xsi:schemaLocation=\"http://www.openarchives.org/OAI/2.0/oai_dc/ http://www.openarchives.org/OAI/2.0/oai_dc.xsd\">"
}

/// What a transcript wants: its lines but those that begin with `> `, which are what it asks. The error is
/// out of memory.
pub fn wanted_in(alloc: Global, transcript: &str) -> Result<String, AllocError> {
    let mut wanted = String::new(alloc);
    for line in transcript.lines() {
        if !line.starts_with("> ") {
            push_wanted(line, &mut wanted)?;
        }
    }
    Ok(wanted)
}

/// The lines that a transcript asks, without their `> `, each with its end. The error is out of memory.
pub fn asked_in(alloc: Global, transcript: &str) -> Result<String, AllocError> {
    let mut asked = String::new(alloc);
    for line in transcript.lines() {
        if let Some(line) = line.strip_prefix("> ") {
            asked.push_str(line)?;
            asked.push('\n')?;
        }
    }
    Ok(asked)
}

/// Adds a line of what a transcript wants: `DOC ` in front stands for what every document begins with,
/// and `{dc}` for the start tag of a record in oai_dc. The error is out of memory.
pub fn push_wanted(line: &str, wanted: &mut String) -> Result<(), AllocError> {
    let line = match line.strip_prefix("DOC ") {
        Some(rest) => {
            wanted.push_str(document_head())?;
            rest
        }
        None => line,
    };
    for (place, piece) in line.split("{dc}").enumerate() {
        if place > 0 {
            wanted.push_str(dublin_core())?;
        }
        wanted.push_str(piece)?;
    }
    wanted.push('\n')
}
