use std::alloc::Global;
use std::fmt::Write;

/// Figures as a text in Prometheus' text exposition format, version 0.0.4, in the order in which they are added. Each
/// name begins with `oaihostd_`; one that ends with `_total` is a counter, any other a gauge.
#[derive(Drop)]
pub struct Exposition {
    text: String,
    /// Whether something is missing, since memory ran out.
    lacks: bool,
}

impl Exposition {
    /// A page without figures. Allocates nothing.
    pub fn new(alloc: Global) -> Exposition {
        Exposition {
            text: String::new(alloc),
            lacks: false,
        }
    }

    /// Adds a figure with one value.
    pub fn add(&mut self, name: &str, help: &str, value: u64) {
        self.begin(name, help);
        let written = write!(self.text, "oaihostd_{name} {value}\n");
        self.note(written.is_ok());
    }

    /// Begins a figure that has a value for each of several labels. The help is a text without line ends.
    pub fn begin(&mut self, name: &str, help: &str) {
        let kind = if name.ends_with("_total") {
            "counter"
        } else {
            "gauge"
        };
        let written = write!(
            self.text,
            "# HELP oaihostd_{name} {help}\n# TYPE oaihostd_{name} {kind}\n"
        );
        self.note(written.is_ok());
    }

    /// Adds a value of the figure that was begun last, for a label that needs no escape.
    pub fn add_for(&mut self, name: &str, label: &str, of: &str, value: u64) {
        let written = write!(self.text, "oaihostd_{name}{{{label}=\"{of}\"}} {value}\n");
        self.note(written.is_ok());
    }

    /// Notes whether a part was written.
    fn note(&mut self, is_written: bool) {
        self.lacks = self.lacks || !is_written;
    }

    /// The text; `None` if memory ran out.
    pub fn into_text(self) -> Option<String> {
        if self.lacks { None } else { Some(self.text) }
    }

    /// The figures that are of no single repository, as one line; `None` if memory ran out.
    pub fn into_line(self, alloc: Global) -> Option<String> {
        let text = self.into_text()?;
        let mut line = String::new(alloc);
        for figure in text.as_str().split('\n') {
            if let Some(value) = totalled(figure) {
                let separator = if line.is_empty() { "" } else { ", " };
                line.push_str(separator).ok()?;
                line.push_str(value).ok()?;
            }
        }
        Some(line)
    }
}

/// The name and value of a line of a page, without the front of the name, if it is of no single repository.
fn totalled(figure: &str) -> Option<&str> {
    let value = figure.strip_prefix("oaihostd_")?;
    if value.contains("{repository=") {
        None
    } else {
        Some(value)
    }
}
