//! The texts of the help that stand behind a command's arguments: one example each.

pub(crate) const PROGRAM_END: &str =
    "Example: oaihostd serve archive.json 8480 archive{n}{n}The manual is oaihostd(8).";

pub(crate) const SERVE_END: &str =
    "Example: oaihostd serve archive.json 8480 archive{n}{n}It then answers requests for the repository NAME at \
/oai/NAME,{n}and deposits at /deposit/NAME. Without KEYS, whoever reaches it may deposit.";

pub(crate) const CHECK_END: &str =
    "Example: oaihostd check archive.json dump.jsonl{n}{n}The lines are read as those of the first deposits to a \
repository without{n}items and sets. The status is 1 if one is refused.";

pub(crate) const KEYS_END: &str =
    "Example: oaihostd keys archive.json keys.json{n}{n}Into a repository that does not stand in KEYS, whoever reaches \
the server{n}may deposit; into one that stands there without digests, nobody.";

pub(crate) const VERIFY_END: &str =
    "Example: oaihostd verify archive{n}{n}A server may run meanwhile.";

pub(crate) const DUMP_END: &str =
    "Example: oaihostd dump archive theses >theses.jsonl{n}{n}A server may run meanwhile.";

pub(crate) const CHECKPOINT_END: &str =
    "Example: oaihostd checkpoint archive.json archive{n}{n}No server may run meanwhile. All open lists end.";

pub(crate) const XML_END: &str =
    "Example: oaihostd xml record.xml{n}{n}The text is an XML document without a document type, of UTF-8.";
