//! The commands of the program, as `clap` reads them.
use crate::texts::{
    CHECK_END, CHECKPOINT_END, DUMP_END, KEYS_END, PROGRAM_END, SERVE_END, VERIFY_END, XML_END,
};
use clap::{Arg, ArgAction, Command};
use std::alloc::{AllocError, Global};

/// The command line of the program, which says of itself that it has that version.
pub(crate) fn program<'a>(alloc: Global, version: &'a str) -> Result<Command<'a>, AllocError> {
    let top = Command::new(alloc, "oaihostd")
        .version(version)
        .about("Serve OAI-PMH 2.0 repositories, whose acknowledged deposits are durable")
        .after_help(PROGRAM_END)
        .subcommand_required(true);
    let top = with_command(Ok(top), serve(alloc));
    let top = with_command(top, check(alloc));
    let top = with_command(top, keys(alloc));
    let top = with_command(top, verify(alloc));
    let top = with_command(top, dump(alloc));
    let top = with_command(top, checkpoint(alloc));
    with_command(top, xml(alloc))
}

/// The command line with one more command.
fn with_command<'a>(
    top: Result<Command<'a>, AllocError>,
    command: Result<Command<'a>, AllocError>,
) -> Result<Command<'a>, AllocError> {
    top?.subcommand(command?)
}

/// The command with one more argument.
fn with<'a>(
    command: Result<Command<'a>, AllocError>,
    arg: Arg<'a>,
) -> Result<Command<'a>, AllocError> {
    command?.arg(arg)
}

/// The command that serves.
pub(crate) fn serve<'a>(alloc: Global) -> Result<Command<'a>, AllocError> {
    let serve = Command::new(alloc, "serve")
        .about("Serve the repositories of a configuration")
        .after_help(SERVE_END);
    let serve = with(Ok(serve), config(alloc));
    let serve = with(
        serve,
        wanted(alloc, "PORT", "The port, 0 to 65535; 0 means any free port"),
    );
    let serve = with(serve, served_folder(alloc));
    let serve = with(serve, keys_file(alloc));
    let serve = with(serve, listen(alloc));
    let serve = with(serve, checkpoint_after(alloc));
    with(serve, quiet(alloc))
}

/// The command that checks a configuration, and lines.
fn check<'a>(alloc: Global) -> Result<Command<'a>, AllocError> {
    let check = Command::new(alloc, "check")
        .about("Say where a configuration, or deposit lines, are wrong")
        .after_help(CHECK_END);
    let check = with(Ok(check), config(alloc));
    let check = with(
        check,
        Arg::new(alloc, "LINES").help("A file of deposit lines"),
    );
    with(check, repository(alloc))
}

/// The command that checks keys.
fn keys<'a>(alloc: Global) -> Result<Command<'a>, AllocError> {
    let keys = Command::new(alloc, "keys")
        .about("Say where the keys of depositors are wrong, and which repositories have none")
        .after_help(KEYS_END);
    let keys = with(Ok(keys), config(alloc));
    with(keys, wanted(alloc, "KEYS", "The file of the keys' digests"))
}

/// The command that verifies a journal.
fn verify<'a>(alloc: Global) -> Result<Command<'a>, AllocError> {
    let verify = Command::new(alloc, "verify")
        .about("Read a journal to its end")
        .after_help(VERIFY_END);
    with(Ok(verify), folder(alloc))
}

/// The command that dumps a repository.
fn dump<'a>(alloc: Global) -> Result<Command<'a>, AllocError> {
    let dump = Command::new(alloc, "dump")
        .about("Write a repository as deposit lines")
        .after_help(DUMP_END);
    let dump = with(Ok(dump), folder(alloc));
    with(dump, wanted(alloc, "NAME", "The name of the repository"))
}

/// The command that makes a checkpoint.
fn checkpoint<'a>(alloc: Global) -> Result<Command<'a>, AllocError> {
    let checkpoint = Command::new(alloc, "checkpoint")
        .about("Replace a journal by a checkpoint, its state in place of its history")
        .after_help(CHECKPOINT_END);
    let checkpoint = with(Ok(checkpoint), config(alloc));
    let checkpoint = with(checkpoint, folder(alloc));
    with(checkpoint, quiet(alloc))
}

/// The command that writes the canonical text of an XML element.
fn xml<'a>(alloc: Global) -> Result<Command<'a>, AllocError> {
    let xml = Command::new(alloc, "xml")
        .about("Write the canonical text of an XML element, or say where it is none")
        .after_help(XML_END);
    with(
        Ok(xml),
        wanted(
            alloc,
            "FILE",
            "The file of the element; - means the standard input",
        ),
    )
}

/// An argument that has to be there, at its place.
fn wanted<'a>(alloc: Global, name: &'a str, help: &'a str) -> Arg<'a> {
    Arg::new(alloc, name).required(true).help(help)
}

/// The file of a configuration.
fn config<'a>(alloc: Global) -> Arg<'a> {
    wanted(alloc, "CONFIG", "The file of the configuration")
}

/// The folder of a journal.
fn folder<'a>(alloc: Global) -> Arg<'a> {
    wanted(alloc, "FOLDER", "The folder of the journal")
}

/// The folder in which a server keeps its journal.
fn served_folder<'a>(alloc: Global) -> Arg<'a> {
    wanted(
        alloc,
        "FOLDER",
        "The folder of the journal; it is created if it does not exist",
    )
}

/// The option for the address at which a server listens.
fn listen<'a>(alloc: Global) -> Arg<'a> {
    Arg::new(alloc, "listen")
        .long("listen")
        .value_name("ADDRESS")
        .help("Listen at this IP address, and not at 127.0.0.1")
}

/// The option for how long the journal may become before a checkpoint.
fn checkpoint_after<'a>(alloc: Global) -> Arg<'a> {
    Arg::new(alloc, "checkpoint-after")
        .long("checkpoint-after")
        .value_name("BYTES")
        .help(
            "Write a checkpoint once the journal is this much longer than twice what it was after the last one; 64 MiB if \
not given",
        )
}

/// The option for the repository of deposit lines.
fn repository<'a>(alloc: Global) -> Arg<'a> {
    Arg::new(alloc, "repository")
        .long("repository")
        .value_name("NAME")
        .help("The repository of the lines, if it is not the first one")
}

/// The argument of the keys, which may be missing.
fn keys_file<'a>(alloc: Global) -> Arg<'a> {
    Arg::new(alloc, "KEYS").help(
        "The file of the keys' digests; deposits into its repositories need a key",
    )
}

/// The option that leaves out notices.
fn quiet<'a>(alloc: Global) -> Arg<'a> {
    Arg::new(alloc, "quiet")
        .long("quiet")
        .action(ArgAction::SetTrue)
        .help("Write no progress and no notices on standard error, only faults and warnings")
}
