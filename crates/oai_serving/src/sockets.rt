//! Where connections come from, and what they are read from and written to.
ghost use Rattle.std.specs.Prelude.{ℕ, List, [], ◌∷◌, Option, None};
ghost use Rattle.oai_serving.specs.Accepted.{Accepts, IsAcceptance, LetsGo};
ghost use Rattle.std.specs.Io.{ReadsAtMost, WritesAtMost};
ghost use Rattle.std.specs.Io.KnownBytes.{Keeps, ReadConsumes, WriteAppends};

use std::io;
use std::time::Duration;

/// A non-blocking stream: reads and writes return `WouldBlock` instead of waiting.
pub trait Stream {
    /// The bytes that were written to it, if they are known.
    ghost contents: { Self → Option (List ℕ) } = { λ _. None };

    /// The bytes that remain to be read from it, if they are known.
    ghost remaining: { Self → Option (List ℕ) } = { λ _. None };

    /// Reads once into the buffer, and returns how many bytes came; 0 only at the end, or if the buffer is empty. After
    /// an error nothing was read.
    fn read(&mut self, buffer: &mut [u8]) -> io::Result<usize>
        ensures bound { ReadsAtMost result buffer.new }
        ensures bytes { ReadConsumes (remaining self.old) (remaining self.new) result buffer.new }
        ensures kept { Keeps (contents self.old) (contents self.new) };

    /// Writes once, and returns how many of the bytes were taken. After an error none was.
    fn write(&mut self, bytes: &[u8]) -> io::Result<usize>
        ensures bound { WritesAtMost result bytes.now }
        ensures bytes { WriteAppends (contents self.old) (contents self.new) result bytes.now }
        ensures kept { Keeps (remaining self.old) (remaining self.new) };

    /// Shuts it down for writing, so that the peer reads the end; what it sends can still be read.
    fn finish(&mut self)
        ensures contents { Keeps (contents self.old) (contents self.new) }
        ensures remaining { Keeps (remaining self.old) (remaining self.new) };
}

/// A readiness of a wait.
#[derive(Clone, Copy, Debug, PartialEq, Eq)]
pub enum Readiness {
    /// Connections may wait to be accepted.
    Listener,
    /// The stream that is watched under the key can be read, or written, or its peer ended.
    Stream {
        /// The key.
        key: usize,
        /// It can be read.
        readable: bool,
        /// It can be written.
        writable: bool,
        /// The peer writes no more.
        ended: bool,
    },
}

/// A listener, and the readiness of the streams that were accepted. A report may be spurious, or of a stream that was
/// closed; and a change is reported once.
pub trait Sockets<S: Stream> {
    /// The streams that were accepted, in order, in their state then, if they are known.
    ghost accepted: { Self → Option (List S) } = { λ _. None };

    /// The closed streams, in order, in their state then, each with its number, if they are known.
    ghost gone: { Self → Option (List (ℕ × S)) } = { λ _. None };

    /// Waits until something becomes ready, at most that long, and returns how many readinesses there are.
    fn wait(&mut self, most: Duration) -> io::Result<usize>
        ensures accepted { Accepts (accepted self.old) (accepted self.new) [] }
        ensures gone { LetsGo (gone self.old) (gone self.new) [] };

    /// The readiness at that position of the last wait.
    fn ready(&self, at: usize) -> Option<Readiness>;

    /// The next connection; None if none waits.
    fn accept(&mut self) -> io::Result<Option<S>>
        ensures accepted { IsAcceptance (accepted self.old) result (accepted self.new) }
        ensures gone { LetsGo (gone self.old) (gone self.new) [] };

    /// Has each wait report changes of the stream under the key, for as long as it lives.
    fn watch(&mut self, stream: &mut S, key: usize) -> io::Result<()>
        ensures contents { Keeps (S.contents stream.old) (S.contents stream.new) }
        ensures remaining { Keeps (S.remaining stream.old) (S.remaining stream.new) }
        ensures accepted { Accepts (accepted self.old) (accepted self.new) [] }
        ensures gone { LetsGo (gone self.old) (gone self.new) [] };

    /// Takes a stream whose connection is over, with its number, and drops it.
    fn let_go(&mut self, number: u64, stream: S)
        ensures accepted { Accepts (accepted self.old) (accepted self.new) [] }
        ensures gone { LetsGo (gone self.old) (gone self.new) ((number, stream) ∷ []) };
}
