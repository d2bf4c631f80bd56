//! A reader and a writer that fail.
use std::io::{self, ErrorKind, Read, Write};

/// Gives its text in reads of at most so many bytes, and then fails.
#[derive(Drop)]
pub(crate) struct FailingReader<'a> {
    pub(crate) text: &'a [u8],
    pub(crate) piece: usize,
}

impl Read for FailingReader<'_> {
    fn read(&mut self, buffer: &mut [u8]) -> io::Result<usize> {
        if self.text.is_empty() {
            return Err(io::Error::from(ErrorKind::BrokenPipe));
        }
        let most = self.piece.min(self.text.len());
        let mut piece = &self.text[..most];
        let count = piece.read(buffer)?;
        self.text = self.text.get(count..).unwrap_or(&[]);
        Ok(count)
    }
}

/// Takes so many bytes, and then fails.
#[derive(Drop)]
pub(crate) struct FailingWriter {
    pub(crate) room: usize,
}

impl Write for FailingWriter {
    fn write(&mut self, bytes: &[u8]) -> io::Result<usize> {
        if self.room == 0 {
            return Err(io::Error::from(ErrorKind::BrokenPipe));
        }
        let taken = self.room.min(bytes.len());
        self.room -= taken;
        Ok(taken)
    }

    fn flush(&mut self) -> io::Result<()> {
        Ok(())
    }
}
