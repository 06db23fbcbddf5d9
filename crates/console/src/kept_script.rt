//! What is kept of a script while it is read, so that its refused steps can be explained once it is answered.
use crate::fault::Fault;
use crate::listening::LONGEST_LINE;
use crate::reasons::why_unread;
use crate::remembering::is_failure;
use crate::voice::Voice;
use std::alloc::Global;
use std::fs::File;
use std::io::{self, Read};

/// The most bytes that are kept of a script.
const MOST_OF_SCRIPT: usize = 16_777_216;

/// One byte more than the longest script has.
const TOO_LONG: u64 = 1_073_741_824;

/// What is kept of a script that is read.
#[derive(Drop)]
pub struct KeptScript {
    /// Its lines, as many of its first ones as there is room for; of a longer line than a step may be the front.
    text: Vec<u8>,
    /// How many bytes of the last line are kept.
    line: usize,
    /// Whether nothing is kept from here on.
    is_cut: bool,
    /// How many bytes were read of it.
    read: u64,
    /// Why it could not be read.
    reason: Option<io::Error>,
}

impl KeptScript {
    /// Nothing was read yet. Lines are kept if they are wanted.
    pub fn new(alloc: Global, is_wanted: bool) -> KeptScript {
        KeptScript {
            text: Vec::new(alloc),
            line: 0,
            is_cut: !is_wanted,
            read: 0,
            reason: None,
        }
    }

    /// The lines that are kept, each but the last with its end.
    pub(crate) fn text(&self) -> &[u8] {
        self.text.as_slice()
    }

    /// Whether it has more lines than are kept; the last one that is kept may then be a part.
    pub(crate) fn is_cut(&self) -> bool {
        self.is_cut
    }

    /// Whether a read of it failed, or it is too long.
    fn is_unread(&self) -> bool {
        self.reason.is_some() || self.read >= TOO_LONG
    }

    /// Keeps what was read.
    fn keep(&mut self, bytes: &[u8]) {
        self.read = self.read.saturating_add(bytes.len() as u64);
        if self.is_cut {
            return;
        }
        for (index, piece) in bytes.split(|byte| *byte == b'\n').enumerate() {
            if index > 0 {
                self.keep_piece(b"\n");
                self.line = 0;
            }
            let room = LONGEST_LINE.saturating_sub(self.line);
            let front = piece.get(..room).unwrap_or(piece);
            self.keep_piece(front);
            self.line = self.line.saturating_add(front.len());
        }
    }

    /// Keeps a piece of a line, if there is room for it.
    fn keep_piece(&mut self, piece: &[u8]) {
        if self.is_cut {
            return;
        }
        let length = self.text.len().saturating_add(piece.len());
        self.is_cut = length > MOST_OF_SCRIPT || self.text.extend_from_slice(piece).is_err();
    }
}

/// A script's file: what is read of it is kept, and why a read failed.
#[derive(Drop)]
pub struct KeepingReader<'a> {
    /// The file.
    pub file: File,
    /// What is kept of it.
    pub script: &'a mut KeptScript,
}

impl Read for KeepingReader<'_> {
    fn read(&mut self, buf: &mut [u8]) -> io::Result<usize> {
        let filled = self.file.read(buf);
        match filled {
            Ok(count) => self.script.keep(&buf[..count]),
            Err(error) => {
                if is_failure(&error) {
                    self.script.reason = Some(error);
                }
            }
        }
        filled
    }
}

/// The end, with the first of the scripts that can't be read, and why.
pub fn with_unread_script<T>(
    voice: Voice<'_>,
    names: &[&str],
    scripts: &[KeptScript],
    end: Result<T, Fault>,
) -> Result<T, Fault> {
    let Err(Fault::Read(None)) = end else {
        return end;
    };
    for (name, script) in names.iter().zip(scripts) {
        if script.is_unread() {
            return Err(Fault::Read(why_unread(voice, name, script.reason)));
        }
    }
    Err(Fault::Read(None))
}
