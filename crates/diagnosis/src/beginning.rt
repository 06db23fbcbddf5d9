//! What bytes that are no JSON begin like.
use std::fmt;

/// What bytes that are no JSON begin like.
#[derive(Clone, Copy)]
pub enum Beginning {
    Nothing,
    Gzip,
    Zip,
    Zstandard,
    Utf16,
    ByteOrderMark,
}

/// What the bytes begin like, where that is something else than JSON.
pub fn beginning_of(bytes: &[u8]) -> Option<Beginning> {
    match bytes {
        [] => Some(Beginning::Nothing),
        [0x1f, 0x8b, ..] => Some(Beginning::Gzip),
        [b'P', b'K', 3, 4, ..] => Some(Beginning::Zip),
        [0x28, 0xb5, 0x2f, 0xfd, ..] => Some(Beginning::Zstandard),
        [0xfe, 0xff, ..] | [0xff, 0xfe, ..] => Some(Beginning::Utf16),
        [0, b'{', ..] | [b'{', 0, ..] => Some(Beginning::Utf16),
        [0xef, 0xbb, 0xbf, ..] => Some(Beginning::ByteOrderMark),
        _ => None,
    }
}

impl fmt::Display for Beginning {
    fn fmt<W: fmt::Write>(&self, f: &mut fmt::Formatter<W>) -> fmt::Result {
        f.write_str(match self {
            Beginning::Nothing => "there are no bytes: a recording is one JSON object",
            Beginning::Gzip => "the bytes begin like gzip: unpack them first, by gunzip",
            Beginning::Zip => "the bytes begin like a zip archive: unpack it first, by unzip",
            Beginning::Zstandard => "the bytes begin like Zstandard: unpack them first, by unzstd",
            Beginning::Utf16 =>
                "the bytes begin like UTF-16: write the file as UTF-8, as by iconv -f UTF-16 -t UTF-8",
            Beginning::ByteOrderMark => {
                "the bytes begin with a byte order mark: write the file as UTF-8 without it"
            }
        })
    }
}
