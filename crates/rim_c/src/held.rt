//! Files in memory, by their paths.
ghost use Rattle.std.specs.Prelude.{◌≡◌, option_map};
ghost use Rattle.std.specs.List.{find};
ghost use Rattle.rim_c.specs.Held.{held_in, is_at};

use rim_cli::Opener;

/// A file that a caller lends: a path, and its bytes. C has it as a pointer and a length, and another pointer and length.
#[derive(Clone, Copy)]
#[repr(C)]
pub struct File<'a> {
    pub path: &'a [u8],
    pub bytes: &'a [u8],
}

/// A file that is asked about, and the files that it may name. No other file exists. Of files at one path the first is the one.
#[derive(Drop)]
pub(crate) struct Held<'a> {
    pub subject: File<'a>,
    pub files: &'a [File<'a>],
}

impl<'a> Opener for Held<'a> {
    ghost held = { λ h path. held_in h.subject h.files.now path };

    type Reader = &'a [u8];

    fn open(&mut self, path: &str) -> Option<&'a [u8]> {
        if self.subject.path == path.as_bytes() {
            return Some(self.subject.bytes);
        }
        let file = file_at(self.files, path.as_bytes())?;
        Some(file.bytes)
    }
}

/// The first file at a path, if there is one.
fn file_at<'b, 'a>(files: &'b [File<'a>], path: &[u8]) -> Option<&'b File<'a>>
    ensures { option_map (λ file. file.now) result ≡ find (is_at path.now) files.now }
{
    files.iter().find(|file| file.path == path)
}
