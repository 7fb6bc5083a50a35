//! The forms in which a page can be spelled, and the bytes that its header is made of.
ghost use Rattle.std.specs.Prelude.{◌≡◌};
ghost use Rattle.pbm_reader.specs.Spelling.{is_white, is_line_end};
ghost use Rattle.pbm_reader.specs.Header.{form_of};

/// A form of Netpbm's PBM.
#[derive(Debug, Clone, Copy, PartialEq, Eq, Drop)]
pub enum Form {
    /// `P1`: a pixel is a character, `0` or `1`.
    Plain,
    /// `P4`: eight pixels a byte.
    Raw,
}

/// The form that this byte names behind a `P`, or none.
pub(crate) fn form_of(byte: u8) -> Option<Form>
    ensures { result ≡ form_of byte }
{
    match byte {
        b'1' => Some(Form::Plain),
        b'4' => Some(Form::Raw),
        _ => None,
    }
}

/// Whether the byte is a space, a tab, a carriage return or a line feed.
pub(crate) fn is_white(byte: u8) -> bool
    ensures { result ≡ is_white byte }
{
    matches!(byte, b' ' | b'\t' | b'\r' | b'\n')
}

/// Whether the byte ends a line, and a comment in it.
pub(crate) fn is_line_end(byte: u8) -> bool
    ensures { result ≡ is_line_end byte }
{
    matches!(byte, b'\r' | b'\n')
}
