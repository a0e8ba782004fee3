//! Text in HTML.

ghost use Rattle.std.specs.Prelude.{◌≡◌, ◌++◌, All, OnOk};
ghost use Rattle.sedck_report.specs.Html.{html_byte, html_text, IsPlain};

use std::alloc::AllocError;

/// Adds text as it is: markup of our own.
pub fn push_text(out: &mut Vec<u8>, text: &str) -> Result<(), AllocError>
    ensures { OnOk result (out.new.items ≡ out.old.items ++ text.now) }
{
    out.extend_from_slice(text.as_bytes())
}

/// Adds the words with an entity for each character that HTML gives a meaning, in texts and in quoted attributes.
pub fn push_html(out: &mut Vec<u8>, words: &str) -> Result<(), AllocError>
    ensures text { OnOk result (out.new.items ≡ out.old.items ++ html_text words.now) }
    ensures plain { All IsPlain (html_text words.now) }
{
    for byte in words.as_bytes() {
        push_html_byte(out, *byte)?;
    }
    Ok(())
}

/// Adds the byte, or its entity.
fn push_html_byte(out: &mut Vec<u8>, byte: u8) -> Result<(), AllocError>
    ensures { OnOk result (out.new.items ≡ out.old.items ++ html_byte byte) }
{
    match byte {
        b'<' => push_text(out, "&lt;"),
        b'>' => push_text(out, "&gt;"),
        b'&' => push_text(out, "&amp;"),
        b'"' => push_text(out, "&quot;"),
        byte => Ok(out.push(byte)?),
    }
}
