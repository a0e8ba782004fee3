//! The table of verbs: what the byte of each says of the rest of its command.

ghost use Rattle.std.specs.Prelude.{◌≡◌, true, IfSome, IfNone};
ghost use Rattle.sedck_text.specs.Text.{is_in, one_of};
ghost use Rattle.sedck_commands.specs.Faults.{verb_bytes};
ghost use Rattle.sedck_commands.specs.Items.{Simple};
ghost use Rattle.sedck_commands.specs.Private.Forms.{IsForm};
ghost use Rattle.sedck_commands.specs.View.{verb_of};

use crate::names::Access;
use crate::types::Verb;

/// A verb that a text follows.
#[derive(Clone, Copy)]
pub enum TextVerb {
    Append,
    Change,
    Insert,
}

/// What a verb takes.
#[derive(Drop)]
pub enum Form<'a> {
    /// Nothing: this is the verb.
    Nothing(Verb<'a>),
    /// A text.
    Text(TextVerb),
    /// The name of a file.
    File(Access),
    /// The label that it defines.
    Label,
    /// The label that it leads to. A test jumps only after a substitution.
    Jump { tests: bool },
    /// Commands up to a `}`.
    Block,
    /// An expression, a replacement and flags.
    Substitution,
    /// Two lists of bytes.
    Transliteration,
}

/// The verb of the byte, where it takes nothing.
fn simple_verb<'a>(byte: u8) -> Option<Verb<'a>>
    ensures some { IfSome result (λ verb. Simple byte (verb_of verb)) }
    ensures none { IfNone result (is_in byte verb_bytes ≡ true → one_of "{abcirstwy:}#" byte ≡ true) }
{
    let verb = match byte {
        b'=' => Verb::LineNumber,
        b'd' => Verb::Delete,
        b'D' => Verb::DeleteFirstLine,
        b'g' => Verb::Get,
        b'G' => Verb::GetAppend,
        b'h' => Verb::Hold,
        b'H' => Verb::HoldAppend,
        b'l' => Verb::List,
        b'n' => Verb::Next,
        b'N' => Verb::NextAppend,
        b'p' => Verb::Print,
        b'P' => Verb::PrintFirstLine,
        b'q' => Verb::Quit,
        b'x' => Verb::Exchange,
        _ => return None,
    };
    Some(verb)
}

/// What the verb of the byte takes. A `}` and a comment are no verbs.
pub fn form_of<'a>(byte: u8) -> Option<Form<'a>>
    ensures some { IfSome result (IsForm byte) }
    ensures none { IfNone result (is_in byte verb_bytes ≡ true → one_of "}#" byte ≡ true) }
{
    let form = match byte {
        b'a' => Form::Text(TextVerb::Append),
        b'c' => Form::Text(TextVerb::Change),
        b'i' => Form::Text(TextVerb::Insert),
        b'r' => Form::File(Access::Read),
        b'w' => Form::File(Access::Write),
        b':' => Form::Label,
        b'b' => Form::Jump { tests: false },
        b't' => Form::Jump { tests: true },
        b'{' => Form::Block,
        b's' => Form::Substitution,
        b'y' => Form::Transliteration,
        _ => Form::Nothing(simple_verb(byte)?),
    };
    Some(form)
}
