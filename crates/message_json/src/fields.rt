//! Members and objects as they are written, token by token.
ghost use Rattle.std.specs.Prelude.{◌≡◌, ◌++◌, [], ◌∷◌, OnOk};
ghost use Rattle.json.specs.Token.{begin_object, end_object};
ghost use Rattle.message_json.specs.Fields.{Adds, field_token, member_tokens};

use json::Writer;
use std::alloc::AllocError;

/// A value that is neither an array nor an object.
#[derive(Clone, Copy)]
pub enum Field<'a> {
    Text(&'a str),
    Count(u64),
    Flag(bool),
    Null,
}

fn value(out: &mut Writer, field: Field<'_>) -> Result<(), AllocError>
    ensures { OnOk result (Adds out.old out.new (field_token field.entry ∷ [])) }
{
    match field {
        Field::Text(text) => out.string(text),
        Field::Count(n) => out.u64(n),
        Field::Flag(flag) => out.boolean(flag),
        Field::Null => out.null(),
    }
}

/// Writes members, by their names and values.
pub fn members(out: &mut Writer, members: &[(&str, Field<'_>)]) -> Result<(), AllocError>
    ensures { OnOk result (Adds out.old out.new (member_tokens members.now)) }
{
    for (name, field) in members {
        out.key(name)?;
        value(out, *field)?;
    }
    Ok(())
}

/// Writes an object of these members.
pub fn object(out: &mut Writer, fields: &[(&str, Field<'_>)]) -> Result<(), AllocError>
    ensures { OnOk result (Adds out.old out.new (begin_object ∷ (member_tokens fields.now ++ end_object ∷ []))) }
{
    out.begin_object()?;
    members(out, fields)?;
    out.end_object()
}
