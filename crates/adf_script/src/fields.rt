//! Fields after the keyword of a line. Each follows one space, and a call returns the rest of the line.
ghost use Rattle.std.specs.Prelude.{◌≡◌, ◌≢◌, ◌∷◌, ◌++◌, [], ◌≤◌, ℕ, List, Option, length, false, MatchOption, MatchResult};
ghost use Rattle.adf_script.specs.Pieces.{has_byte};
ghost use Rattle.adf_script.specs.Grammar.{SpellsField, SpellsFields};
ghost use Rattle.adf_script.specs.declared.forms.FieldKind.TheVariants as field_kind;
ghost use Rattle.adf_script.specs.steps.Reading.{SpellsNoNumber, SpellsNone, ReadsNone, ReadsValue, field_of, fields_by, values_of, text_fits};

use crate::forms::{FieldKind, NumberKind, TextKind};
use crate::line_fault::{Expected, Stop};
use crate::numbers::{count, number, value};
use crate::pieces::{behind, cut, split_once};
use crate::signed::signed;
use ados_name::PathText;

/// The value of a field. The kind of the field says which of these it is.
#[derive(Clone, Copy)]
pub(crate) struct FieldValue<'a> {
    pub(crate) number: u32,
    pub(crate) signed: i32,
    pub(crate) text: &'a [u8],
}

const NO_VALUE: FieldValue<'static> = FieldValue {
    number: 0,
    signed: 0,
    text: &[],
};

/// The values of a line's fields, in order.
#[derive(Clone, Copy)]
pub(crate) struct Fields<'a> {
    pub(crate) first: FieldValue<'a>,
    pub(crate) second: FieldValue<'a>,
    pub(crate) third: FieldValue<'a>,
    pub(crate) fourth: FieldValue<'a>,
    pub(crate) fifth: FieldValue<'a>,
}

const NO_FIELDS: Fields<'static> = Fields {
    first: NO_VALUE,
    second: NO_VALUE,
    third: NO_VALUE,
    fourth: NO_VALUE,
    fifth: NO_VALUE,
};

/// The bytes after a space, if there is one. A field is expected after it.
fn after_space<'a>(rest: &'a [u8], expected: Expected) -> Result<&'a [u8], Stop<'a>>
    ensures { MatchResult result
        (λ line. rest.now ≡ 32 ∷ line.now)
        (λ _. (line : List ℕ) → rest.now ≢ 32 ∷ line) }
{
    match behind(rest, b' ') {
        Some(line) => Ok(line),
        None if rest.is_empty() => Err(Stop {
            expected,
            found: rest,
        }),
        None => Err(Stop {
            expected: Expected::Separator,
            found: rest,
        }),
    }
}

/// The end of a line.
fn end(rest: &[u8]) -> Result<(), Stop<'_>>
    ensures { MatchResult result (λ _. rest.now ≡ []) (λ _. rest.now ≢ []) }
{
    if rest.is_empty() {
        return Ok(());
    }
    let line = after_space(rest, Expected::End)?;
    let found = if line.is_empty() { rest } else { line };
    Err(Stop {
        expected: Expected::End,
        found,
    })
}

impl NumberKind {
    /// The number in a field.
    fn read(self, values: &[Option<u32>], field: &[u8]) -> Option<FieldValue<'static>>
        ensures { MatchOption result
            (SpellsNoNumber values.now self field.now)
            (λ value. SpellsField values.now (field_of (field_kind.Number self) value) field.now) }
    {
        match self {
            NumberKind::Value => Some(FieldValue {
                number: value(values, field)?,
                ..NO_VALUE
            }),
            NumberKind::Unsigned => Some(FieldValue {
                number: number(field)?,
                ..NO_VALUE
            }),
            NumberKind::Signed => Some(FieldValue {
                signed: signed(field)?,
                ..NO_VALUE
            }),
            NumberKind::Count => Some(FieldValue {
                number: count(field)?,
                ..NO_VALUE
            }),
        }
    }

    /// Whether a field is the `$k` of a reply.
    fn is_reply(self, field: &[u8]) -> bool {
        match (self, behind(field, b'$')) {
            (NumberKind::Value, Some(digits)) => number(digits).is_some(),
            _ => false,
        }
    }
}

impl TextKind {
    /// Whether a text is short enough.
    fn fits(self, text: &[u8]) -> bool
        ensures { result ≡ text_fits self text.now }
    {
        match self {
            TextKind::Short => text.len() <= PathText::MAX_LEN,
            TextKind::Long => true,
        }
    }
}

/// A number, and the rest after it. The number is `None` for a `$k` of a reply without a value.
fn read_number<'a>(
    kind: NumberKind,
    values: &[Option<u32>],
    rest: &'a [u8],
) -> Result<(Option<FieldValue<'a>>, &'a [u8]), Stop<'a>>
    ensures { MatchResult result
        (λ read. ReadsValue values.now (field_kind.Number kind) rest.now read.0 read.1.now)
        (λ _. ReadsNone values.now (field_kind.Number kind) rest.now) }
{
    let expected = Expected::Number(kind);
    let line = after_space(rest, expected)?;
    let (field, behind) = cut(line);
    let value = kind.read(values, field);
    if value.is_some() || kind.is_reply(field) {
        return Ok((value, behind));
    }
    let found = if field.is_empty() { line } else { field };
    Err(Stop { expected, found })
}

/// A text in quotes, and the rest after it.
fn read_text(kind: TextKind, rest: &[u8]) -> Result<(Option<FieldValue<'_>>, &[u8]), Stop<'_>>
    ensures { (values : List (Option ℕ)) → MatchResult result
        (λ read. ReadsValue values (field_kind.Text kind) rest.now read.0 read.1.now)
        (λ _. ReadsNone values (field_kind.Text kind) rest.now) }
{
    let found = after_space(rest, Expected::Text)?;
    let Some((text, behind)) = quoted(found) else {
        return Err(Stop {
            expected: Expected::Text,
            found,
        });
    };
    if !kind.fits(text) {
        return Err(Stop {
            expected: Expected::ShortText,
            found,
        });
    }
    Ok((Some(FieldValue { text, ..NO_VALUE }), behind))
}

/// A text between quotes at the start of a line, and the rest after it.
fn quoted(line: &[u8]) -> Option<(&[u8], &[u8])>
    ensures { MatchOption result
        ((text behind : List ℕ) → line.now ≡ 34 ∷ text ++ 34 ∷ behind → has_byte 34 text ≢ false)
        (λ parts. (line.now ≡ 34 ∷ parts.0.now ++ 34 ∷ parts.1.now) × (has_byte 34 parts.0.now ≡ false)) }
{
    split_once(behind(line, b'"')?, b'"')
}

/// A field of this kind, and the rest after it. It is `None` for a `$k` of a reply without a value.
fn read_field<'a>(
    kind: FieldKind,
    values: &[Option<u32>],
    rest: &'a [u8],
) -> Result<(Option<FieldValue<'a>>, &'a [u8]), Stop<'a>>
    ensures { MatchResult result
        (λ read. ReadsValue values.now kind rest.now read.0 read.1.now)
        (λ _. ReadsNone values.now kind rest.now) }
{
    match kind {
        FieldKind::Number(kind) => read_number(kind, values, rest),
        FieldKind::Text(kind) => read_text(kind, rest),
    }
}

/// The values of fields of these kinds, up to the end of the line. A `$k` without a value stops the reader only if the
/// rest of the line is in order, since that is a fault of the form.
pub(crate) fn read_fields<'a>(
    values: &[Option<u32>],
    kinds: &[FieldKind],
    rest: &'a [u8],
) -> Result<Fields<'a>, Stop<'a>>
    requires { length kinds.now ≤ 5 }
    ensures { MatchResult result
        (λ fields. SpellsFields values.now (fields_by kinds.now (values_of fields)) rest.now)
        (λ _. SpellsNone values.now kinds.now rest.now) }
{
    let Some((kind, others)) = kinds.split_first() else {
        end(rest)?;
        return Ok(NO_FIELDS);
    };
    let (value, behind) = read_field(*kind, values, rest)?;
    let fields = read_fields(values, others, behind)?;
    match value {
        Some(first) => Ok(Fields {
            first,
            second: fields.first,
            third: fields.second,
            fourth: fields.third,
            fifth: fields.fourth,
        }),
        None => Err(Stop {
            expected: Expected::Reply,
            found: rest,
        }),
    }
}
