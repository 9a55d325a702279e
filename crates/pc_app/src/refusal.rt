//! The line that tells why a source is refused.

ghost use Rattle.std.specs.Prelude.{◌≡◌, ◌≢◌, ◌++◌, OnOk, IfOk};
ghost use Rattle.pc_app.specs.Texts.{place_text, also, fault_text, refused};

use pc_syntax::SourceFault;
use pc_text::{NoMemory, Place, Text};
use std::alloc::Global;

/// The line of a source with this fault.
pub(crate) fn refusal_of(alloc: Global, fault: SourceFault) -> Result<Text, NoMemory>
    requires { fault ≢ SourceFault.NoMemory }
    ensures { IfOk result (λ t. t ≡ refused (fault_text fault)) }
{
    let mut text = Text::new(alloc);
    text.push_all(b"source: ")?;
    push_fault(&mut text, fault)?;
    text.push(b'\n')?;
    Ok(text)
}

/// Adds the code of a fault, its place and its numbers.
fn push_fault(text: &mut Text, fault: SourceFault) -> Result<(), NoMemory>
    requires { fault ≢ SourceFault.NoMemory }
    ensures { OnOk result (text.new ≡ text.old ++ fault_text fault) }
{
    match fault {
        SourceFault::BadByte(place, byte) => {
            push_at(text, b"bad-byte ", place)?;
            push_also(text, i128::from(byte))
        }
        SourceFault::LiteralTooBig(place) => push_at(text, b"literal-too-big ", place),
        SourceFault::NameTooLong(place) => push_at(text, b"name-too-long ", place),
        SourceFault::Syntax(place) => push_at(text, b"syntax ", place),
        SourceFault::TooDeep(place) => push_at(text, b"too-deep ", place),
        SourceFault::TooLong(place) => push_at(text, b"too-long ", place),
        SourceFault::DuplicateName(place) => push_at(text, b"duplicate-name ", place),
        SourceFault::TooManyNames(place) => push_at(text, b"too-many-names ", place),
        SourceFault::UnknownName(place) => push_at(text, b"unknown-name ", place),
        SourceFault::NotAffine(place) => push_at(text, b"not-affine ", place),
        SourceFault::FormPast(place) => push_at(text, b"form-past ", place),
        SourceFault::Unequal(place) => push_at(text, b"unequal ", place),
        SourceFault::EmptyInterval(place, low, high) => {
            push_at(text, b"empty-interval ", place)?;
            push_also(text, low)?;
            push_also(text, high)
        }
        SourceFault::TooManyEdges(place) => push_at(text, b"too-many-edges ", place),
        SourceFault::NoMemory => unreachable!(),
    }
}

/// Adds a code and a place.
pub(crate) fn push_at(text: &mut Text, code: &[u8], place: Place) -> Result<(), NoMemory>
    ensures { OnOk result (text.new ≡ text.old ++ (code.now ++ place_text place)) }
{
    text.push_all(code)?;
    push_place(text, place)
}

/// Adds a place, as line and column.
pub(crate) fn push_place(text: &mut Text, place: Place) -> Result<(), NoMemory>
    ensures { OnOk result (text.new ≡ text.old ++ place_text place) }
{
    text.push_number(i128::from(place.line))?;
    text.push(b':')?;
    text.push_number(i128::from(place.column))
}

/// Adds a space and a number.
pub(crate) fn push_also(text: &mut Text, number: i128) -> Result<(), NoMemory>
    ensures { OnOk result (text.new ≡ text.old ++ also number) }
{
    text.push(b' ')?;
    text.push_number(number)
}
