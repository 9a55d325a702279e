ghost use Rattle.std.specs.Prelude.{◌≡◌, ◌≤◌, ◌<◌, ◌+◌, ◌-◌, ◌^◌, length};
ghost use Rattle.pc_text.specs.Places as spec;

/// Where a byte of a text stands.
#[derive(Clone, Copy, Debug, PartialEq, Eq)]
pub struct Place {
    /// 1 plus the line feeds before the byte.
    pub line: u32,
    /// 1 plus the bytes since the last line feed before the byte.
    pub column: u32,
}

/// The place of the byte at `to`, counted on from the byte at `from`, whose place is known: a
/// sweep over a text finds the places of all its tokens in one go. `to` may be the text's length.
pub fn place_from(src: &[u8], from: usize, place: Place, to: usize) -> Place
    requires small { length src.now < 2 ^ 32 - 1 }
    requires ordered { «from» ≤ to }
    requires within { to ≤ length src.now }
    requires known { place ≡ spec.place_of src.now «from» }
    ensures { result ≡ spec.place_of src.now to }
{
    behind(place, &src[from..to])
}

/// The place of the byte at `at`, which may be the text's length.
pub fn place_of(src: &[u8], at: usize) -> Place
    requires small { length src.now < 2 ^ 32 - 1 }
    requires within { at ≤ length src.now }
    ensures { result ≡ spec.place_of src.now at }
{
    place_from(src, 0, Place { line: 1, column: 1 }, at)
}

/// The place behind a text that begins at `place`.
fn behind(place: Place, text: &[u8]) -> Place
    requires lines { place.line + length text.now < 2 ^ 32 }
    requires columns { place.column + length text.now < 2 ^ 32 }
    requires some { 0 < place.column }
    ensures { result ≡ spec.behind place text.now }
{
    let mut line = place.line;
    let mut column = place.column;
    for byte in text {
        if *byte == b'\n' {
            line += 1;
            column = 1;
        } else {
            column += 1;
        }
    }
    Place { line, column }
}
