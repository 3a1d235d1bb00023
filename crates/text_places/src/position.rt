//! Lines and columns.

ghost use Rattle.std.specs.Prelude.{◌≡◌, ◌+◌, ◌^◌, ◌<◌, ◌≤◌, length};
ghost use Rattle.std.specs.List.{fold};
ghost use Rattle.text_places.specs.Positions.{next_position, position_at};

/// A place in a text, as editors name it: the line, and the column in characters, both counted from 1.
#[derive(Clone, Copy, Debug, Drop, PartialEq, Eq)]
pub struct Position {
    /// The line, from 1; a line feed ends one.
    pub line: usize,
    /// The column, from 1, in characters.
    pub column: usize,
}

// Where a text goes on that stands behind this position.
fn position_after(start: Position, bytes: &[u8]) -> Position
    requires lines { start.line + length bytes.now < 2 ^ 64 }
    requires columns { start.column + length bytes.now < 2 ^ 64 }
    ensures after { result ≡ fold next_position start bytes.now }
    ensures lines { result.line ≤ start.line + length bytes.now }
    ensures columns { result.column ≤ start.column + length bytes.now }
{
    let mut position = start;
    for byte in bytes {
        position = step(position, *byte);
    }
    position
}

fn step(position: Position, byte: u8) -> Position
    requires lines { position.line + 1 < 2 ^ 64 }
    requires columns { position.column + 1 < 2 ^ 64 }
    ensures next { result ≡ next_position position byte }
    ensures lines { result.line ≤ position.line + 1 }
    ensures columns { result.column ≤ position.column + 1 }
{
    match byte {
        b'\n' => Position {
            line: position.line + 1,
            column: 1,
        },
        0x80..=0xbf => position,
        _ => Position {
            line: position.line,
            column: position.column + 1,
        },
    }
}

/// The positions in a text. Those that are asked for in the order of the text take one walk over it together.
#[derive(Clone, Copy, Debug, Drop)]
pub struct Positions<'a> {
    text: &'a [u8],
    offset: usize,
    position: Position,
    ghost within: { offset ≤ length text.now },
    ghost lines: { position.line ≤ offset + 1 },
    ghost columns: { position.column ≤ offset + 1 },
    ghost right: { position ≡ position_at text.now offset },
}

impl<'a> Positions<'a> {
    ghost use Rattle.text_places.specs.PositionsViews.{positions_text};

    /// The positions in this text.
    pub fn of(text: &'a [u8]) -> Positions<'a>
        ensures { positions_text result ≡ text.now }
    {
        Positions {
            text,
            offset: 0,
            position: Position { line: 1, column: 1 },
        }
    }

    /// The position of an offset in bytes; that of the text's end for any offset behind it.
    pub fn at(&mut self, offset: usize) -> Position
        ensures same { positions_text self.new ≡ positions_text self.old }
        ensures at { result ≡ position_at (positions_text self.old) offset }
    {
        let end = offset.min(self.text.len());
        if end < self.offset {
            *self = Positions {
                text: self.text,
                offset: 0,
                position: Position { line: 1, column: 1 },
            };
        }
        self.move_on(end);
        self.position
    }

    // Goes on to an offset.
    fn move_on(&mut self, end: usize)
        requires { (self.old.offset ≤ end) × (end ≤ length self.old.text.now) }
        ensures same { positions_text self.new ≡ positions_text self.old }
        ensures at { self.new.offset ≡ end }
    {
        let position = position_after(self.position, &self.text[self.offset..end]);
        self.position = position;
        self.offset = end;
    }
}
