// Lines of numbers and dashes in columns, written into a buffer. The contracts say which bytes: `Display` promises none, and what the buffer
// holds would have to be proved all the same.
#![tactic(auto)]

ghost use Rattle.std.specs.Prelude.{◌++◌, ◌∷◌, [], ◌+◌, ◌≤◌, length};

// What a column holds: a number, a dash where there is none, or the word `file`.
#[derive(Clone, Copy, PartialEq, Eq)]
pub enum Cell {
    Number(usize),
    Dash,
    File,
}

// A buffer, and the place in it of the next byte.
#[derive(Drop)]
pub struct Columns<'a> {
    pub buf: &'a mut [u8],
    pub at: usize,
    ghost inside: { at ≤ length buf.now },
}

impl Columns<'_> {
    ghost use Rattle.columns.specs.Text.{cell_text, line5};
    ghost use Rattle.columns.specs.Columns.{HasRoom, Appends};

    // Writes a text.
    pub fn text(&mut self, text: &[u8])
        requires { HasRoom self.old (length text.now) }
        ensures { Appends self.old self.new text.now }
    {
        let end = self.at + text.len();
        self.buf[self.at..end].copy_from_slice(text);
        self.at = end;
    }

    // Writes what a column holds, at most 20 bytes.
    #[tactic(auto, using(crate::proofs::Text::decimal_same))]
    fn held(&mut self, cell: Cell)
        requires { HasRoom self.old 20 }
        ensures put { Appends self.old self.new (cell_text cell) }
        ensures few { self.new.at ≤ self.old.at + 20 }
    {
        match cell {
            Cell::Number(x) => self.text(itoa::Buffer::new().format(x).as_bytes()),
            Cell::Dash => self.text(b"-"),
            Cell::File => self.text(b"file"),
        }
    }

    // Writes a cell and the byte behind it: at most 20 bytes, and one.
    #[tactic(auto, using(crate::proofs::Appends::appends_then))]
    pub fn cell(&mut self, cell: Cell, after: u8)
        requires { HasRoom self.old 21 }
        ensures put { Appends self.old self.new (cell_text cell ++ (after ∷ [])) }
        ensures few { self.new.at ≤ self.old.at + 21 }
    {
        self.held(cell);
        self.text(&[after]);
    }

    // Writes a line of five cells, at most 105 bytes.
    pub fn line(&mut self, a: Cell, b: Cell, c: Cell, d: Cell, e: Cell)
        requires { HasRoom self.old 105 }
        ensures put { Appends self.old self.new (line5 a b c d e) }
        ensures few { self.new.at ≤ self.old.at + 105 }
    {
        self.cell(a, b' ');
        self.cell(b, b' ');
        self.cell(c, b' ');
        self.cell(d, b' ');
        self.cell(e, b'\n');
    }
}
