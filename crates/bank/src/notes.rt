// The notes of a call: one slice of four numbers a row, in four columns. The first has the representatives of the transitions;
// the others have what one loop at a time writes down.
ghost use Rattle.std.specs.Prelude.{◌≡◌, ◌<◌};
ghost use Rattle.bank.specs.Notes.{note_width, column_in};

// Numbers of the notes for each row that they have room for.
pub const NOTE_WIDTH: usize = 4;

// A column of the notes.
pub fn column(notes: &[u16], k: usize) -> &[u16]
    requires { k < note_width }
    ensures { result.now ≡ column_in notes.now k }
{
    let size = notes.len() / NOTE_WIDTH;
    let from = k * size;
    let end = from + size;
    &notes[from..end]
}
